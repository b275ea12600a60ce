//! A file that is stored by a caller.
ghost use Rattle.std.specs.Prelude.{◌≡◌, false};
ghost use Rattle.ingest_workers.specs.Giving.{IsStored};
ghost use Rattle.ingest_workers.specs.Jobs.{AskedFrom, file_of};
ghost use Rattle.ingest_workers.specs.Working.{Commits, Fills};

use crate::job::Job;
use actor_parts::{Actor, SegBuf, Step, StoreCalls};
use ingest_session::{QUEUE, Session};
use load_stream::LoadStream;
use namespace::Root;
use refusals::Refusal;
use session_turns::{ByCaller, MOST_PIECE, MakesSteps, feed, make_turns};
use std::alloc::Global;

/// The actor that a caller's steps are asked for as: a caller makes them as its own, whichever is named.
pub(crate) fn own() -> Actor {
    match Actor::new(0) {
        Some(actor) => actor,
        None => unreachable!(),
    }
}

// Has a session take all bytes of a stream; turns are made as its queue fills.
fn fill<S: StoreCalls>(
    caller: &mut ByCaller<S>,
    session: &mut Session,
    stream: &mut LoadStream,
    buf: &mut SegBuf,
) -> Result<(), Refusal>
    requires ongoing { session.old.ended ≡ false }
    requires none { session.old.count ≡ 0 }
    requires fresh { stream.old.given ≡ 0 }
    ensures fills { Fills S.asks stream.old result session.old session.new caller.old caller.new }
    ensures ongoing { session.new.ended ≡ false }
{
    let mut piece = [0u8; MOST_PIECE];
    loop {
        let count = stream.next_bytes(&mut piece);
        if count == 0 {
            return Ok(());
        }
        feed(caller, own(), session, &piece[..count], buf)?;
    }
}

// Gives a session the file of a job, and its root a name.
fn give<S: StoreCalls>(
    caller: &mut ByCaller<S>,
    session: &mut Session,
    job: &Job,
    name: &[u8],
    buf: &mut SegBuf,
) -> Result<Root, Refusal>
    requires ongoing { session.old.ended ≡ false }
    requires none { session.old.count ≡ 0 }
    ensures { Commits S.asks (file_of job.now) name.now result session.old caller.old caller.new }
{
    let mut stream = LoadStream::new(job.seed, job.number, job.length);
    fill(caller, session, &mut stream, buf)?;
    session.finish()?;
    make_turns(caller, own(), session, buf)?;
    let Some(root) = session.ready() else {
        unreachable!()
    };
    caller.make(own(), Step::Commit { name, root: &root }, buf)?;
    Ok(root)
}

/// Stores the file of a job under a name. Where that is refused, the file is given up.
pub(crate) fn store<S: StoreCalls>(
    alloc: Global,
    caller: &mut ByCaller<S>,
    job: &Job,
    name: &[u8],
    buf: &mut SegBuf,
) -> Result<Root, Refusal>
    ensures { AskedFrom S.asks caller.old (IsStored (file_of job.now) name.now result) caller.new }
{
    let mut session = Session::new(alloc, QUEUE)?;
    caller.make(own(), Step::Begin, buf)?;
    match give(caller, &mut session, job, name, buf) {
        Ok(root) => Ok(root),
        Err(refusal) => {
            let _given_up = caller.make(own(), Step::Abort, buf);
            Err(refusal)
        }
    }
}
