//! Taking a source in, and storing it.
ghost use Rattle.std.specs.Prelude.{◌≡◌, ◌≤◌, length, false, true, OnOk};
ghost use Rattle.ingest_session.specs.Due.{due_in};
ghost use Rattle.script_lines.specs.Grammar.{pushed_bytes};
ghost use Rattle.session_turns.specs.declared.turns.TheConstants.{MOST_PIECE};
ghost use Rattle.store_core.specs.State.{IsRunning};
ghost use Rattle.backup_engine.specs.Feeding.{Fills, SessionLaws};
ghost use Rattle.backup_engine.specs.Running.{IsFresh};
ghost use Rattle.backup_engine.specs.Saying.{SaysEnd, SaysPushes};
ghost use Rattle.backup_engine.specs.Singles.{Digits};
ghost use Rattle.backup_engine.specs.Storing.{IngestRun};
ghost use Rattle.session_turns.specs.Turns.{session_at};
ghost use Rattle.backup_engine.specs.Seen.{streaming};

use crate::putting::{commit, first};
use crate::reply::send;
use actor_parts::{SegBuf, Step};
use dd_io::{Sink, Source};
use ingest_session::{
    Due, LONG_QUEUE, Session, bytes_are_counted, children_come_first, steps_have_pieces,
};
use reply_text::{Ending, stored_line};
use session_turns::{MOST_PIECE, feed, make_turns};
use std::alloc::Global;
use std::thread::Threads;
use store_core::HasState;

// The laws that feeding a session rests on. The function does nothing.
fn sessions_have_laws()
    ensures { SessionLaws }
{
    steps_have_pieces();
    children_come_first();
    bytes_are_counted();
}

// Bytes can be pushed by a line of a script. The function does nothing.
fn can_be_pushed(bytes: &[u8])
    requires some { 1 ≤ length bytes.now }
    requires few { length bytes.now ≤ MOST_PIECE }
    ensures { (d : Digits) × (pushed_bytes d.digits ≡ bytes.now) }
{}

// Takes the digests of all segments that wait, at once. Where there is no memory for them, each is taken as its turn comes.
fn hash<R: Threads + Sync>(rt: &R, session: &mut Session)
    ensures { session.new ≡ session.old }
{
    let _taken = session.hash(rt);
}

// The same before turns are made of a full queue, where the first that waits has no digest.
fn hash_full<R: Threads + Sync>(rt: &R, session: &mut Session)
    ensures { session.new ≡ session.old }
{
    if session.queued() > session.most_waiting() && session.hash_pays() {
        hash(rt, session);
    }
}

// Has a session take all that the source has left; turns are made as its queue fills.
fn fill<C: HasState, S: Source, R: Threads + Sync>(
    rt: &R,
    core: &mut C,
    session: &mut Session,
    source: &mut S,
    buf: &mut SegBuf,
) -> Result<(), Ending>
    requires running { IsRunning (C.state core.old) }
    requires ongoing { session.old.ended ≡ false }
    ensures fills { Fills C C.state (SaysPushes C C.state) result (session_at session.old core.old) (session_at session.new core.new)
        (S.view source.old) (S.view source.new) }
    ensures ongoing { session.new.ended ≡ false }
    ensures running { IsRunning (C.state core.new) }
{
    sessions_have_laws();
    let mut piece = [0u8; MOST_PIECE];
    loop {
        let Ok(count) = source.read(&mut piece) else {
            return Err(Ending::Source);
        };
        if count == 0 {
            hash(rt, session);
            return Ok(());
        }
        can_be_pushed(&piece[..count]);
        feed(core, first(), session, &piece[..count], buf)?;
        hash_full(rt, session);
    }
}

// The same, and makes all turns that are due then.
fn take_in<C: HasState, S: Source, R: Threads + Sync>(
    rt: &R,
    core: &mut C,
    session: &mut Session,
    source: &mut S,
    buf: &mut SegBuf,
) -> Result<(), Ending>
    requires running { IsRunning (C.state core.old) }
    requires ongoing { session.old.ended ≡ false }
    ensures fills { Fills C C.state (SaysEnd C C.state) result (session_at session.old core.old) (session_at session.new core.new)
        (S.view source.old) (S.view source.new) }
    ensures ended { OnOk result (session.new.ended ≡ true) }
    ensures done { OnOk result (due_in session.new ≡ Due.Nothing) }
    ensures running { IsRunning (C.state core.new) }
{
    sessions_have_laws();
    fill(rt, core, session, source, buf)?;
    session.finish()?;
    make_turns(core, first(), session, buf)?;
    Ok(())
}

/// Stores all that the source has left under a name, and writes the reply. Its digests may be taken by several threads.
pub(crate) fn store_source<C: HasState, S: Source, K: Sink, R: Threads + Sync>(
    rt: &R,
    alloc: Global,
    core: &mut C,
    source: &mut S,
    sink: &mut K,
    name: &str,
) -> Result<(), Ending>
    requires fresh { IsFresh (C.state core.old) }
    ensures ran { IngestRun C C.state name.now result (streaming core.old (S.view source.old) (K.view sink.old))
        (streaming core.new (S.view source.new) (K.view sink.new)) }
    ensures running { IsRunning (C.state core.new) }
{
    let mut buf = SegBuf::new(alloc)?;
    let mut session = Session::new(alloc, LONG_QUEUE)?;
    core.make_step(first(), Step::Begin, &mut buf)?;
    take_in(rt, core, &mut session, source, &mut buf)?;
    let Some(root) = session.ready() else {
        unreachable!()
    };
    // The reply's memory is taken before the name is put.
    let reply = stored_line(alloc, name.as_bytes(), &root)?;
    commit(core, name, &root, &mut buf)?;
    send(sink, &reply)
}
