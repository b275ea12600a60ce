//! A job that is done by a caller.
ghost use Rattle.ingest_workers.specs.Giving.{IsRead, TakesAll};
ghost use Rattle.ingest_workers.specs.Jobs.{AskedFrom, IsJob, IsServed};

use crate::job::{Job, JobEnd};
use crate::storing::{own, store};
use actor_parts::{Answer, SegBuf, Step, StoreCalls};
use namespace::Root;
use refusals::Refusal;
use session_turns::{ByCaller, MakesSteps};
use std::alloc::Global;
use std::sync::Wait;

// Takes all of an opened file, to its end.
fn take_all<S: StoreCalls, R: Wait>(
    rt: &R,
    caller: &mut ByCaller<S>,
    buf: &mut SegBuf,
) -> Result<(), Refusal>
    ensures { AskedFrom S.asks caller.old (TakesAll result) caller.new }
{
    for _ in rt.forever() {
        match caller.make(own(), Step::ReadNext, buf)? {
            Answer::End => return Ok(()),
            Answer::Bytes { .. } => {}
            _ => unreachable!(),
        }
    }
    unreachable!()
}

// Reads the file of a name to its end, and lets it go. Where that is refused, the file is given up.
fn read<S: StoreCalls, R: Wait>(
    rt: &R,
    caller: &mut ByCaller<S>,
    name: &[u8],
    buf: &mut SegBuf,
) -> Result<(), Refusal>
    ensures { AskedFrom S.asks caller.old (IsRead name.now result) caller.new }
{
    caller.make(own(), Step::OpenRead { name }, buf)?;
    match take_all(rt, caller, buf) {
        Ok(()) => {
            caller.make(own(), Step::EndRead, buf)?;
            Ok(())
        }
        Err(refusal) => {
            let _given_up = caller.make(own(), Step::EndRead, buf);
            Err(refusal)
        }
    }
}

// Does a job, up to the first refusal.
fn serve<S: StoreCalls, R: Wait>(
    rt: &R,
    alloc: Global,
    caller: &mut ByCaller<S>,
    job: &Job,
    buf: &mut SegBuf,
) -> Result<Root, Refusal>
    ensures { AskedFrom S.asks caller.old (IsServed job.now result) caller.new }
{
    let temp = job.temp_name(alloc)?;
    let work = job.work_name(alloc)?;
    store(alloc, caller, job, temp.as_bytes(), buf)?;
    let root = store(alloc, caller, job, work.as_bytes(), buf)?;
    caller.make(
        own(),
        Step::Delete {
            name: temp.as_bytes(),
        },
        buf,
    )?;
    read(rt, caller, work.as_bytes(), buf)?;
    Ok(root)
}

/// Does a job, up to the first refusal.
pub(crate) fn do_job<S: StoreCalls, R: Wait>(
    rt: &R,
    alloc: Global,
    caller: &mut ByCaller<S>,
    job: &Job,
    buf: &mut SegBuf,
) -> JobEnd
    ensures { AskedFrom S.asks caller.old (IsJob job.now result) caller.new }
{
    match serve(rt, alloc, caller, job, buf) {
        Ok(root) => JobEnd::Stored(root),
        Err(refusal) => JobEnd::Refused(refusal),
    }
}
