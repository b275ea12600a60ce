//! Collections that one caller makes.
ghost use Rattle.ingest_workers.specs.Jobs.{AskedFrom};
ghost use Rattle.shared_work.specs.Working.{CollectsBeside, CollectsOnce, Sweeps};

use actor_parts::{Answer, Percent, SegBuf, Step, StoreCalls};
use refusals::Refusal;
use std::sync::Wait;
use std::sync::atomic::{AtomicU64, Ordering};
use std::time::Duration;

/// How many collections are made beside workers, at most.
const MOST_COLLECTIONS: u64 = 1_024;

// For how many milliseconds none is made after one, while jobs are left: a collection takes a turn for each container, and each of them
// keeps the workers waiting.
const REST: u64 = 1_000;

// Makes on the collection that runs, up to its end or a refusal.
fn sweep<S: StoreCalls, R: Wait>(rt: &R, caller: &mut S, buf: &mut SegBuf) -> Result<(), Refusal>
    ensures { AskedFrom S.asks caller.old (Sweeps result) caller.new }
{
    for _ in rt.forever() {
        match caller.ask(Step::GcStep, buf)? {
            Answer::Done { .. } => return Ok(()),
            Answer::Did { .. } => {}
            _ => unreachable!(),
        }
    }
    unreachable!()
}

// Waits for `REST`, or until it is told that no job is left. A job that ends meanwhile may end it sooner.
fn rest<R: Wait>(rt: &R, left: &AtomicU64) {
    let jobs = left.load(Ordering::SeqCst);
    if jobs > 0 {
        left.park_timeout(rt, (jobs % (1 << 32)) as u32, Duration::from_millis(REST));
    }
}

/// Makes a whole collection, which frees containers of which less than this percentage is needed: begins it, and makes it on to its end.
/// It ends at the first refusal; a collection that had begun runs on then, where the store does. Nothing bounds here how many steps one
/// has, so it promises what it promises if it returns.
pub fn collect_once<S: StoreCalls, R: Wait>(
    rt: &R,
    caller: &mut S,
    percent: Percent,
    buf: &mut SegBuf,
) -> Result<(), Refusal>
    ensures { AskedFrom S.asks caller.old (CollectsOnce percent result) caller.new }
{
    caller.ask(Step::GcStart { percent: &percent }, buf)?;
    sweep(rt, caller, buf)
}

/// Makes whole collections while jobs are left, one after the other: `MOST_COLLECTIONS` at most, and none after one that was refused.
/// Between two it rests for `REST`, or until none is left.
pub(crate) fn collect_often<S: StoreCalls, R: Wait>(
    rt: &R,
    caller: &mut S,
    percent: Percent,
    left: &AtomicU64,
    buf: &mut SegBuf,
) -> Result<(), Refusal>
    ensures { AskedFrom S.asks caller.old (CollectsBeside percent result) caller.new }
{
    for i in 0..MOST_COLLECTIONS {
        if left.load(Ordering::SeqCst) == 0 {
            return Ok(());
        }
        collect_once(rt, caller, percent, buf)?;
        rest(rt, left);
    }
    Ok(())
}
