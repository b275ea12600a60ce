//! Two threads over one store, from the opening to the join.
use crate::shared::Shared;
use crate::stage::formatted;
use actor_parts::{Answer, SegBuf, Step};
use std::alloc::Global;
use std::sync::Wait;
use std::thread::Threads;
use transcripts::Fault;

/// Two passes put 20 files each, by a thread of its own; then one takes the other in. Says how many names there are, and how many
/// commands the pass has seen.
pub(crate) fn two_threads<R: Threads + Wait + Sync>(
    rt: &R,
    alloc: Global,
) -> Result<String, Fault> {
    let Ok(mut shared) = Shared::open(alloc, formatted(alloc, 64)?, "p") else {
        return Err(Fault::Store);
    };
    let split = shared.split(rt, "p", "q".to_string(alloc)?)?;
    let put = shared.both(rt, alloc, "p", "q")?;
    let joined = shared.join("p", "q")?;
    if split.is_err() || put.is_err() || !joined {
        return Err(Fault::Store);
    }
    let seen = shared.seen("p")?;
    let names = count(rt, alloc, &mut shared)?;
    Ok(format!(in alloc; "two threads: {names} names, {seen} commands seen")?)
}

// How many names there are.
fn count<R: Wait>(rt: &R, alloc: Global, shared: &mut Shared) -> Result<usize, Fault> {
    let mut buf = SegBuf::new(alloc)?;
    match shared.call(rt, "p", Step::List, &mut buf)? {
        Ok(Answer::Listed { files }) => Ok(files.names().len()),
        _ => Err(Fault::Store),
    }
}
