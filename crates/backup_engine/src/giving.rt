//! The steps by which a file is given back.
ghost use Rattle.std.specs.Prelude.{◌≡◌};
ghost use Rattle.store_core.specs.State.{IsRunning};
ghost use Rattle.backup_engine.specs.Running.{IsFresh, GiveRun};

use crate::putting::first;
use actor_parts::{Answer, SegBuf, Step};
use dd_io::Sink;
use read_steps::ReadAhead;
use reply_text::Ending;
use std::alloc::Global;
use std::thread::Threads;
use store_core::HasState;

// Reads segments ahead, where all that were read ahead were given, and takes their digests.
fn look_ahead<C: HasState, R: Threads + Sync>(
    rt: &R,
    alloc: Global,
    core: &C,
    ahead: &mut ReadAhead,
    buf: &mut SegBuf,
) {
    if core.look_ahead(ahead, first(), buf) {
        ahead.take_digests(rt, alloc);
    }
}

/// Gives the file of a name to a sink, segment by segment. Where that pays they are read ahead, so that several threads take their
/// digests.
pub(crate) fn give_out<C: HasState, K: Sink, R: Threads + Sync>(
    rt: &R,
    alloc: Global,
    core: &mut C,
    name: &str,
    buf: &mut SegBuf,
    sink: &mut K,
) -> Result<(), Ending>
    requires fresh { IsFresh (C.state core.old) }
    ensures ran { GiveRun C C.state name.now result core.old core.new (K.view sink.old) (K.view sink.new) }
    ensures running { IsRunning (C.state core.new) }
{
    let step = Step::OpenRead {
        name: name.as_bytes(),
    };
    core.make_step(first(), step, buf)?;
    let mut ahead = ReadAhead::new(rt, alloc);
    loop {
        look_ahead(rt, alloc, &*core, &mut ahead, buf);
        let Answer::Bytes { count } = core.next_ahead(&mut ahead, first(), buf)? else {
            return Ok(());
        };
        if sink.write_all(&buf.bytes()[..count as usize]).is_err() {
            return Err(Ending::Sink);
        }
    }
}
