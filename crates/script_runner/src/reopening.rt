//! The line `reopen`.
ghost use Rattle.std.specs.Prelude.{◌≡◌, IfOk, IfErr, OnErr};
ghost use Rattle.store_core.specs.State.{IsRunning};
ghost use Rattle.script_runner.specs.Acts.{RefusesReopen, Reopens};

use crate::sessions::Sessions;
use crate::taking::count;
use actor_parts::SegBuf;
use refusals::Refusal;
use std::alloc::Global;
use store_core::HasState;

/// Opens the store again, and makes room where it has to: all actors end. It says how many names there are. Where it is
/// refused once containers may have been given back, the core is stopped.
pub(crate) fn reopen<C: HasState>(
    alloc: Global,
    core: &mut C,
    sessions: &mut Sessions,
    buf: &mut SegBuf,
) -> Result<u64, Refusal>
    requires { IsRunning (C.state core.old) }
    ensures opened { IfOk result (λ files. Reopens C C.state files sessions.new core.old core.new) }
    ensures refused { IfErr result (λ refusal. RefusesReopen C C.state refusal core.old core.new) }
    ensures sessions { OnErr result (sessions.new ≡ sessions.old) }
    ensures running { IsRunning (C.state core.new) }
{
    let none = Sessions::new(alloc)?;
    core.reopen()?;
    *sessions = none;
    let holdings = count(core, buf);
    Ok(holdings.files)
}
