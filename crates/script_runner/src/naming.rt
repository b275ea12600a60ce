//! Lines that delete a name, and that list the names.
ghost use Rattle.std.specs.Prelude.{◌≡◌, None, IfOk, OnOk, IfErr};
ghost use Rattle.actor_parts.specs.StepValue as asked;
ghost use Rattle.script_lines.specs.ReplyValue.{Deleted};
ghost use Rattle.store_core.specs.State.{IsRunning};
ghost use Rattle.script_runner.specs.Acts.{Deletes, DeletesName, IsText, Lists, RefusesDelete, RefusesStep};

use crate::taking::first;
use actor_parts::{Answer, SegBuf, Step};
use namespace::Listing;
use refusals::Refusal;
use script_lines::{Reply, print_reply};
use std::alloc::Global;
use store_core::HasState;

// Deletes a name.
fn delete_name<C: HasState>(core: &mut C, name: &[u8], buf: &mut SegBuf) -> Result<(), Refusal>
    requires running { IsRunning (C.state core.old) }
    ensures deletes { OnOk result (DeletesName name.now (C.state core.old) (C.state core.new)) }
    ensures refused { IfErr result (λ refusal. RefusesStep 0 (asked.Delete name.now) refusal (C.state core.old) (C.state core.new)) }
    ensures running { IsRunning (C.state core.new) }
{
    core.make_step(first(), Step::Delete { name }, buf)?;
    Ok(())
}

/// Deletes a name, and gives the reply. Its memory is taken before.
pub(crate) fn delete<C: HasState>(
    alloc: Global,
    core: &mut C,
    name: &[u8],
    buf: &mut SegBuf,
) -> Result<Vec<u8>, Refusal>
    requires running { IsRunning (C.state core.old) }
    ensures deletes { IfOk result (λ text. IsText Deleted
        (λ sequence. Deletes C C.state name.now sequence core.old core.new) text.items) }
    ensures refused { IfErr result (λ refusal. RefusesDelete C C.state name.now refusal core.old core.new) }
    ensures running { IsRunning (C.state core.new) }
{
    let sequence = core.last_sequence().saturating_add(1);
    let reply = print_reply(alloc, &Reply::Deleted { sequence })?;
    delete_name(core, name, buf)?;
    Ok(reply)
}

/// Lists the names.
pub(crate) fn list<C: HasState>(core: &mut C, buf: &mut SegBuf) -> Result<Listing, Refusal>
    requires running { IsRunning (C.state core.old) }
    requires runs { (C.state core.old).stop ≡ None }
    ensures lists { Lists C C.state result core.old core.new }
    ensures running { IsRunning (C.state core.new) }
{
    match core.make_step(first(), Step::List, buf)? {
        Answer::Listed { files } => Ok(files),
        _ => unreachable!(),
    }
}
