//! Lines of a collection.
ghost use Rattle.std.specs.Prelude.{◌≡◌, ℕ, List, None, IfOk};
ghost use Rattle.script_lines.specs.Grammar as grammar;
ghost use Rattle.script_lines.specs.ReplyValue.{reply_value};
ghost use Rattle.store_core.specs.State.{IsRunning};
ghost use Rattle.script_runner.specs.Acts.{Acts, Starts};
ghost use Rattle.script_runner.specs.Runner.{TellsCollected, answer_of, runner_of};
ghost use Rattle.script_runner.specs.Sessions.{Sessions};

use crate::taking::first;
use actor_parts::{Answer, Percent, SegBuf, Step};
use refusals::Refusal;
use script_lines::Reply;
use store_core::HasState;

/// Begins a collection, and says from which id on it takes no container.
pub fn begin_collection<C: HasState>(
    core: &mut C,
    percent: Percent,
    buf: &mut SegBuf,
) -> Result<u64, Refusal>
    requires running { IsRunning (C.state core.old) }
    requires runs { (C.state core.old).stop ≡ None }
    ensures starts { Starts C C.state percent result core.old core.new }
    ensures running { IsRunning (C.state core.new) }
{
    match core.make_step(first(), Step::GcStart { percent: &percent }, buf)? {
        Answer::Started { snapshot } => Ok(snapshot),
        _ => unreachable!(),
    }
}

/// Makes the next step of the collection that runs, and gives the reply.
pub(crate) fn step_collection<C: HasState>(
    core: &mut C,
    buf: &mut SegBuf,
) -> Result<Reply<'static>, Refusal>
    requires running { IsRunning (C.state core.old) }
    requires runs { (C.state core.old).stop ≡ None }
    ensures steps { (sessions : Sessions) → Acts C C.state grammar.GcStep (answer_of result)
        (runner_of core.old sessions) (runner_of core.new sessions) }
    ensures running { IsRunning (C.state core.new) }
{
    match core.make_step(first(), Step::GcStep, buf)? {
        Answer::Did { phase } => Ok(Reply::Step { phase }),
        Answer::Done { freed, copied } => Ok(Reply::Collected { freed, copied }),
        _ => unreachable!(),
    }
}

/// Makes all steps of it that are left, and gives the reply. A step that is refused is the last.
pub fn sweep<C: HasState>(core: &mut C, buf: &mut SegBuf) -> Result<Reply<'static>, Refusal>
    requires running { IsRunning (C.state core.old) }
    requires runs { (C.state core.old).stop ≡ None }
    ensures sweeps { (sessions : Sessions) → Acts C C.state grammar.Sweep (answer_of result)
        (runner_of core.old sessions) (runner_of core.new sessions) }
    ensures tells { IfOk result (λ reply. TellsCollected (reply_value reply)) }
    ensures running { IsRunning (C.state core.new) }
{
    'steps: loop {
        match core.make_step(first(), Step::GcStep, buf)? {
            Answer::Did { .. } => {}
            Answer::Done { freed, copied } => return Ok(Reply::Collected { freed, copied }),
            _ => unreachable!(),
        }
    }
}
