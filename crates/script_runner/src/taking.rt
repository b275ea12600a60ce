//! Lines by which an actor takes a file, and counts.
ghost use Rattle.std.specs.Prelude.{◌≡◌, None};
ghost use Rattle.script_lines.specs.Grammar as grammar;
ghost use Rattle.store_core.specs.State.{IsRunning};
ghost use Rattle.script_runner.specs.Acts.{Acts, Counts, Drops, GivesNext, Opens};
ghost use Rattle.script_runner.specs.Runner.{answer_of, runner_of};
ghost use Rattle.script_runner.specs.Sessions.{Sessions};

use actor_parts::{Actor, Answer, SegBuf, Step};
use refusals::Refusal;
use script_lines::{Holdings, Reply};
use store_core::HasState;

/// Begins to take the file of a name, and says how many bytes are to come.
pub(crate) fn open_read<C: HasState>(
    core: &mut C,
    actor: Actor,
    name: &[u8],
    buf: &mut SegBuf,
) -> Result<u64, Refusal>
    requires running { IsRunning (C.state core.old) }
    requires runs { (C.state core.old).stop ≡ None }
    ensures opens { Opens C C.state actor name.now result core.old core.new }
    ensures running { IsRunning (C.state core.new) }
{
    match core.make_step(actor, Step::OpenRead { name }, buf)? {
        Answer::Opened { length } => Ok(length),
        _ => unreachable!(),
    }
}

/// Gives the next bytes, and says how many of the buffer they are; none where the file has ended.
pub(crate) fn read_next<C: HasState>(
    core: &mut C,
    actor: Actor,
    buf: &mut SegBuf,
) -> Result<Option<u32>, Refusal>
    requires running { IsRunning (C.state core.old) }
    requires runs { (C.state core.old).stop ≡ None }
    ensures gives { GivesNext C C.state actor result buf.new core.old core.new }
    ensures running { IsRunning (C.state core.new) }
{
    match core.make_step(actor, Step::ReadNext, buf)? {
        Answer::Bytes { count } => Ok(Some(count)),
        Answer::End => Ok(None),
        _ => unreachable!(),
    }
}

/// Takes no more.
pub(crate) fn end_read<C: HasState>(
    core: &mut C,
    actor: Actor,
    buf: &mut SegBuf,
) -> Result<(), Refusal>
    requires { IsRunning (C.state core.old) }
    ensures drops { Drops C C.state actor result core.old core.new }
    ensures running { IsRunning (C.state core.new) }
{
    core.make_step(actor, Step::EndRead, buf)?;
    Ok(())
}

/// The actor of lines that have none: any would do.
pub(crate) fn first() -> Actor
    ensures { result ≡ 0 }
{
    match Actor::new(0) {
        Some(actor) => actor,
        None => unreachable!(),
    }
}

/// Counts what the store has.
pub(crate) fn count<C: HasState>(core: &mut C, buf: &mut SegBuf) -> Holdings
    requires running { IsRunning (C.state core.old) }
    requires runs { (C.state core.old).stop ≡ None }
    ensures counts { Counts C C.state result core.old core.new }
    ensures running { IsRunning (C.state core.new) }
{
    match core.make_step(first(), Step::Stat, buf) {
        Ok(
            Answer::Stat {
                files,
                segments,
                bytes,
                used,
                free,
            },
        ) => Holdings {
            files,
            segments,
            bytes,
            used,
            free,
        },
        _ => unreachable!(),
    }
}

/// Counts the keys of the trees of all names, each once, and gives the reply.
pub(crate) fn count_keys<C: HasState>(
    core: &mut C,
    buf: &mut SegBuf,
) -> Result<Reply<'static>, Refusal>
    requires running { IsRunning (C.state core.old) }
    requires runs { (C.state core.old).stop ≡ None }
    ensures counts { (sessions : Sessions) → Acts C C.state grammar.Unique (answer_of result)
        (runner_of core.old sessions) (runner_of core.new sessions) }
    ensures running { IsRunning (C.state core.new) }
{
    match core.make_step(first(), Step::Unique, buf)? {
        Answer::Unique { segments, bytes } => Ok(Reply::Unique { segments, bytes }),
        _ => unreachable!(),
    }
}
