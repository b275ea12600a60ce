//! The actor of the single commands, and the name that it gives a file.
ghost use Rattle.std.specs.Prelude.{◌≡◌};
ghost use Rattle.store_core.specs.State.{IsRunning};
ghost use Rattle.backup_engine.specs.Feeding.{Commits};
ghost use Rattle.backup_engine.specs.Saying.{AsksPut};

use actor_parts::{Actor, SegBuf, Step};
use ingest_session::{all_is_kept, bytes_are_counted};
use namespace::Root;
use refusals::Refusal;
use store_core::HasState;

/// The actor that the single commands are.
pub(crate) fn first() -> Actor
    ensures { result ≡ 0 }
{
    match Actor::new(0) {
        Some(actor) => actor,
        None => unreachable!(),
    }
}

/// Gives the name the root of the file, each piece of which is kept.
pub(crate) fn commit<C: HasState>(
    core: &mut C,
    name: &str,
    root: &Root,
    buf: &mut SegBuf,
) -> Result<(), Refusal>
    requires running { IsRunning (C.state core.old) }
    ensures asks { AsksPut C C.state name.now root.now result core.old core.new }
    ensures commits { Commits C C.state name.now root.now result core.old core.new }
    ensures running { IsRunning (C.state core.new) }
{
    all_is_kept();
    bytes_are_counted();
    let step = Step::Commit {
        name: name.as_bytes(),
        root,
    };
    core.make_step(first(), step, buf)?;
    Ok(())
}
