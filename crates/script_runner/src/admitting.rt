//! Which lines are taken.
ghost use Rattle.std.specs.Prelude.{◌≡◌, ◌↔◌, IsTrue, IfErr, OnOk, option_map};
ghost use Rattle.store_machine.specs.Lines.{actor_of, takes};
ghost use Rattle.script_lines.specs.LineValue.{line_value};
ghost use Rattle.script_runner.specs.Acts.{Admits, Bars};
ghost use Rattle.script_runner.specs.Sessions.{kind_in};

use crate::sessions::Sessions;
use actor_parts::Actor;
use refusals::{PartKind, Refusal};
use script_lines::Line;
use store_core::HasState;

// The actor of a line.
fn actor_of(line: &Line<'_>) -> Option<Actor>
    ensures { result ≡ actor_of (line_value line.now) }
{
    match line {
        Line::Begin(actor) => Some(*actor),
        Line::Push(actor, _) => Some(*actor),
        Line::Finish(actor) => Some(*actor),
        Line::Turn(actor) => Some(*actor),
        Line::Commit(actor, _) => Some(*actor),
        Line::Abort(actor) => Some(*actor),
        Line::Read(actor, _) => Some(*actor),
        Line::Next(actor) => Some(*actor),
        Line::Drop(actor) => Some(*actor),
        Line::Delete(_)
        | Line::List
        | Line::Gc(_)
        | Line::Step
        | Line::Sweep
        | Line::Stat
        | Line::Unique
        | Line::Reopen => None,
    }
}

// Whether a line takes an actor that is at this.
fn takes(line: &Line<'_>, kind: &PartKind) -> bool
    ensures { result ≡ takes (line_value line.now) kind.now }
{
    match (line, kind) {
        (Line::Begin(_) | Line::Read(_, _), PartKind::Idle) => true,
        (Line::Push(_, _) | Line::Finish(_), PartKind::Writing) => true,
        (Line::Turn(_) | Line::Abort(_), PartKind::Writing | PartKind::Finished) => true,
        (Line::Commit(_, _), PartKind::Finished) => true,
        (Line::Next(_) | Line::Drop(_), PartKind::Reading) => true,
        _ => false,
    }
}

// What an actor is at.
fn kind_of<C: HasState>(core: &C, sessions: &Sessions, actor: Actor) -> PartKind
    ensures { result ≡ kind_in sessions.now (C.state core.now).parts actor }
{
    match sessions.has_ended(actor) {
        Some(false) => PartKind::Writing,
        Some(true) => PartKind::Finished,
        None => match core.part_kind(actor) {
            PartKind::Reading => PartKind::Reading,
            _ => PartKind::Idle,
        },
    }
}

/// Whether a line is taken: the store runs, and the actor of the line is at what it takes.
pub(crate) fn admit<C: HasState>(
    core: &C,
    sessions: &Sessions,
    line: &Line<'_>,
) -> Result<(), Refusal>
    ensures ok { OnOk result (Admits (line_value line.now) sessions.now (C.state core.now)) }
    ensures err { IfErr result (Bars (line_value line.now) sessions.now (C.state core.now)) }
{
    core.running()?;
    let Some(actor) = actor_of(line) else {
        return Ok(());
    };
    let kind = kind_of(core, sessions, actor);
    if takes(line, &kind) {
        Ok(())
    } else {
        Err(Refusal::WrongPart { part: kind })
    }
}
