//! What lies under the lock: a core that runs.
ghost use Rattle.std.specs.Prelude.{◌≡◌, ℕ};
ghost use Rattle.actor_parts.specs.Kinds.{kind_of};
ghost use Rattle.actor_parts.specs.Parts.{part_of};
ghost use Rattle.actor_parts.specs.StepValue.{IsStep, step_value};
ghost use Rattle.store_core.specs.Core.{CoreStep};
ghost use Rattle.store_core.specs.State.{IsRunning};
ghost use Rattle.shared_store.specs.Made.{MadeBy};

use actor_parts::{Actor, Answer, SegBuf, Step};
use refusals::{PartKind, Refusal};
use std::marker::Model;
use store_core::HasState;
use turn_lock::Booked;

/// A core that runs. Contracts see it as the core.
#[derive(Drop)]
pub struct Held<C: HasState> {
    core: C,
}

impl<C: HasState> Model for Held<C> {
    ghost use Rattle.store_core.specs.State.{IsRunning};

    ghost Value = { C };

    ghost view = { λ h. h.core };

    ghost invariant = { λ h. IsRunning (C.state h.core) };
}

/// What a step of a turn tells of the core that it leaves.
pub(crate) struct Stepped {
    pub(crate) answer: Result<Answer, Refusal>,
    pub(crate) lines: u64,
    pub(crate) kind: PartKind,
}

impl<C: HasState> Held<C> {
    pub(crate) fn new(core: C) -> Held<C>
        requires { IsRunning (C.state core) }
        ensures { result ≡ core }
    {
        Held { core }
    }

    pub(crate) fn step(&mut self, actor: Actor, step: Step<'_>, buf: &mut SegBuf) -> Stepped
        requires { IsStep (step_value step) }
        ensures step { CoreStep (C.state self.old)
            (record { actor = actor; step = step_value step.entry; answer = result.answer; buf = buf.new }) (C.state self.new) }
        ensures lines { result.lines ≡ (C.state self.new).acknowledged }
        ensures kind { result.kind ≡ kind_of (part_of (C.state self.new).parts actor) }
    {
        let answer = self.core.make_step(actor, step, buf);
        Stepped {
            answer,
            lines: self.core.acknowledged(),
            kind: self.core.part_kind(actor),
        }
    }

    pub(crate) fn into_core(self) -> C
        ensures core { result ≡ self }
        ensures running { IsRunning (C.state result) }
    {
        self.core
    }
}

impl<C: HasState> Booked for Held<C> {
    ghost makes = { λ by old new. MadeBy C.state by old new };

    ghost lines = { λ c. (C.state c).acknowledged };

    fn lines(&self) -> u64 {
        self.core.acknowledged()
    }
}
