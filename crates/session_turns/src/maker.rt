//! What makes the steps that sessions ask for.
ghost use Rattle.std.specs.Prelude.{◌≡◌, ℕ, List, Result, IfOk};
ghost use Rattle.refusals.specs.declared.refusal.Refusal.{Refusal};
ghost use Rattle.actor_parts.specs.declared.step.Answer.{Answer};
ghost use Rattle.actor_parts.specs.Asking.{IsAnswerTo};
ghost use Rattle.actor_parts.specs.StepValue.{IsStep, StepValue, step_value};
ghost use Rattle.store_core.specs.Core.{CoreStep};
ghost use Rattle.store_core.specs.State.{IsRunning};

use actor_parts::{Actor, Answer, SegBuf, Step, StoreCalls};
use refusals::Refusal;
use std::marker::Model;
use store_core::{HasState, an_answer_fits_its_step};

/// What makes steps of actors, as a core does, or a caller of a store.
pub trait MakesSteps {
    /// It can make a step.
    ghost runs: { Self → Type 0 };

    /// What a step does: the maker before, the actor, what was asked, the answer, what the buffer then holds, the maker after.
    ghost makes: { Self → ℕ → StepValue → Result Answer Refusal → List ℕ → Self → Type 0 };

    /// Makes a step of an actor. A segment of a tree in it is a node of its level, and a container holds a segment at least. What is
    /// answered is of the step.
    fn make(&mut self, actor: Actor, step: Step<'_>, buf: &mut SegBuf) -> Result<Answer, Refusal>
        requires asked { IsStep (step_value step) }
        requires running { runs self.old }
        ensures made { makes self.old actor (step_value step.entry) result buf.new self.new }
        ensures running { runs self.new }
        ensures fits { IfOk result (λ answer. IsAnswerTo (step_value step.entry) answer) };
}

impl<C: HasState> MakesSteps for C {
    ghost runs = { λ core. IsRunning (C.state core) };

    ghost makes = { λ old actor step answer buf new. CoreStep (C.state old)
        (record { actor = actor; step = step; answer = answer; buf = buf }) (C.state new) };

    fn make(&mut self, actor: Actor, step: Step<'_>, buf: &mut SegBuf) -> Result<Answer, Refusal> {
        an_answer_fits_its_step::<C>();
        self.make_step(actor, step, buf)
    }
}

/// A caller of a store, as what makes steps: it makes them as its own actor, whichever is named.
#[derive(Drop)]
pub struct ByCaller<S: StoreCalls> {
    caller: S,
}

impl<S: StoreCalls> Model for ByCaller<S> {
    ghost Value = { S };

    ghost view = { λ b. b.caller };
}

impl<S: StoreCalls> ByCaller<S> {
    /// A caller, as what makes steps.
    pub fn new(caller: S) -> ByCaller<S>
        ensures { result ≡ caller }
    {
        ByCaller { caller }
    }

    /// The caller alone.
    pub fn into_caller(self) -> S
        ensures { result ≡ self }
    {
        let ByCaller { caller } = self;
        caller
    }
}

impl<S: StoreCalls> MakesSteps for ByCaller<S> {
    ghost runs = { λ caller. Unit {0} };

    ghost makes = { λ old actor step answer buf new. S.asks old step answer buf new };

    fn make(&mut self, _actor: Actor, step: Step<'_>, buf: &mut SegBuf) -> Result<Answer, Refusal> {
        self.caller.ask(step, buf)
    }
}
