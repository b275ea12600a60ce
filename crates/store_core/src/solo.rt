//! A core whose only caller is one actor.
ghost use Rattle.std.specs.Prelude.{◌≡◌, ℕ, get_or};
ghost use Rattle.store_core.specs.Core.{CoreStep};
ghost use Rattle.store_core.specs.State.{IsRunning};

use crate::laws::an_answer_fits_its_step;
use crate::state::HasState;
use actor_parts::{Actor, Answer, Answered, SegBuf, Step, StoreCalls};
use refusals::Refusal;
use std::marker::Model;

/// A core that runs, and the one actor whose steps it makes. Contracts see it as the core and the actor, and what was answered.
pub struct Solo<C: HasState> {
    core: C,
    actor: Actor,
    answered: Answered,
}

impl<C: HasState> Model for Solo<C> {
    ghost use Rattle.std.specs.Prelude.{ℕ};
    ghost use Rattle.store_core.specs.State.{IsRunning};
    ghost use Rattle.actor_parts.specs.declared.answered.Answered.{Answered};

    ghost Value = { (C × ℕ) × Answered };

    ghost view = { λ s. ((s.core, s.actor), s.answered) };

    ghost invariant = { λ s. IsRunning (C.state s.core) };
}

impl<C: HasState> Solo<C> {
    /// Nothing was answered yet.
    pub fn new(core: C, actor: Actor) -> Solo<C>
        requires running { IsRunning (C.state core) }
        ensures of { (result.0.0 ≡ core) × (result.0.1 ≡ actor) }
        ensures refused { (n : ℕ) → ⟦<Solo<C> as StoreCalls>⟧.refused result n ≡ 0 }
        ensures ended { ⟦<Solo<C> as StoreCalls>⟧.ended result ≡ 0 }
    {
        Solo {
            core,
            actor,
            answered: Answered::nothing(),
        }
    }

    /// The core alone, which runs.
    pub fn into_core(self) -> C
        ensures core { result ≡ self.0.0 }
        ensures running { IsRunning (C.state result) }
    {
        let Solo {
            core,
            actor: _actor,
            answered: _answered,
        } = self;
        core
    }
}

impl<C: HasState> StoreCalls for Solo<C> {
    ghost refused = { λ s n. get_or s.1.refused n 0 };

    ghost ended = { λ s. s.1.ended };

    ghost asks = { λ old step answer buf new. CoreStep (C.state old.0.0)
        (record { actor = old.0.1; step = step; answer = answer; buf = buf })
        (C.state new.0.0) × (new.0.1 ≡ old.0.1) };

    fn ask(&mut self, step: Step<'_>, buf: &mut SegBuf) -> Result<Answer, Refusal> {
        an_answer_fits_its_step::<C>();
        let answer = self.core.make_step(self.actor, step, buf);
        self.answered.count(&answer);
        answer
    }
}
