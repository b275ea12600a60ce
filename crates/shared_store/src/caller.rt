//! One of several callers of a store.
ghost use Rattle.std.specs.Prelude.{◌≡◌, ℕ, get_or};
ghost use Rattle.shared_store.specs.Calls.{Calls};
ghost use Rattle.shared_store.specs.Passes.{actor_of};

use crate::pass::Pass;
use crate::store::SharedStore;
use actor_parts::{Answer, Answered, SegBuf, Step, StoreCalls};
use refusals::Refusal;
use std::marker::Model;
use std::sync::Wait;
use store_core::{HasState, an_answer_fits_its_step};

/// A store that is shared, a pass of it, and the leave to wait. Contracts see it as the pass, and what was answered.
#[derive(Drop)]
pub struct Caller<'a, C: HasState, R: Wait> {
    store: &'a SharedStore<C>,
    pass: Pass<C>,
    rt: &'a R,
    answered: Answered,
}

impl<'a, C: HasState, R: Wait> Model for Caller<'a, C, R> {
    ghost use Rattle.std.specs.Prelude.{◌≡◌};
    ghost use Rattle.actor_parts.specs.declared.answered.Answered.{Answered};
    ghost use Rattle.shared_store.specs.Passes.{PassValue};

    ghost Value = { PassValue C × Answered };

    ghost view = { λ c. (c.pass, c.answered) };

    ghost invariant = { λ c. c.pass.store ≡ c.store.now };
}

impl<'a, C: HasState, R: Wait> Caller<'a, C, R> {
    /// Nothing was answered yet.
    pub fn new(store: &'a SharedStore<C>, pass: Pass<C>, rt: &'a R) -> Caller<'a, C, R>
        requires { pass.store ≡ store.now }
        ensures pass { result.0 ≡ pass }
        ensures refused { (n : ℕ) → ⟦<Caller<'a, C, R> as StoreCalls>⟧.refused result n ≡ 0 }
        ensures ended { ⟦<Caller<'a, C, R> as StoreCalls>⟧.ended result ≡ 0 }
    {
        Caller {
            store,
            pass,
            rt,
            answered: Answered::nothing(),
        }
    }

    /// Its pass.
    pub fn pass(&self) -> &Pass<C>
        ensures { result.now ≡ self.now.0 }
    {
        &self.pass
    }

    /// The pass alone.
    pub fn into_pass(self) -> Pass<C>
        ensures { result ≡ self.entry.0 }
    {
        let Caller {
            store: _store,
            pass,
            rt: _rt,
            answered: _answered,
        } = self;
        pass
    }
}

impl<C: HasState, R: Wait> StoreCalls for Caller<'_, C, R> {
    ghost refused = { λ c n. get_or c.1.refused n 0 };

    ghost ended = { λ c. c.1.ended };

    ghost asks = { λ old step answer buf new. Calls C.state
        (record { actor = actor_of old.0; step = step; answer = answer; buf = buf }) old.0 new.0 };

    fn ask(&mut self, step: Step<'_>, buf: &mut SegBuf) -> Result<Answer, Refusal> {
        an_answer_fits_its_step::<C>();
        let answer = self.store.call(self.rt, &mut self.pass, step, buf);
        self.answered.count(&answer);
        answer
    }
}
