//! What one thread has of a store.
ghost use Rattle.std.specs.Prelude.{◌≡◌, length};
ghost use Rattle.shared_store.specs.Passes.{actor_of};

use crate::held::Held;
use actor_parts::Actor;
use refusals::PartKind;
use std::marker::Model;
use store_core::HasState;
use turn_lock::TurnPass;

/// What one thread has of a store that it shares: the actor as which it makes steps, and what it has seen of the history.
#[derive(Drop)]
pub struct Pass<C: HasState> {
    pub(crate) turn: TurnPass<Held<C>>,
    pub(crate) actor: Actor,
    /// How many commands that were acknowledged it has seen.
    pub(crate) lines: u64,
    /// How many numbers of actors it has: its own, and those of the passes that it took in.
    pub(crate) numbers: u64,
    /// What its actor was at after its last step.
    pub(crate) kind: PartKind,
    /// Its last step found the store stopped.
    pub(crate) stopped: bool,
}

impl<C: HasState> Model for Pass<C> {
    ghost use Rattle.std.specs.Prelude.{◌≡◌, length};
    ghost use Rattle.turn_lock.specs.Lock.{Rests, own_of};
    ghost use Rattle.shared_store.specs.Passes.{PassValue};

    ghost Value = { PassValue C };

    ghost view = { λ p. record {
      store = p.turn.table_id;
      view = p.turn.me.0;
      lines = p.lines;
      kind = p.kind;
      stopped = p.stopped;
    } };

    ghost invariant = { λ p. Rests p.turn × (own_of p.turn.me.0.numbers ≡ p.actor)
        × (p.numbers ≡ length p.turn.me.0.numbers) };
}

impl<C: HasState> Pass<C> {
    /// Its actor.
    pub fn actor(&self) -> Actor
        ensures { result ≡ actor_of self.now }
    {
        self.actor
    }
}
