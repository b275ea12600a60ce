//! Numbers within a limit.
ghost use Rattle.std.specs.Prelude.{◌≡◌, ◌<◌, ◌≤◌, nat_lt, nat_le, if◌then◌else◌, Some, None};

use std::marker::Model;

/// How many actors there are.
pub const ACTORS: u64 = 64;

/// Who asks for a step: a number below `ACTORS`.
#[derive(Clone, Copy)]
pub struct Actor {
    number: u64,
}

impl Model for Actor {
    ghost use Rattle.std.specs.Prelude.{ℕ, ◌<◌};
    ghost use Rattle.actor_parts.specs.declared.actor.TheConstants.{ACTORS};

    ghost Value = { ℕ };

    ghost view = { λ a. a.number };

    ghost inverse = { λ n. record { number = n } };

    ghost invariant = { λ a. a.number < ACTORS };
}

impl Actor {
    /// The actor of a number, where it is below `ACTORS`.
    pub fn new(number: u64) -> Option<Actor>
        ensures { result ≡ (if nat_lt number ACTORS then Some number else None) }
    {
        if number < ACTORS {
            Some(Actor { number })
        } else {
            None
        }
    }

    /// Its number.
    pub fn number(&self) -> u64
        ensures value { result ≡ self.now }
        ensures limit { result < ACTORS }
    {
        self.number
    }
}

/// A number from 0 to 100.
#[derive(Clone, Copy)]
pub struct Percent {
    number: u64,
}

impl Model for Percent {
    ghost use Rattle.std.specs.Prelude.{ℕ, ◌≤◌};

    ghost Value = { ℕ };

    ghost view = { λ p. p.number };

    ghost inverse = { λ n. record { number = n } };

    ghost invariant = { λ p. p.number ≤ 100 };
}

impl Percent {
    /// So many percent, where they are at most 100.
    pub fn new(number: u64) -> Option<Percent>
        ensures { result ≡ (if nat_le number 100 then Some number else None) }
    {
        if number <= 100 {
            Some(Percent { number })
        } else {
            None
        }
    }

    /// How many percent.
    pub fn number(&self) -> u64
        ensures value { result ≡ self.now }
        ensures limit { result ≤ 100 }
    {
        self.number
    }
}
