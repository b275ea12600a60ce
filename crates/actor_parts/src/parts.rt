//! What all actors are at.
ghost use Rattle.std.specs.Prelude.{◌≡◌, ◌<◌, IfOk, length, replicate};
ghost use Rattle.actor_parts.specs.declared.actor.TheConstants.{ACTORS};
ghost use Rattle.actor_parts.specs.declared.part.Part.TheVariants.{Idle};
ghost use Rattle.actor_parts.specs.Parts.{part_of, with_part, PartsAreApart};

use crate::actor::{ACTORS, Actor};
use crate::part::Part;
use std::alloc::{AllocError, Global};
use std::marker::Model;

/// What each of the actors is at.
#[derive(Drop)]
pub struct Parts {
    parts: Vec<Part>,
}

impl Model for Parts {
    ghost use Rattle.std.specs.Prelude.{◌≡◌, List, length};
    ghost use Rattle.actor_parts.specs.declared.actor.TheConstants.{ACTORS};
    ghost use Rattle.actor_parts.specs.declared.part.Part.{Part};
    ghost use Rattle.std.specs.Coded.{coded_list};
    ghost use Rattle.actor_parts.specs.contracts.part.Part.{the_row};

    ghost Value = { List Part };

    ghost coded = { coded_list the_row.coded };

    ghost view = { λ p. p.parts.items };

    ghost invariant = { λ p. length p.parts.items ≡ ACTORS };
}

impl Parts {
    /// All of them idle. It fails for want of memory alone.
    pub fn new(alloc: Global) -> Result<Parts, AllocError>
        ensures { IfOk result (λ p. p ≡ replicate ACTORS Idle) }
    {
        Ok(Parts {
            parts: idle_parts(alloc)?,
        })
    }

    /// What an actor is at.
    pub fn part(&self, actor: Actor) -> &Part
        ensures part { result.now ≡ part_of self.now actor }
        ensures there { actor < length self.now }
    {
        &self.parts[actor.number() as usize]
    }

    /// Gives an actor another part. What it was at is let go.
    pub fn set(&mut self, actor: Actor, part: Part)
        ensures parts { self.new ≡ with_part self.old actor part }
        ensures there { actor < length self.old }
    {
        self.parts[actor.number() as usize] = part;
    }

    /// Takes an actor's part, which leaves it idle.
    pub fn take(&mut self, actor: Actor) -> Part
        ensures taken { result ≡ part_of self.old actor }
        ensures left { self.new ≡ with_part self.old actor Idle }
        ensures there { actor < length self.old }
    {
        std::mem::replace(&mut self.parts[actor.number() as usize], Part::Idle)
    }
}

fn idle_parts(alloc: Global) -> Result<Vec<Part>, AllocError>
    ensures { IfOk result (λ parts. parts.items ≡ replicate ACTORS Idle) }
{
    let mut parts = Vec::new(alloc);
    for _ in 0..ACTORS {
        parts.push(Part::Idle)?;
    }
    Ok(parts)
}

/// A law for proofs that stand on it: an actor is at what it was last given, and a part that is given to another doesn't
/// change that. The function does nothing.
pub fn parts_are_apart()
    ensures { PartsAreApart }
{}
