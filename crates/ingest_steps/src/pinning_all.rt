//! What an actor keeps of containers that it seals together.
ghost use Rattle.std.specs.Prelude.{◌≡◌, ◌≤◌, length, take, vec_len, vec_capacity, ◌<◌, ◌++◌, ◌∷◌, [], OnOk, OnErr, IfOk, IfErr};
ghost use Rattle.actor_parts.specs.declared.part.Part.TheVariants.{Writing};
ghost use Rattle.actor_parts.specs.Offers.{AreStepContents};
ghost use Rattle.actor_parts.specs.PinMap.{PinMap};
ghost use Rattle.refusals.specs.declared.refusal.Refusal.TheVariants.{Memory};
ghost use Rattle.ingest_steps.specs.Offering.{IsUnkeptIn, MayKeepAll, WereHadIn, first_unpinned_in, with_pins_of};

use crate::pinning::{first_unpinned, pin_all, unpin};
use actor_parts::{Part, Pin, Pins};
use container_meta::{Key, OpenContainer};
use refusals::Refusal;
use std::alloc::Global;

// The first child, of the first container that has one, that isn't among the pins.
fn first_unpinned_of(pins: &Pins, filled: &[OpenContainer]) -> Option<Key>
    requires { AreStepContents filled.now }
    ensures { result ≡ first_unpinned_in filled.now pins.now }
{
    for i in 0..filled.len() {
        let found = first_unpinned(pins, &filled[i]);
        if found.is_some() {
            return found;
        }
    }
    None
}

/// Refuses containers by what the actor is at, and by the children of their segments, in this order.
pub fn may_keep_all(part: &Part, filled: &[OpenContainer]) -> Result<(), Refusal>
    requires { AreStepContents filled.now }
    ensures may { OnOk result (MayKeepAll part.now filled.now) }
    ensures refused { IfErr result (IsUnkeptIn part.now filled.now) }
{
    match part {
        Part::Writing(pins) => match first_unpinned_of(pins, filled) {
            None => Ok(()),
            Some(key) => Err(Refusal::Unpinned { key }),
        },
        _ => Err(Refusal::WrongPart { part: part.kind() }),
    }
}

// Notes what was said of the keys of a container, for which memory is there.
fn push_hads(hads: &mut Vec<Vec<Option<Pin>>>, had: Vec<Option<Pin>>)
    requires { vec_len hads.old < vec_capacity hads.old }
    ensures items { hads.new.items ≡ hads.old.items ++ had ∷ [] }
    ensures capacity { vec_capacity hads.old ≤ vec_capacity hads.new }
{
    hads.push(had).unwrap();
}

/// Takes back what was kept of the first containers, as many as `hads` tells of, the last of them first.
pub fn unpin_each(pins: &mut Pins, filled: &[OpenContainer], hads: &[Vec<Option<Pin>>])
    requires few { length hads.now ≤ length filled.now }
    requires kept { (before : _) × WereHadIn filled.now before hads.now
        × (pins.old ≡ with_pins_of (take (length hads.now) filled.now) before) }
    ensures { (before : PinMap) → WereHadIn filled.now before hads.now
        → pins.old ≡ with_pins_of (take (length hads.now) filled.now) before → pins.new ≡ before }
{
    for back in 0..hads.len() {
        let i = hads.len() - 1 - back;
        unpin(pins, &filled[i], &hads[i]);
    }
}

/// Keeps each segment of containers, one after the other, and tells what was said of each key before. It fails for want of memory
/// alone, and leaves the pins then as they were.
pub fn pin_each(
    alloc: Global,
    pins: &mut Pins,
    filled: &[OpenContainer],
) -> Result<Vec<Vec<Option<Pin>>>, Refusal>
    requires { AreStepContents filled.now }
    ensures ok { OnOk result (pins.new ≡ with_pins_of filled.now pins.old) }
    ensures had { IfOk result (λ hads. WereHadIn filled.now pins.old hads.items) }
    ensures many { IfOk result (λ hads. length hads.items ≡ length filled.now) }
    ensures err { OnErr result (pins.new ≡ pins.old) }
    ensures refused { IfErr result (λ refusal. refusal ≡ Memory) }
{
    let mut hads = Vec::with_capacity(alloc, filled.len())?;
    for i in 0..filled.len() {
        match pin_all(alloc, pins, &filled[i]) {
            Ok(had) => push_hads(&mut hads, had),
            Err(refusal) => {
                unpin_each(pins, filled, &hads);
                return Err(refusal);
            }
        }
    }
    Ok(hads)
}
