//! What an actor keeps of a container that it seals.
ghost use Rattle.std.specs.Prelude.{◌≡◌, ◌<◌, ◌≤◌, ◌++◌, ◌∷◌, [], true, length, take, vec_len, vec_capacity, IsSome, IfSome, OnOk, OnErr, IfOk, IfErr};
ghost use Rattle.std.specs.FinMap as finite;
ghost use Rattle.std.specs.List.{AllByRecursion};
ghost use Rattle.sha2.specs.Sha256.{sha256};
ghost use Rattle.container_meta.specs.Segments.{segment_at, segment_key};
ghost use Rattle.container_meta.specs.Format.{is_length};
ghost use Rattle.actor_parts.specs.PinMap.{PinMap, IsPin};
ghost use Rattle.actor_parts.specs.Segments.{AreStepSegments, children_by, first_not_in, pin_by};
ghost use Rattle.refusals.specs.declared.refusal.Refusal.TheVariants.{Memory};
ghost use Rattle.ingest_steps.specs.Pinning.{WereHad, first_unpinned_of, had_again, with_pins};

use actor_parts::{Pin, Pins, first_unpinned_in, pin_in};
use container_meta::{Entry, Key, OpenContainer, key_of};
use refusals::Refusal;
use std::alloc::{AllocError, Global};

// The entry of a segment of a container.
fn entry_at(filled: &OpenContainer, i: usize) -> Entry
    requires { i < length filled.now.segments }
    ensures digest { result.digest ≡ sha256 (segment_at filled.now.segments i).bytes }
    ensures level { result.level ≡ (segment_at filled.now.segments i).level }
    ensures length { is_length filled.now.kind (length (segment_at filled.now.segments i).bytes) ≡ true }
{
    let entries = filled.entries();
    entries[i]
}

// The first child of a segment that isn't among the pins.
fn unpinned_at(pins: &Pins, filled: &OpenContainer, i: usize) -> Option<Key>
    requires there { i < length filled.now.segments }
    requires right { AreStepSegments filled.now.kind filled.now.segments }
    ensures { result ≡ first_not_in pins.now (children_by filled.now.kind (segment_at filled.now.segments i)) }
{
    first_unpinned_in(
        filled.kind(),
        entry_at(filled, i).level,
        filled.bytes_of(i),
        pins,
    )
}

// The first child, of the first segment that has one, that isn't among the pins.
pub(crate) fn first_unpinned(pins: &Pins, filled: &OpenContainer) -> Option<Key>
    requires { AreStepSegments filled.now.kind filled.now.segments }
    ensures { result ≡ first_unpinned_of filled.now.kind filled.now.segments pins.now }
{
    for i in 0..filled.len() {
        let found = unpinned_at(pins, filled, i);
        if found.is_some() {
            return found;
        }
    }
    None
}

// The key of a segment of a container.
fn key_at(filled: &OpenContainer, i: usize) -> Key
    requires { i < length filled.now.segments }
    ensures { result ≡ segment_key filled.now.kind (segment_at filled.now.segments i) }
{
    key_of(filled.kind(), &entry_at(filled, i).digest)
}

// What is said of it.
fn pin_at(filled: &OpenContainer, i: usize) -> Pin
    requires there { i < length filled.now.segments }
    requires right { AreStepSegments filled.now.kind filled.now.segments }
    ensures pin { result ≡ pin_by filled.now.kind (segment_at filled.now.segments i) }
    ensures right { IsPin result }
{
    pin_in(filled.kind(), entry_at(filled, i).level, filled.bytes_of(i))
}

// Keeps a segment of a container, and tells what was said of its key before.
fn pin_next(pins: &mut Pins, filled: &OpenContainer, i: usize) -> Result<Option<Pin>, AllocError>
    requires there { i < length filled.now.segments }
    requires right { AreStepSegments filled.now.kind filled.now.segments }
    ensures ok { OnOk result (pins.new ≡ finite.insert pins.old (segment_key filled.now.kind (segment_at filled.now.segments i))
        (pin_by filled.now.kind (segment_at filled.now.segments i))) }
    ensures had { IfOk result (λ had. had ≡ finite.get pins.old (segment_key filled.now.kind (segment_at filled.now.segments i))) }
    ensures right { IfOk result (λ had. IfSome had IsPin) }
    ensures err { OnErr result (pins.new ≡ pins.old) }
{
    let key = key_at(filled, i);
    let had = pins.get(&key);
    pins.add(&key, pin_at(filled, i))?;
    Ok(had)
}

// Notes what was said, for which memory is there.
fn push_had(hads: &mut Vec<Option<Pin>>, had: Option<Pin>)
    requires { vec_len hads.old < vec_capacity hads.old }
    ensures items { hads.new.items ≡ hads.old.items ++ had ∷ [] }
    ensures capacity { vec_capacity hads.old ≤ vec_capacity hads.new }
{
    hads.push(had).unwrap();
}

// Says of a key, of which something is said, what was said before.
fn give_back(pins: &mut Pins, key: &Key, had: &Option<Pin>)
    requires pin { IfSome had.now IsPin }
    requires there { IsSome (finite.get pins.old key.now) }
    ensures { pins.new ≡ had_again had.now key.now pins.old }
{
    match had {
        // It is there, so no memory is wanted.
        Some(pin) => match pins.add(key, *pin) {
            Ok(()) => {}
            Err(_) => unreachable!(),
        },
        None => pins.remove(key),
    }
}

/// Takes back what was kept of the first segments of a container, as many as `hads` tells of, the last of them first.
pub fn unpin(pins: &mut Pins, filled: &OpenContainer, hads: &[Option<Pin>])
    requires few { length hads.now ≤ length filled.now.segments }
    requires right { AllByRecursion (λ had. IfSome had IsPin) hads.now }
    requires kept { (before : _) × WereHad filled.now.kind filled.now.segments before hads.now
        × (pins.old ≡ with_pins filled.now.kind (take (length hads.now) filled.now.segments) before) }
    ensures { (before : PinMap) → WereHad filled.now.kind filled.now.segments before hads.now
        → pins.old ≡ with_pins filled.now.kind (take (length hads.now) filled.now.segments) before → pins.new ≡ before }
{
    for back in 0..hads.len() {
        let i = hads.len() - 1 - back;
        give_back(pins, &key_at(filled, i), &hads[i]);
    }
}

/// Keeps each segment of a container, and tells what was said of each key before. It fails for want of memory alone, and
/// leaves the pins then as they were.
pub fn pin_all(
    alloc: Global,
    pins: &mut Pins,
    filled: &OpenContainer,
) -> Result<Vec<Option<Pin>>, Refusal>
    requires { AreStepSegments filled.now.kind filled.now.segments }
    ensures ok { OnOk result (pins.new ≡ with_pins filled.now.kind filled.now.segments pins.old) }
    ensures had { IfOk result (λ hads. WereHad filled.now.kind filled.now.segments pins.old hads.items) }
    ensures many { IfOk result (λ hads. length hads.items ≡ length filled.now.segments) }
    ensures right { IfOk result (λ hads. AllByRecursion (λ had. IfSome had IsPin) hads.items) }
    ensures err { OnErr result (pins.new ≡ pins.old) }
    ensures refused { IfErr result (λ refusal. refusal ≡ Memory) }
{
    let mut hads = Vec::with_capacity(alloc, filled.len())?;
    for i in 0..filled.len() {
        match pin_next(pins, filled, i) {
            Ok(had) => push_had(&mut hads, had),
            Err(_) => {
                unpin(pins, filled, &hads);
                return Err(Refusal::Memory);
            }
        }
    }
    Ok(hads)
}
