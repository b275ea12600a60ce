//! The step that seals containers that are offered together, for an actor.
ghost use Rattle.std.specs.Prelude.{◌≡◌, length, None, OnOk, OnErr, IfOk, IfErr};
ghost use Rattle.dd_disk.specs.Ending.{ending};
ghost use Rattle.dd_disk.specs.Shows.{Shows};
ghost use Rattle.actor_parts.specs.declared.part.Part.TheVariants.{Writing};
ghost use Rattle.actor_parts.specs.Kinds.{kind_of};
ghost use Rattle.actor_parts.specs.Offers.{AreStepContents, IsOffer};
ghost use Rattle.actor_parts.specs.Parts.{part_of, with_part};
ghost use Rattle.actor_parts.specs.PinMap.{PinMap};
ghost use Rattle.refusals.specs.declared.refusal.PartKind.TheVariants as kinds;
ghost use Rattle.refusals.specs.declared.refusal.Refusal.TheVariants.{Memory};
ghost use Rattle.store_state.specs.Refused.{blames};
ghost use Rattle.store_state.specs.Settled.{Steps};
ghost use Rattle.store_state.specs.Tables.{Runs};
ghost use Rattle.ingest_steps.specs.Offering.{AreCompared, IsOfferRefusal, WereHadIn, with_pins_of};
ghost use Rattle.ingest_steps.specs.OfferStep.{AreSealedFor, KeepsOffered};
ghost use Rattle.ingest_steps.specs.Sealing.{KeepsMap};
ghost use Rattle.ingest_steps.specs.SealingAll.{SealsOffer};
ghost use Rattle.ingest_steps.specs.SealStep.{store_moment};

use crate::comparing_all::seal_some;
use crate::offering::{SealedTogether, slots_for};
use crate::pinning_all::{may_keep_all, pin_each, unpin_each};
use actor_parts::{Actor, Part, Parts, Pin, SegBuf};
use container_meta::OpenContainer;
use dd_disk::Disk;
use refusals::Refusal;
use segment_index::Index;
use std::alloc::Global;
use store_state::Tables;

// Has an actor that stores a file keep each segment of containers, and tells what was said of each key before.
fn pin_for(
    alloc: Global,
    parts: &mut Parts,
    actor: Actor,
    filled: &[OpenContainer],
) -> Result<Vec<Vec<Option<Pin>>>, Refusal>
    requires writing { kind_of (part_of parts.old actor) ≡ kinds.Writing }
    requires step { AreStepContents filled.now }
    ensures ok { OnOk result ((pins : PinMap) → part_of parts.old actor ≡ Writing pins
        → parts.new ≡ with_part parts.old actor (Writing (with_pins_of filled.now pins))) }
    ensures had { IfOk result (λ hads. (pins : PinMap) → part_of parts.old actor ≡ Writing pins
        → WereHadIn filled.now pins hads.items) }
    ensures many { IfOk result (λ hads. length hads.items ≡ length filled.now) }
    ensures unchanged { OnErr result (parts.new ≡ parts.old) }
    ensures refused { IfErr result (λ refusal. refusal ≡ Memory) }
{
    match parts.take(actor) {
        Part::Writing(mut pins) => {
            let hads = pin_each(alloc, &mut pins, filled);
            parts.set(actor, Part::Writing(pins));
            hads
        }
        // The actor stores a file.
        _ => unreachable!(),
    }
}

// Takes that back.
fn unpin_for(parts: &mut Parts, actor: Actor, filled: &[OpenContainer], hads: &[Vec<Option<Pin>>])
    requires many { length hads.now ≡ length filled.now }
    requires kept { (before : _) × WereHadIn filled.now before hads.now
        × (part_of parts.old actor ≡ Writing (with_pins_of filled.now before)) }
    ensures { (before : PinMap) → WereHadIn filled.now before hads.now
        → part_of parts.old actor ≡ Writing (with_pins_of filled.now before) → parts.new ≡ with_part parts.old actor (Writing before) }
{
    match parts.take(actor) {
        Part::Writing(mut pins) => {
            unpin_each(&mut pins, filled, hads);
            parts.set(actor, Part::Writing(pins));
        }
        // The actor stores a file.
        _ => unreachable!(),
    }
}

/// Seals containers for an actor, the first of those that are offered, as many as there is room for: it keeps each of their
/// segments from now on. Puts their places into the index, and writes them to the free slots of least number, under the next
/// ids. Answered are the greatest of these and how many they are.
///
/// Refusals, in this order: `WrongPart`, where the actor stores no file; `Unpinned`, for the first child, of the first segment
/// of the first container offered that has one, that the actor doesn't keep; `Full` and `Numbers`, where there is room for
/// none; container by container and entry by entry `DiskRead`, `Corrupt` and `Clash` against a copy that is held, before any
/// place is put, and `Damaged` for the index's own bytes; `DiskWrite`. Each leaves the tables and the parts as they were.
pub fn seal_together<D: Disk, X: Index>(
    alloc: Global,
    disk: &mut D,
    tables: &mut Tables,
    index: &mut X,
    parts: &mut Parts,
    actor: Actor,
    filled: &[OpenContainer],
    buf: &mut SegBuf,
) -> Result<SealedTogether, Refusal>
    requires serves { X.serves index.old (D.view disk.old).size }
    requires state { Runs (D.view disk.old).size None tables.old }
    requires offer { IsOffer filled.now }
    requires step { AreStepContents filled.now }
    ensures ok { IfOk result (AreSealedFor
        (store_moment (D.view disk.old) (X.places index.old (D.view disk.old).content) tables.old parts.old)
        (store_moment (D.view disk.new) (X.places index.new (D.view disk.new).content) tables.new parts.new)
        actor filled.now (X.places index.old) (X.places index.new)) }
    ensures refused { IfErr result (IsOfferRefusal (part_of parts.old actor) tables.old (D.view disk.old).size
        (X.places index.old (D.view disk.old).content) filled.now
        (AreCompared (D.view disk.old).size (X.places index.old (D.view disk.old).content)
        (Shows (D.view disk.old) (D.view disk.new)))) }
    ensures unchanged { OnErr result ((tables.new ≡ tables.old) × (parts.new ≡ parts.old)) }
    ensures map { IfErr result (KeepsMap (X.places index.old (D.view disk.old).content) (X.places index.new (D.view disk.new).content)) }
    ensures disk { Steps tables.old.slots (ending blames result) (D.view disk.old) (D.view disk.new) }
    ensures moves { SealsOffer tables.old (X.places index.old (D.view disk.old).content) filled.now
        (ending blames result) (D.view disk.old) (D.view disk.new) }
    ensures kept { OnOk result (KeepsOffered
        (store_moment (D.view disk.old) (X.places index.old (D.view disk.old).content) tables.old parts.old)
        (store_moment (D.view disk.new) (X.places index.new (D.view disk.new).content) tables.new parts.new) actor filled.now) }
    ensures served { X.serves index.new (D.view disk.new).size }
{
    may_keep_all(parts.part(actor), filled)?;
    let slots = slots_for(alloc, tables, filled.len())?;
    let first = &filled[..slots.len()];
    let hads = pin_for(alloc, parts, actor, first)?;
    match seal_some(alloc, disk, tables, index, &slots, first, buf) {
        Ok(id) => Ok(SealedTogether {
            id,
            count: first.len(),
        }),
        Err(refusal) => {
            unpin_for(parts, actor, first, &hads);
            Err(refusal)
        }
    }
}
