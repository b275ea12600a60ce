//! The places of several containers, put into the index together.
ghost use Rattle.std.specs.Prelude.{◌≡◌, ◌+◌, ◌<◌, ◌≤◌, ℕ, None, Some, Err, length, slice_get};
ghost use Rattle.std.specs.Prelude.{OnOk, IfErr, IfSome};
ghost use Rattle.std.specs.List.{AllByRecursion};
ghost use Rattle.dd_disk.specs.Ending.{ending};
ghost use Rattle.disk_format.specs.Layout.{size_of, slot_at};
ghost use Rattle.container_log.specs.Many.{HaveSegments};
ghost use Rattle.container_meta.specs.Segments.{Contents, entries_from};
ghost use Rattle.refusals.specs.declared.refusal.Refusal.TheVariants.{Memory};
ghost use Rattle.segment_index.specs.Places.{KnownMap, IsPlace};
ghost use Rattle.segment_index.specs.Changes.{Changes};
ghost use Rattle.store_model.specs.Indexing.{with_entries};
ghost use Rattle.store_model.specs.Slots.{place_of};
ghost use Rattle.store_state.specs.Refused.{blames};
ghost use Rattle.store_state.specs.Settled.{KeepsWhatCounts};
ghost use Rattle.store_state.specs.Indexing.{IsChangeRefusal, IsOfSlots, Stays};
ghost use Rattle.store_state.specs.IndexingAll.{AreHadIn, AreListed, IsCovered, IsCoveredIn, IsOverIn, PutSome, Restores, RestoresIn, TakesAllBack, with_contents};

use crate::containers::place_in;
use crate::indexing::{give_back, key_in, put, ran_out};
use container_meta::{Entry, Kind, OpenContainer, Place};
use dd_disk::Disk;
use refusals::Refusal;
use segment_index::Index;

// Puts the places of entries, the first of them first. Where memory runs out, those of the first ones are in.
fn put_some<D: Disk, X: Index>(
    disk: &mut D,
    index: &mut X,
    slot: u32,
    kind: Kind,
    entries: &[Entry],
) -> Result<(), Refusal>
    requires serves { X.serves index.old (D.view disk.old).size }
    requires places { AllByRecursion (λ e. IsPlace (D.view disk.old).size (place_of slot e)) entries.now }
    requires slots { IsOfSlots (D.view disk.old).size }
    ensures ok { OnOk result (KnownMap (X.places index.old (D.view disk.old).content)
        (λ m. X.places index.new (D.view disk.new).content ≡ Some (with_entries kind slot entries.now m))) }
    ensures unknown { OnOk result (Stays (X.places index.old (D.view disk.old).content) (X.places index.new (D.view disk.new).content)) }
    ensures memory { result ≡ Err Memory → PutSome kind entries.now (X.places index.old (D.view disk.old).content)
        (X.places index.new (D.view disk.new).content)
        × Stays (X.places index.old (D.view disk.old).content) (X.places index.new (D.view disk.new).content) }
    ensures refused { IfErr result (IsChangeRefusal (X.places index.old (D.view disk.old).content)) }
    ensures changes { (slots : ℕ) → (D.view disk.old).size ≡ size_of slots
        → Changes (slot_at slots) (ending blames result) (D.view disk.old) (D.view disk.new) }
    ensures served { X.serves index.new (D.view disk.new).size }
{
    for at in 0..entries.len() {
        let entry = &entries[at];
        put(disk, index, &key_in(kind, entry), place_in(slot, entry))?;
    }
    Ok(())
}

// Gives the keys of entries what they had: a place, which they have some still, or none.
fn restore<D: Disk, X: Index>(
    disk: &mut D,
    index: &mut X,
    kind: Kind,
    entries: &[Entry],
    before: &[Option<Place>],
) -> Result<(), Refusal>
    requires serves { X.serves index.old (D.view disk.old).size }
    requires many { length before.now ≡ length entries.now }
    requires lie { AllByRecursion (λ had. IfSome had (IsPlace (D.view disk.old).size)) before.now }
    requires covered { KnownMap (X.places index.old (D.view disk.old).content) (IsCovered kind entries.now before.now) }
    requires slots { IsOfSlots (D.view disk.old).size }
    ensures ok { OnOk result (Restores kind entries.now before.now (X.places index.old (D.view disk.old).content)
        (X.places index.new (D.view disk.new).content)) }
    ensures unknown { OnOk result (Stays (X.places index.old (D.view disk.old).content) (X.places index.new (D.view disk.new).content)) }
    ensures memory { result ≡ Err Memory → (X.places index.old (D.view disk.old).content ≡ None)
        × (X.places index.new (D.view disk.new).content ≡ None) }
    ensures refused { IfErr result (IsChangeRefusal (X.places index.old (D.view disk.old).content)) }
    ensures changes { (slots : ℕ) → (D.view disk.old).size ≡ size_of slots
        → Changes (slot_at slots) (ending blames result) (D.view disk.old) (D.view disk.new) }
    ensures served { X.serves index.new (D.view disk.new).size }
{
    for at in 0..entries.len() {
        give_back(disk, index, &key_in(kind, &entries[at]), &before[at])?;
    }
    Ok(())
}

// Gives the keys of containers what they had.
fn restore_each<D: Disk, X: Index>(
    disk: &mut D,
    index: &mut X,
    filled: &[OpenContainer],
    befores: &[Vec<Option<Place>>],
) -> Result<(), Refusal>
    requires serves { X.serves index.old (D.view disk.old).size }
    requires many { length befores.now ≡ length filled.now }
    requires there { HaveSegments filled.now }
    requires slots { IsOfSlots (D.view disk.old).size }
    requires lie { AreListed (D.view disk.old).size filled.now befores.now }
    requires covered { KnownMap (X.places index.old (D.view disk.old).content) (IsCoveredIn filled.now befores.now) }
    ensures ok { OnOk result (RestoresIn filled.now befores.now (X.places index.old (D.view disk.old).content)
        (X.places index.new (D.view disk.new).content)) }
    ensures unknown { OnOk result (Stays (X.places index.old (D.view disk.old).content) (X.places index.new (D.view disk.new).content)) }
    ensures memory { result ≡ Err Memory → (X.places index.old (D.view disk.old).content ≡ None)
        × (X.places index.new (D.view disk.new).content ≡ None) }
    ensures refused { IfErr result (IsChangeRefusal (X.places index.old (D.view disk.old).content)) }
    ensures changes { (slots : ℕ) → (D.view disk.old).size ≡ size_of slots
        → Changes (slot_at slots) (ending blames result) (D.view disk.old) (D.view disk.new) }
    ensures served { X.serves index.new (D.view disk.new).size }
{
    for i in 0..filled.len() {
        restore(
            disk,
            index,
            filled[i].kind(),
            filled[i].entries(),
            &befores[i],
        )?;
    }
    Ok(())
}

// Puts the places of one of several containers. Where memory runs out, the keys of all of them are given what they had.
fn put_at<D: Disk, X: Index>(
    disk: &mut D,
    index: &mut X,
    slot: u32,
    filled: &[OpenContainer],
    befores: &[Vec<Option<Place>>],
    at: usize,
) -> Result<(), Refusal>
    requires serves { X.serves index.old (D.view disk.old).size }
    requires within { at < length filled.now }
    requires many { length befores.now ≡ length filled.now }
    requires there { HaveSegments filled.now }
    requires slot { size_of (slot + 1) ≤ (D.view disk.old).size }
    requires slots { IsOfSlots (D.view disk.old).size }
    requires lie { AreListed (D.view disk.old).size filled.now befores.now }
    requires over { KnownMap (X.places index.old (D.view disk.old).content) (IsOverIn filled.now befores.now) }
    ensures ok { OnOk result ((c : Contents) → slice_get filled.now at ≡ Some c
        → KnownMap (X.places index.old (D.view disk.old).content)
        (λ m. X.places index.new (D.view disk.new).content ≡ Some (with_entries c.kind slot (entries_from 0 c.segments) m))) }
    ensures unknown { OnOk result (Stays (X.places index.old (D.view disk.old).content) (X.places index.new (D.view disk.new).content)) }
    ensures memory { result ≡ Err Memory → TakesAllBack filled.now befores.now (X.places index.old (D.view disk.old).content)
        (X.places index.new (D.view disk.new).content)
        × Stays (X.places index.old (D.view disk.old).content) (X.places index.new (D.view disk.new).content) }
    ensures refused { IfErr result (IsChangeRefusal (X.places index.old (D.view disk.old).content)) }
    ensures changes { (slots : ℕ) → (D.view disk.old).size ≡ size_of slots
        → Changes (slot_at slots) (ending blames result) (D.view disk.old) (D.view disk.new) }
    ensures served { X.serves index.new (D.view disk.new).size }
{
    let ended = put_some(disk, index, slot, filled[at].kind(), filled[at].entries());
    if ran_out(&ended) {
        restore_each(disk, index, filled, befores)?;
    }
    ended
}

/// Puts the places of the segments of containers under their keys, the first container first: each stands in the slot of its number.
/// `befores` has the places that the keys have.
///
/// Where memory runs out, the map is as it was. After `DiskWrite`, and after `Damaged`, which comes only where the map isn't known,
/// it may have changed.
pub fn put_each<D: Disk, X: Index>(
    disk: &mut D,
    index: &mut X,
    slots: &[u32],
    filled: &[OpenContainer],
    befores: &[Vec<Option<Place>>],
) -> Result<(), Refusal>
    requires serves { X.serves index.old (D.view disk.old).size }
    requires many { (length filled.now ≡ length slots.now) × (length befores.now ≡ length slots.now) }
    requires there { HaveSegments filled.now }
    requires lie { (i slot : ℕ) → slice_get slots.now i ≡ Some slot → size_of (slot + 1) ≤ (D.view disk.old).size }
    requires slots { IsOfSlots (D.view disk.old).size }
    requires had { AreHadIn (D.view disk.old).size (X.places index.old (D.view disk.old).content) filled.now befores.now }
    ensures ok { OnOk result (KnownMap (X.places index.old (D.view disk.old).content)
        (λ m. X.places index.new (D.view disk.new).content ≡ Some (with_contents slots.now filled.now m))) }
    ensures memory { result ≡ Err Memory → X.places index.new (D.view disk.new).content ≡ X.places index.old
        (D.view disk.old).content }
    ensures refused { IfErr result (IsChangeRefusal (X.places index.old (D.view disk.old).content)) }
    ensures changes { (slots : ℕ) → (D.view disk.old).size ≡ size_of slots
        → Changes (slot_at slots) (ending blames result) (D.view disk.old) (D.view disk.new) }
    ensures served { X.serves index.new (D.view disk.new).size }
{
    for i in 0..slots.len() {
        put_at(disk, index, slots[i], filled, befores, i)?;
    }
    Ok(())
}
