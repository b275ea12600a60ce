//! What the index of a running store answers, and what is put into it.
ghost use Rattle.std.specs.Prelude.{◌≡◌, ◌+◌, ◌<◌, ◌≤◌, ℕ, None, Some, Err, length};
ghost use Rattle.std.specs.Prelude.{IsSome, IsTrue, IsFalse, OnOk, OnErr, IfOk, IfErr, IfSome};
ghost use Rattle.std.specs.FinMap as finite;
ghost use Rattle.std.specs.List.{AllByRecursion};
ghost use Rattle.dd_disk.specs.Ending.{ending, Reads};
ghost use Rattle.dd_disk.specs.Shows.{Shows};
ghost use Rattle.disk_format.specs.Layout.{size_of, slot_at};
ghost use Rattle.container_meta.specs.Segments.{entries_from};
ghost use Rattle.refusals.specs.declared.refusal.Refusal.TheVariants.{Memory};
ghost use Rattle.segment_index.specs.Places.{KnownMap, HasKind, IsPlace};
ghost use Rattle.segment_index.specs.Changes.{Changes};
ghost use Rattle.store_model.specs.Indexing.{entry_key, with_entries};
ghost use Rattle.store_model.specs.Slots.{place_of};
ghost use Rattle.store_state.specs.Refused.{blames};
ghost use Rattle.store_state.specs.Settled.{KeepsWhatCounts};
ghost use Rattle.store_state.specs.Indexing.{IsFindRefusal, IsChangeRefusal, IsOfSlots, ArePart, AreHad, Stays, with_had};
ghost use Rattle.store_state.specs.Indexing.{IsPutOver, TakesBack, with_entry};

use crate::containers::place_in;
use container_meta::{Entry, Key, Kind, OpenContainer, Place, key_of};
use dd_disk::Disk;
use refusals::Refusal;
use segment_index::{Index, IndexFault};

/// The place of a key, if a container has it.
pub fn find<D: Disk, X: Index>(
    disk: &mut D,
    index: &mut X,
    key: &Key,
) -> Result<Option<Place>, Refusal>
    requires { X.serves index.old (D.view disk.old).size }
    ensures found { IfOk result (λ found. KnownMap (X.places index.old (D.view disk.old).content)
        (λ m. found ≡ finite.get m key.now)) }
    ensures place { IfOk result (λ found. IfSome found (IsPlace (D.view disk.old).size)) }
    ensures map { X.places index.new (D.view disk.new).content ≡ X.places index.old (D.view disk.old).content }
    ensures refused { IfErr result (IsFindRefusal (λ at why. (X.places index.old (D.view disk.old).content ≡ None)
        × Shows (D.view disk.old) (D.view disk.new) (X.breaks index.old at why))) }
    ensures alone { (X.places index.new None ≡ X.places index.old None) × OnErr result (X.places index.old None ≡ None) }
    ensures reads { Reads (ending blames result) (D.view disk.old) (D.view disk.new) }
    ensures served { X.serves index.new (D.view disk.new).size }
{
    match index.get(disk, key) {
        Ok(found) => Ok(found),
        Err(IndexFault::DiskRead) => Err(Refusal::DiskRead),
        Err(IndexFault::Damaged { at, why }) => Err(Refusal::Damaged { at, why }),
        // A look-up takes no memory, and writes nothing.
        Err(IndexFault::Memory) => unreachable!(),
        Err(IndexFault::DiskWrite) => unreachable!(),
    }
}

// The key of an entry.
pub(crate) fn key_in(kind: Kind, entry: &Entry) -> Key
    ensures key { result ≡ entry_key kind entry.now }
    ensures kind { HasKind result }
{
    key_of(kind, &entry.digest)
}

// Gives a key a place.
pub(crate) fn put<D: Disk, X: Index>(
    disk: &mut D,
    index: &mut X,
    key: &Key,
    place: Place,
) -> Result<(), Refusal>
    requires serves { X.serves index.old (D.view disk.old).size }
    requires kind { HasKind key.now }
    requires place { IsPlace (D.view disk.old).size place }
    ensures ok { OnOk result (KnownMap (X.places index.old (D.view disk.old).content)
        (λ m. X.places index.new (D.view disk.new).content ≡ Some (finite.insert m key.now place))) }
    ensures unknown { OnOk result (Stays (X.places index.old (D.view disk.old).content) (X.places index.new (D.view disk.new).content)) }
    ensures memory { result ≡ Err Memory → X.places index.new (D.view disk.new).content ≡ X.places index.old
        (D.view disk.old).content }
    ensures absent { result ≡ Err Memory → KnownMap (X.places index.old (D.view disk.old).content)
        (λ m. finite.get m key.now ≡ None) }
    ensures refused { IfErr result (IsChangeRefusal (X.places index.old (D.view disk.old).content)) }
    ensures changes { Changes (X.owned_from index.old (D.view disk.old).size) (ending blames result) (D.view disk.old) (D.view disk.new) }
    ensures served { X.serves index.new (D.view disk.new).size }
{
    match index.put(disk, key, place) {
        Ok(()) => Ok(()),
        Err(IndexFault::Memory) => Err(Refusal::Memory),
        Err(IndexFault::DiskWrite) => Err(Refusal::DiskWrite),
        Err(IndexFault::Damaged { at, why }) => Err(Refusal::Damaged { at, why }),
        // A read that failed inside a change is named as a write.
        Err(IndexFault::DiskRead) => unreachable!(),
    }
}

/// Takes a key away, if it is there. It takes no memory.
///
/// Refusals: `DiskWrite`; `Damaged`, where the index's own bytes break its form. After each the map may have changed.
pub fn remove_key<D: Disk, X: Index>(disk: &mut D, index: &mut X, key: &Key) -> Result<(), Refusal>
    requires serves { X.serves index.old (D.view disk.old).size }
    ensures ok { OnOk result (KnownMap (X.places index.old (D.view disk.old).content)
        (λ m. X.places index.new (D.view disk.new).content ≡ Some (finite.remove m key.now))) }
    ensures unknown { OnOk result (Stays (X.places index.old (D.view disk.old).content) (X.places index.new (D.view disk.new).content)) }
    ensures no_memory { result ≡ Err Memory → ⊥ }
    ensures refused { IfErr result (IsChangeRefusal (X.places index.old (D.view disk.old).content)) }
    ensures changes { Changes (X.owned_from index.old (D.view disk.old).size) (ending blames result) (D.view disk.old) (D.view disk.new) }
    ensures served { X.serves index.new (D.view disk.new).size }
{
    match index.remove(disk, key) {
        Ok(()) => Ok(()),
        Err(IndexFault::DiskWrite) => Err(Refusal::DiskWrite),
        Err(IndexFault::Damaged { at, why }) => Err(Refusal::Damaged { at, why }),
        // A key is removed without memory.
        Err(IndexFault::Memory) => unreachable!(),
        Err(IndexFault::DiskRead) => unreachable!(),
    }
}

// Gives a key the place that it had before, and then it has one still, or none.
pub(crate) fn give_back<D: Disk, X: Index>(
    disk: &mut D,
    index: &mut X,
    key: &Key,
    had: &Option<Place>,
) -> Result<(), Refusal>
    requires serves { X.serves index.old (D.view disk.old).size }
    requires kind { HasKind key.now }
    requires place { IfSome had.now (IsPlace (D.view disk.old).size) }
    requires there { IfSome had.now (λ _. KnownMap (X.places index.old (D.view disk.old).content) (λ m. IsSome (finite.get m key.now))) }
    ensures ok { OnOk result (KnownMap (X.places index.old (D.view disk.old).content)
        (λ m. X.places index.new (D.view disk.new).content ≡ Some (with_had had.now key.now m))) }
    ensures unknown { OnOk result (Stays (X.places index.old (D.view disk.old).content) (X.places index.new (D.view disk.new).content)) }
    ensures memory { result ≡ Err Memory → (X.places index.new (D.view disk.new).content ≡ X.places index.old
        (D.view disk.old).content)
        × (X.places index.old (D.view disk.old).content ≡ None) }
    ensures refused { IfErr result (IsChangeRefusal (X.places index.old (D.view disk.old).content)) }
    ensures changes { Changes (X.owned_from index.old (D.view disk.old).size) (ending blames result) (D.view disk.old) (D.view disk.new) }
    ensures served { X.serves index.new (D.view disk.new).size }
{
    match had {
        Some(place) => put(disk, index, key, *place),
        None => remove_key(disk, index, key),
    }
}

// Whether there was no memory.
pub(crate) fn ran_out(ended: &Result<(), Refusal>) -> bool
    ensures yes { IsTrue result → ended.now ≡ Err Memory }
    ensures no { IsFalse result → ended.now ≡ Err Memory → ⊥ }
{
    matches!(ended, Err(Refusal::Memory))
}

// Gives the keys of the first entries, so many, which have places that were put, those that they had before, or none: the last of
// them first.
fn take_back<D: Disk, X: Index>(
    disk: &mut D,
    index: &mut X,
    kind: Kind,
    entries: &[Entry],
    before: &[Option<Place>],
    count: usize,
) -> Result<(), Refusal>
    requires serves { X.serves index.old (D.view disk.old).size }
    requires many { (count ≤ length entries.now) × (length before.now ≡ length entries.now) }
    requires lie { AllByRecursion (λ had. IfSome had (IsPlace (D.view disk.old).size)) before.now }
    requires put { KnownMap (X.places index.old (D.view disk.old).content) (IsPutOver kind entries.now before.now count) }
    ensures ok { OnOk result (TakesBack kind entries.now before.now count (X.places index.old (D.view disk.old).content)
        (X.places index.new (D.view disk.new).content)) }
    ensures unknown { OnOk result (Stays (X.places index.old (D.view disk.old).content) (X.places index.new (D.view disk.new).content)) }
    ensures memory { result ≡ Err Memory → (X.places index.old (D.view disk.old).content ≡ None)
        × (X.places index.new (D.view disk.new).content ≡ None) }
    ensures refused { IfErr result (IsChangeRefusal (X.places index.old (D.view disk.old).content)) }
    ensures changes { (slots : ℕ) → (D.view disk.old).size ≡ size_of slots
        → Changes (slot_at slots) (ending blames result) (D.view disk.old) (D.view disk.new) }
    ensures served { X.serves index.new (D.view disk.new).size }
{
    let mut left = count;
    while left > 0 {
        left -= 1;
        give_back(disk, index, &key_in(kind, &entries[left]), &before[left])?;
    }
    Ok(())
}

// Puts the place of an entry, where those of the entries before it were put. Where memory runs out, these are taken back.
fn put_next<D: Disk, X: Index>(
    disk: &mut D,
    index: &mut X,
    slot: u32,
    kind: Kind,
    entries: &[Entry],
    before: &[Option<Place>],
    at: usize,
) -> Result<(), Refusal>
    requires serves { X.serves index.old (D.view disk.old).size }
    requires within { at < length entries.now }
    requires places { AllByRecursion (λ e. IsPlace (D.view disk.old).size (place_of slot e)) entries.now }
    requires many { length before.now ≡ length entries.now }
    requires lie { AllByRecursion (λ had. IfSome had (IsPlace (D.view disk.old).size)) before.now }
    requires put { KnownMap (X.places index.old (D.view disk.old).content) (IsPutOver kind entries.now before.now at) }
    ensures ok { OnOk result (KnownMap (X.places index.old (D.view disk.old).content) (λ m. X.places index.new (D.view disk.new).content
        ≡ Some (with_entry kind slot entries.now at m))) }
    ensures unknown { OnOk result (Stays (X.places index.old (D.view disk.old).content) (X.places index.new (D.view disk.new).content)) }
    ensures memory { result ≡ Err Memory → TakesBack kind entries.now before.now at (X.places index.old (D.view disk.old).content)
        (X.places index.new (D.view disk.new).content)
        × Stays (X.places index.old (D.view disk.old).content) (X.places index.new (D.view disk.new).content) }
    ensures refused { IfErr result (IsChangeRefusal (X.places index.old (D.view disk.old).content)) }
    ensures changes { (slots : ℕ) → (D.view disk.old).size ≡ size_of slots
        → Changes (slot_at slots) (ending blames result) (D.view disk.old) (D.view disk.new) }
    ensures served { X.serves index.new (D.view disk.new).size }
{
    let entry = &entries[at];
    let ended = put(disk, index, &key_in(kind, entry), place_in(slot, entry));
    if ran_out(&ended) {
        take_back(disk, index, kind, entries, before, at)?;
    }
    ended
}

// Puts the places of entries, the first of them first. Where memory runs out, those that were put are taken back, the
// last of them first.
fn put_from<D: Disk, X: Index>(
    disk: &mut D,
    index: &mut X,
    slot: u32,
    kind: Kind,
    entries: &[Entry],
    before: &[Option<Place>],
) -> Result<(), Refusal>
    requires serves { X.serves index.old (D.view disk.old).size }
    requires part { ArePart (D.view disk.old).size slot kind entries.now }
    requires slots { IsOfSlots (D.view disk.old).size }
    requires had { AreHad (D.view disk.old).size (X.places index.old (D.view disk.old).content) kind entries.now before.now }
    ensures ok { OnOk result (KnownMap (X.places index.old (D.view disk.old).content)
        (λ m. X.places index.new (D.view disk.new).content ≡ Some (with_entries kind slot entries.now m))) }
    ensures memory { result ≡ Err Memory → X.places index.new (D.view disk.new).content ≡ X.places index.old
        (D.view disk.old).content }
    ensures refused { IfErr result (IsChangeRefusal (X.places index.old (D.view disk.old).content)) }
    ensures changes { (slots : ℕ) → (D.view disk.old).size ≡ size_of slots
        → Changes (slot_at slots) (ending blames result) (D.view disk.old) (D.view disk.new) }
    ensures served { X.serves index.new (D.view disk.new).size }
{
    for at in 0..entries.len() {
        put_next(disk, index, slot, kind, entries, before, at)?;
    }
    Ok(())
}

/// Puts the place of each segment of a container under its key, the first of them first: it stands in this slot.
/// `before` has the places that the keys have.
///
/// Where memory runs out, the map is as it was. After `DiskWrite`, and after `Damaged`, which comes only where the map
/// isn't known, it may have changed.
pub fn put_entries<D: Disk, X: Index>(
    disk: &mut D,
    index: &mut X,
    slot: u32,
    filled: &OpenContainer,
    before: &[Option<Place>],
) -> Result<(), Refusal>
    requires serves { X.serves index.old (D.view disk.old).size }
    requires some { 1 ≤ length filled.now.segments }
    requires slot { size_of (slot + 1) ≤ (D.view disk.old).size }
    requires slots { IsOfSlots (D.view disk.old).size }
    requires had { AreHad (D.view disk.old).size (X.places index.old (D.view disk.old).content) filled.now.kind
        (entries_from 0 filled.now.segments) before.now }
    ensures ok { OnOk result (KnownMap (X.places index.old (D.view disk.old).content) (λ m. X.places index.new (D.view disk.new).content
        ≡ Some (with_entries filled.now.kind slot (entries_from 0 filled.now.segments) m))) }
    ensures memory { result ≡ Err Memory → X.places index.new (D.view disk.new).content ≡ X.places index.old
        (D.view disk.old).content }
    ensures refused { IfErr result (IsChangeRefusal (X.places index.old (D.view disk.old).content)) }
    ensures changes { (slots : ℕ) → (D.view disk.old).size ≡ size_of slots
        → Changes (slot_at slots) (ending blames result) (D.view disk.old) (D.view disk.new) }
    ensures counts { (slots : ℕ) → (D.view disk.old).size ≡ size_of slots → KeepsWhatCounts slots (D.view disk.old)
        (D.view disk.new) }
    ensures served { X.serves index.new (D.view disk.new).size }
{
    put_from(disk, index, slot, filled.kind(), filled.entries(), before)
}
