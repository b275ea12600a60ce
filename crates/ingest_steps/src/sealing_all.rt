//! Containers of data that are sealed together: what of it needs no actor.
ghost use Rattle.std.specs.Prelude.{◌≡◌, ◌+◌, ◌<◌, ℕ, List, Option, true, length, None, Err, OnErr, OnOk, IfOk, IfErr};
ghost use Rattle.std.specs.List.{AllByRecursion};
ghost use Rattle.base_model.specs.Known.{Known, KnownWith};
ghost use Rattle.container_log.specs.Many.{AreDigests, AreSealed, AreSlots, HaveSegments, NoSlot, SealsAll, placed};
ghost use Rattle.container_meta.specs.declared.kind.Kind.TheVariants.{Leaf};
ghost use Rattle.container_meta.specs.Format.{is_id};
ghost use Rattle.container_meta.specs.Places.{PlaceMap};
ghost use Rattle.dd_disk.specs.Ending.{ending};
ghost use Rattle.dd_disk.specs.Moves.{step, Acts, Moves};
ghost use Rattle.dd_disk.specs.View.{IsDurable};
ghost use Rattle.dd_disk.specs.Writes.{Writes};
ghost use Rattle.dd_disk.specs.Wrote.{SameIn};
ghost use Rattle.refusals.specs.declared.refusal.Refusal.TheVariants.{DiskWrite, Memory};
ghost use Rattle.store_model.specs.Collisions.{ByteSet, HasNoCollisions, IsIn, Stands};
ghost use Rattle.store_model.specs.Files.{Files};
ghost use Rattle.store_model.specs.Image.{Store};
ghost use Rattle.store_model.specs.Slots.{last_id};
ghost use Rattle.store_model.specs.Together.{AreLeftSo, CanPlace, IsThere, MayPlace, StandsSome, with_all};
ghost use Rattle.store_state.specs.Indexing.{IsChangeRefusal};
ghost use Rattle.store_state.specs.IndexingAll.{AreHadIn};
ghost use Rattle.store_state.specs.Refused.{blames};
ghost use Rattle.store_state.specs.Settled.{Steps};
ghost use Rattle.store_state.specs.Tables.{Runs};
ghost use Rattle.ingest_steps.specs.Offering.{HasSlots};
ghost use Rattle.ingest_steps.specs.SealingAll.{AreRight, AreSizes, ChangesSlotsAlone, HasPlacesOfAll, HaveSealed, SealsData, SealsPlaced};

use crate::sealing::{data_bytes, next_id};
use container_log::{seal_all, sealed_one_by_one};
use container_meta::{OpenContainer, Place};
use dd_disk::Disk;
use disk_format::SLOT_BYTES;
use refusals::Refusal;
use segment_index::Index;
use std::alloc::{AllocError, Global};
use store_state::{SlotCount, Tables, put_each};

// Writes containers into slots, by two syncs, and gives the digests of their headers.
fn write_containers<D: Disk>(
    disk: &mut D,
    slots: &[u32],
    id: u64,
    filled: &[OpenContainer],
    image: &mut [u8],
    digests: &mut [[u8; 32]],
) -> Result<(), Refusal>
    requires slots { AreSlots (D.view disk.old).size slots.now }
    requires many { (length filled.now ≡ length slots.now) × (length digests.old ≡ length slots.now) }
    requires there { HaveSegments filled.now }
    requires ids { (i : ℕ) → i < length slots.now → is_id (id + i) ≡ true }
    requires image { length image.old ≡ SLOT_BYTES }
    ensures digests { IfOk result (λ _. AreDigests (length slots.now) id filled.now digests.new) }
    ensures writes { Writes (SealsAll slots.now id filled.now) (AreSealed slots.now id filled.now)
        (ending blames result) (D.view disk.old) (D.view disk.new) }
    ensures refused { IfErr result (λ refusal. refusal ≡ DiskWrite) }
    ensures moves { (among : ByteSet) (store : Store) (files : Files) → HasNoCollisions (IsIn among)
        → MayPlace (IsIn among) (placed slots.now id filled.now)
        → CanPlace (last_id store.held) (placed slots.now id filled.now) store
        → Moves (step (Stands (IsIn among) store files) (StandsSome (IsIn among) (placed slots.now id filled.now) store files)
        (Stands (IsIn among) (with_all (placed slots.now id filled.now) store) files))
        (ending blames result) (D.view disk.old) (D.view disk.new) }
    ensures there { (size : ℕ) (given new : List ℕ) → AreSlots size slots.now → length given ≡ size
        → AreSealed slots.now id filled.now given new → AreLeftSo IsThere (placed slots.now id filled.now) given new }
{
    sealed_one_by_one();
    match seal_all(disk, slots, id, filled, image, digests) {
        Ok(()) => Ok(()),
        Err(_) => Err(Refusal::DiskWrite),
    }
}

/// Writes containers of data under the next ids to the closed slots of least number, and gives the digest of each header. `image` is
/// a buffer of `disk_format::SLOT_BYTES` bytes. The one refusal is `DiskWrite`, after which some of them may stand, whichever.
pub fn seal_data<D: Disk>(
    disk: &mut D,
    tables: &Tables,
    slots: &[u32],
    id: u64,
    filled: &[OpenContainer],
    image: &mut [u8],
    digests: &mut [[u8; 32]],
) -> Result<(), Refusal>
    requires state { (known : _) × Runs (D.view disk.old).size known tables.now }
    requires slots { (offered : _) × HasSlots tables.now offered slots.now }
    requires id { id ≡ tables.now.held.last_id + 1 }
    requires many { (length filled.now ≡ length slots.now) × (length digests.old ≡ length slots.now) }
    requires there { HaveSegments filled.now }
    requires leaves { AllByRecursion (λ c. c.kind ≡ Leaf) filled.now }
    requires right { AreRight id filled.now }
    requires image { length image.old ≡ SLOT_BYTES }
    ensures digests { IfOk result (λ _. AreDigests (length slots.now) id filled.now digests.new) }
    ensures refused { IfErr result (λ refusal. refusal ≡ DiskWrite) }
    ensures durable { OnOk result (IsDurable (D.view disk.new)) }
    ensures disk { Acts (ending blames result) (D.view disk.old) (D.view disk.new) }
    ensures moves { SealsData tables.now (placed slots.now id filled.now) (ending blames result) (D.view disk.old) (D.view disk.new) }
    ensures frame { ChangesSlotsAlone tables.now.slots slots.now (D.view disk.old) (D.view disk.new) }
    ensures same { OnOk result (Known (D.view disk.old).content (λ given. KnownWith (D.view disk.new).content
        (SameIn (NoSlot slots.now) given))) }
{
    write_containers(disk, slots, id, filled, image, digests)
}

// How many bytes of data each of containers has.
fn data_sizes(alloc: Global, filled: &[OpenContainer]) -> Result<Vec<u32>, AllocError>
    requires { HaveSegments filled.now }
    ensures sizes { IfOk result (λ sizes. AreSizes filled.now sizes.items) }
    ensures many { IfOk result (λ sizes. length sizes.items ≡ length filled.now) }
    ensures right { OnOk result ((id : ℕ) → ((i : ℕ) → i < length filled.now → is_id (id + i) ≡ true)
        → AreRight id filled.now) }
{
    let mut sizes = Vec::new(alloc);
    for i in 0..filled.len() {
        sizes.push(data_bytes(&filled[i]))?;
    }
    Ok(sizes)
}

// Takes containers that were written into the tables.
fn take_each(
    tables: &mut Tables,
    slots: &[u32],
    id: u64,
    filled: &[OpenContainer],
    sizes: &[u32],
    digests: &[[u8; 32]],
)
    requires state { (size : _) × (known : _) × Runs size known tables.old }
    requires slots { (offered : _) × HasSlots tables.old offered slots.now }
    requires id { id ≡ tables.old.held.last_id + 1 }
    requires many { (length filled.now ≡ length slots.now) × (length sizes.now ≡ length slots.now)
        × (length digests.now ≡ length slots.now) }
    requires sizes { AreSizes filled.now sizes.now }
    requires digests { AreDigests (length slots.now) id filled.now digests.now }
    requires right { AreRight id filled.now }
    ensures { (size : ℕ) (known : Option PlaceMap) → HaveSealed tables.old size known filled.now tables.new }
{
    for i in 0..slots.len() {
        let count = SlotCount {
            kind: filled[i].kind(),
            entries: filled[i].len() as u32,
            bytes: sizes[i],
            digest: digests[i],
        };
        tables.held.take_container(slots[i], id + i as u64, count);
    }
}

// Writes containers of data, and takes them into the tables.
fn seal_taken<D: Disk>(
    disk: &mut D,
    tables: &mut Tables,
    slots: &[u32],
    id: u64,
    filled: &[OpenContainer],
    sizes: &[u32],
    image: &mut [u8],
    digests: &mut [[u8; 32]],
) -> Result<(), Refusal>
    requires state { (known : _) × Runs (D.view disk.old).size known tables.old }
    requires slots { (offered : _) × HasSlots tables.old offered slots.now }
    requires id { id ≡ tables.old.held.last_id + 1 }
    requires many { (length filled.now ≡ length slots.now) × (length sizes.now ≡ length slots.now)
        × (length digests.old ≡ length slots.now) }
    requires there { HaveSegments filled.now }
    requires leaves { AllByRecursion (λ c. c.kind ≡ Leaf) filled.now }
    requires known { AreRight id filled.now × AreSizes filled.now sizes.now }
    requires image { length image.old ≡ SLOT_BYTES }
    ensures ok { OnOk result ((size : ℕ) (known : Option PlaceMap) → HaveSealed tables.old size known filled.now tables.new) }
    ensures unchanged { OnErr result (tables.new ≡ tables.old) }
    ensures refused { IfErr result (λ refusal. refusal ≡ DiskWrite) }
    ensures durable { OnOk result (IsDurable (D.view disk.new)) }
    ensures disk { Acts (ending blames result) (D.view disk.old) (D.view disk.new) }
    ensures moves { SealsData tables.old (placed slots.now id filled.now) (ending blames result) (D.view disk.old) (D.view disk.new) }
    ensures frame { ChangesSlotsAlone tables.old.slots slots.now (D.view disk.old) (D.view disk.new) }
    ensures same { OnOk result (Known (D.view disk.old).content (λ given. KnownWith (D.view disk.new).content
        (SameIn (NoSlot slots.now) given))) }
{
    seal_data(disk, tables, slots, id, filled, image, digests)?;
    take_each(tables, slots, id, filled, sizes, digests);
    Ok(())
}

/// Puts the places of the segments of containers of data into the index, and writes these by two syncs under the next ids, the
/// greatest of which is answered, to the closed slots of least number. `befores` has the places that the keys have.
///
/// Refusals: `Memory`, which leaves the map as it was; `Damaged`, where the index's own bytes break its form; `DiskWrite`.
/// Each leaves the tables as they were.
pub fn seal_indexed_all<D: Disk, X: Index>(
    alloc: Global,
    disk: &mut D,
    tables: &mut Tables,
    index: &mut X,
    slots: &[u32],
    filled: &[OpenContainer],
    befores: &[Vec<Option<Place>>],
) -> Result<u64, Refusal>
    requires serves { X.serves index.old (D.view disk.old).size }
    requires state { Runs (D.view disk.old).size None tables.old }
    requires slots { (offered : _) × HasSlots tables.old offered slots.now }
    requires many { (length filled.now ≡ length slots.now) × (length befores.now ≡ length slots.now) }
    requires there { HaveSegments filled.now }
    requires leaves { AllByRecursion (λ c. c.kind ≡ Leaf) filled.now }
    requires had { AreHadIn (D.view disk.old).size (X.places index.old (D.view disk.old).content) filled.now befores.now }
    ensures ok { IfOk result (λ id. (id ≡ tables.old.held.last_id + length filled.now)
        × HaveSealed tables.old (D.view disk.old).size (X.places index.old (D.view disk.old).content) filled.now tables.new) }
    ensures map { OnOk result (HasPlacesOfAll (placed slots.now (tables.old.held.last_id + 1) filled.now) (X.places index.old)
        (X.places index.new) (D.view disk.old).content (D.view disk.new).content) }
    ensures refused { IfErr result (IsChangeRefusal (X.places index.old (D.view disk.old).content)) }
    ensures unchanged { OnErr result (tables.new ≡ tables.old) }
    ensures memory { result ≡ Err Memory → X.places index.new (D.view disk.new).content ≡ X.places index.old
        (D.view disk.old).content }
    ensures disk { Steps tables.old.slots (ending blames result) (D.view disk.old) (D.view disk.new) }
    ensures moves { SealsPlaced tables.old (X.places index.old (D.view disk.old).content)
        (λ _. placed slots.now (tables.old.held.last_id + 1) filled.now) (ending blames result) (D.view disk.old) (D.view disk.new) }
    ensures served { X.serves index.new (D.view disk.new).size }
{
    let id = next_id(tables);
    let sizes = data_sizes(alloc, filled)?;
    let mut image = vec![in alloc; 0u8; SLOT_BYTES as usize]?;
    let mut digests = vec![in alloc; [0u8; 32]; filled.len()]?;
    put_each(disk, index, slots, filled, befores)?;
    seal_taken(
        disk,
        tables,
        slots,
        id,
        filled,
        &sizes,
        image.as_mut_slice(),
        digests.as_mut_slice(),
    )?;
    Ok(tables.held.last_id)
}
