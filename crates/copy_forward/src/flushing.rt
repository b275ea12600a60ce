//! A container that was filled with copies is written, and the index then points to it.
ghost use Rattle.std.specs.Prelude.{◌≡◌, ◌+◌, ◌++◌, ◌∷◌, ◌≤◌, ℕ, length, Some, Err, IfOk, IfErr, IfSome, OnOk, OnErr};
ghost use Rattle.std.specs.FinMap as finite;
ghost use Rattle.std.specs.List.{AllByRecursion};
ghost use Rattle.container_meta.specs.Segments.{entries_from};
ghost use Rattle.dd_disk.specs.Ending.{ending, Reads};
ghost use Rattle.ingest_steps.specs.Sealing.{HasSlotBeside, HasWritten, HasPlacesOf, KeepsMap, SealsIndexed};
ghost use Rattle.refusals.specs.declared.refusal.Refusal.TheVariants.{Memory};
ghost use Rattle.segment_index.specs.Places.{KnownMap, IsPlace};
ghost use Rattle.store_state.specs.Indexing.{AreHad};
ghost use Rattle.store_state.specs.Refused.{blames};
ghost use Rattle.store_state.specs.Settled.{Steps};
ghost use Rattle.store_state.specs.Tables.{Runs};
ghost use Rattle.copy_forward.specs.Entries.{IsScanRefusal};
ghost use Rattle.copy_forward.specs.Flushing.{places_in, IsFlushRefusal};

use container_meta::{Entry, Kind, OpenContainer, Place, key_of};
use dd_disk::Disk;
use disk_format::SLOT_BYTES;
use ingest_steps::seal_indexed;
use refusals::Refusal;
use segment_index::Index;
use std::alloc::Global;
use store_state::{Tables, find};

// Adds the place that the index has for the key of each entry, the first of them first.
fn add_places<D: Disk, X: Index>(
    disk: &mut D,
    index: &mut X,
    kind: Kind,
    entries: &[Entry],
    places: &mut Vec<Option<Place>>,
) -> Result<(), Refusal>
    requires serves { X.serves index.old (D.view disk.old).size }
    requires lie { AllByRecursion (λ had. IfSome had (IsPlace (D.view disk.old).size)) places.old.items }
    ensures many { OnOk result (length places.new.items ≡ length places.old.items + length entries.now) }
    ensures lie { OnOk result (AllByRecursion (λ had. IfSome had (IsPlace (D.view disk.old).size)) places.new.items) }
    ensures had { OnOk result (KnownMap (X.places index.old (D.view disk.old).content)
        (λ m. places.new.items ≡ places.old.items ++ places_in m kind entries.now)) }
    ensures map { X.places index.new (D.view disk.new).content ≡ X.places index.old (D.view disk.old).content }
    ensures refused { IfErr result (IsScanRefusal (X.places index.old (D.view disk.old).content)) }
    ensures reads { Reads (ending blames result) (D.view disk.old) (D.view disk.new) }
    ensures served { X.serves index.new (D.view disk.new).size }
{
    for entry in entries {
        let place = find(disk, index, &key_of(kind, &entry.digest))?;
        places.push(place)?;
    }
    Ok(())
}

// The places that the index has for the keys of a container's segments.
fn places_of<D: Disk, X: Index>(
    alloc: Global,
    disk: &mut D,
    index: &mut X,
    filled: &OpenContainer,
) -> Result<Vec<Option<Place>>, Refusal>
    requires serves { X.serves index.old (D.view disk.old).size }
    ensures had { IfOk result (λ places. AreHad (D.view disk.old).size (X.places index.old (D.view disk.old).content) filled.now.kind
        (entries_from 0 filled.now.segments) places.items) }
    ensures map { X.places index.new (D.view disk.new).content ≡ X.places index.old (D.view disk.old).content }
    ensures refused { IfErr result (IsScanRefusal (X.places index.old (D.view disk.old).content)) }
    ensures reads { Reads (ending blames result) (D.view disk.old) (D.view disk.new) }
    ensures served { X.serves index.new (D.view disk.new).size }
{
    let mut places = Vec::new(alloc);
    add_places(disk, index, filled.kind(), filled.entries(), &mut places)?;
    Ok(places)
}

/// Writes a container that was filled with copies, under the next id, which is answered, to the closed slot of least number. The
/// index has its places first.
///
/// Refusals: `Memory`, which leaves the map as it was; `DiskRead` of a look-up; `Damaged`, where the index's own bytes break its
/// form; `DiskWrite`. Each leaves the tables as they were.
pub fn flush<D: Disk, X: Index>(
    alloc: Global,
    disk: &mut D,
    tables: &mut Tables,
    index: &mut X,
    slot: u32,
    filled: &OpenContainer,
) -> Result<u64, Refusal>
    requires serves { X.serves index.old (D.view disk.old).size }
    requires state { Runs (D.view disk.old).size None tables.old }
    requires slot { (spares : _) × HasSlotBeside spares tables.old slot }
    requires there { 1 ≤ length filled.now.segments }
    ensures ok { IfOk result (λ id. (spares : ℕ) → HasSlotBeside spares tables.old slot → HasWritten spares tables.old
        (D.view disk.old).size (X.places index.old (D.view disk.old).content) slot filled.now tables.new id) }
    ensures map { OnOk result (HasPlacesOf filled.now slot (X.places index.old) (X.places index.new)
        (D.view disk.old).content (D.view disk.new).content) }
    ensures refused { IfErr result (IsFlushRefusal (X.places index.old (D.view disk.old).content)) }
    ensures unchanged { OnErr result (tables.new ≡ tables.old) }
    ensures kept { IfErr result (KeepsMap (X.places index.old (D.view disk.old).content) (X.places index.new (D.view disk.new).content)) }
    ensures disk { Steps tables.old.slots (ending blames result) (D.view disk.old) (D.view disk.new) }
    ensures moves { SealsIndexed tables.old (tables.old.held.last_id + 1) filled.now (ending blames result) (D.view disk.old)
        (D.view disk.new) }
    ensures served { X.serves index.new (D.view disk.new).size }
{
    let before = places_of(alloc, disk, index, filled)?;
    let mut image = vec![in alloc; 0u8; SLOT_BYTES as usize]?;
    seal_indexed(
        disk,
        tables,
        index,
        slot,
        filled,
        &before,
        image.as_mut_slice(),
    )
}
