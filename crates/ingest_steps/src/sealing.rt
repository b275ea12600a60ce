//! Sealing a container: what of it needs no actor.
ghost use Rattle.std.specs.Prelude.{◌≡◌, ◌+◌, ◌≤◌, ◌<◌, ℕ, true, length, Option, Some, Err, OnOk, OnErr, IfOk, IfErr};
ghost use Rattle.dd_disk.specs.Ending.{ending};
ghost use Rattle.dd_disk.specs.View.{IsDurable};
ghost use Rattle.dd_disk.specs.Moves.{Acts};
ghost use Rattle.disk_format.specs.Layout.{slot_at};
ghost use Rattle.container_log.specs.Writing.{SameButSlot, Seals, IsSealed};
ghost use Rattle.container_meta.specs.Format.{is_id};
ghost use Rattle.dd_disk.specs.Writes.{Writes};
ghost use Rattle.base_model.specs.Known.{Known, KnownWith};
ghost use Rattle.refusals.specs.declared.refusal.Refusal.TheVariants.{Memory, DiskWrite};
ghost use Rattle.store_state.specs.Refused.{blames};
ghost use Rattle.container_meta.specs.Places.{PlaceMap};
ghost use Rattle.container_meta.specs.Segments.{bytes_in, entries_from};
ghost use Rattle.container_meta.specs.Spelling.{IsHeader, header_digest, header_of};
ghost use Rattle.store_state.specs.Indexing.{IsChangeRefusal, AreHad};
ghost use Rattle.store_state.specs.Settled.{Steps};
ghost use Rattle.store_state.specs.Tables.{Runs};
ghost use Rattle.ingest_steps.specs.Sealing.{HasSlot, HasSlotBeside, IsSlotRefusal, SealsContainer, SealsIndexed, HasWritten, HasPlacesOf, ChangesSlotAlone};

use container_log::seal;
use container_meta::{OpenContainer, Place};
use dd_disk::Disk;
use disk_format::{LAST_ID, RESERVE, SLOT_BYTES};
use refusals::Refusal;
use segment_index::Index;
use store_state::{SlotCount, Tables, put_entries};

/// The free slot of least number, if one more container may be sealed: `Full` where two slots or fewer are free, then
/// `Numbers` where the last id was given out.
pub fn slot_for(tables: &Tables) -> Result<u32, Refusal>
    requires { (size : _) × (known : _) × Runs size known tables.now }
    ensures slot { IfOk result (HasSlot tables.now) }
    ensures refused { IfErr result (λ refusal. (size : _) → IsSlotRefusal tables.now size refusal) }
{
    let free = tables.held.free();
    if free <= RESERVE {
        return Err(Refusal::Full { free });
    }
    if tables.held.last_id >= LAST_ID {
        return Err(Refusal::Numbers);
    }
    match tables.held.first_free() {
        Some(slot) => Ok(slot),
        None => Err(Refusal::Full { free: 0 }),
    }
}

// Writes a container into a slot, and gives the digest of its header.
fn write_container<D: Disk>(
    disk: &mut D,
    slot: u32,
    id: u64,
    filled: &OpenContainer,
    image: &mut [u8],
) -> Result<[u8; 32], Refusal>
    requires place { slot_at slot + SLOT_BYTES ≤ (D.view disk.old).size }
    requires there { 1 ≤ length filled.now.segments }
    requires id { is_id id ≡ true }
    requires image { length image.old ≡ SLOT_BYTES }
    ensures digest { IfOk result (λ digest. digest ≡ header_digest (header_of id filled.now.kind filled.now.segments)) }
    ensures writes { Writes (Seals slot id filled.now.kind filled.now.segments) (IsSealed slot id filled.now.kind filled.now.segments)
        (ending blames result) (D.view disk.old) (D.view disk.new) }
    ensures same { OnOk result (Known (D.view disk.old).content (λ given. KnownWith (D.view disk.new).content (SameButSlot slot given))) }
    ensures refused { IfErr result (λ refusal. refusal ≡ DiskWrite) }
{
    match seal(disk, slot, id, filled, image) {
        Ok(digest) => Ok(digest),
        Err(_) => Err(Refusal::DiskWrite),
    }
}

/// Writes a container under the next id to the closed slot of least number, and gives the digest of its header. `image` is a buffer
/// of `disk_format::SLOT_BYTES` bytes. The one refusal is `DiskWrite`.
pub fn seal_container<D: Disk>(
    disk: &mut D,
    tables: &Tables,
    slot: u32,
    id: u64,
    filled: &OpenContainer,
    image: &mut [u8],
) -> Result<[u8; 32], Refusal>
    requires state { (known : _) × Runs (D.view disk.old).size known tables.now }
    requires slot { (spares : _) × HasSlotBeside spares tables.now slot }
    requires id { id ≡ tables.now.held.last_id + 1 }
    requires there { 1 ≤ length filled.now.segments }
    requires image { length image.old ≡ SLOT_BYTES }
    ensures digest { IfOk result (λ digest. digest ≡ header_digest (header_of id filled.now.kind filled.now.segments)) }
    ensures refused { IfErr result (λ refusal. refusal ≡ DiskWrite) }
    ensures durable { OnOk result (IsDurable (D.view disk.new)) }
    ensures disk { Acts (ending blames result) (D.view disk.old) (D.view disk.new) }
    ensures moves { SealsContainer tables.now id filled.now (ending blames result) (D.view disk.old) (D.view disk.new) }
    ensures frame { ChangesSlotAlone tables.now.slots slot (D.view disk.old) (D.view disk.new) }
    ensures same { OnOk result (Known (D.view disk.old).content (λ given. KnownWith (D.view disk.new).content (SameButSlot slot given))) }
{
    write_container(disk, slot, id, filled, image)
}

// How many bytes of data a container has.
pub(crate) fn data_bytes(filled: &OpenContainer) -> u32
    requires { 1 ≤ length filled.now.segments }
    ensures bytes { result ≡ bytes_in filled.now.segments }
    ensures right { (id : ℕ) → is_id id ≡ true → IsHeader (header_of id filled.now.kind filled.now.segments) }
{
    let entries = filled.entries();
    let last = entries[entries.len() - 1];
    last.offset + last.length
}

// Takes a container that was written into the tables.
fn take_sealed(
    tables: &mut Tables,
    slot: u32,
    id: u64,
    filled: &OpenContainer,
    bytes: u32,
    digest: [u8; 32],
)
    requires state { (size : _) × (known : _) × Runs size known tables.old }
    requires slot { (spares : _) × HasSlotBeside spares tables.old slot }
    requires id { id ≡ tables.old.held.last_id + 1 }
    requires bytes { bytes ≡ bytes_in filled.now.segments }
    requires digest { digest ≡ header_digest (header_of id filled.now.kind filled.now.segments) }
    requires right { IsHeader (header_of id filled.now.kind filled.now.segments) }
    ensures { (spares size : ℕ) (known : Option PlaceMap) → HasSlotBeside spares tables.old slot
        → HasWritten spares tables.old size known slot filled.now tables.new id }
{
    let count = SlotCount {
        kind: filled.kind(),
        entries: filled.len() as u32,
        bytes,
        digest,
    };
    tables.held.take_container(slot, id, count);
}

/// Puts the places of a container's segments into the index, and writes it under the next id, which is answered, to the closed
/// slot of least number. `before` has the places that the keys have, and `image` is a buffer of
/// `disk_format::SLOT_BYTES` bytes.
///
/// Refusals: `Memory`, which leaves the map as it was; `Damaged`, where the index's own bytes break its form; `DiskWrite`.
/// Each leaves the tables as they were.
pub fn seal_indexed<D: Disk, X: Index>(
    disk: &mut D,
    tables: &mut Tables,
    index: &mut X,
    slot: u32,
    filled: &OpenContainer,
    before: &[Option<Place>],
    image: &mut [u8],
) -> Result<u64, Refusal>
    requires serves { X.serves index.old (D.view disk.old).size }
    requires state { Runs (D.view disk.old).size None tables.old }
    requires slot { (spares : _) × HasSlotBeside spares tables.old slot }
    requires there { 1 ≤ length filled.now.segments }
    requires had { AreHad (D.view disk.old).size (X.places index.old (D.view disk.old).content) filled.now.kind
        (entries_from 0 filled.now.segments) before.now }
    requires image { length image.old ≡ SLOT_BYTES }
    ensures ok { IfOk result (λ id. (spares : ℕ) → HasSlotBeside spares tables.old slot → HasWritten spares tables.old
        (D.view disk.old).size (X.places index.old (D.view disk.old).content) slot filled.now tables.new id) }
    ensures map { OnOk result (HasPlacesOf filled.now slot (X.places index.old) (X.places index.new)
        (D.view disk.old).content (D.view disk.new).content) }
    ensures refused { IfErr result (IsChangeRefusal (X.places index.old (D.view disk.old).content)) }
    ensures unchanged { OnErr result (tables.new ≡ tables.old) }
    ensures memory { result ≡ Err Memory → X.places index.new (D.view disk.new).content ≡ X.places index.old
        (D.view disk.old).content }
    ensures disk { Steps tables.old.slots (ending blames result) (D.view disk.old) (D.view disk.new) }
    ensures moves { SealsIndexed tables.old (tables.old.held.last_id + 1) filled.now (ending blames result) (D.view disk.old)
        (D.view disk.new) }
    ensures served { X.serves index.new (D.view disk.new).size }
{
    let id = next_id(tables);
    let bytes = data_bytes(filled);
    put_entries(disk, index, slot, filled, before)?;
    let digest = seal_container(disk, tables, slot, id, filled, image)?;
    take_sealed(tables, slot, id, filled, bytes, digest);
    Ok(id)
}

// The id after the last one.
pub(crate) fn next_id(tables: &Tables) -> u64
    requires { tables.now.held.last_id < LAST_ID }
    ensures next { result ≡ tables.now.held.last_id + 1 }
    ensures id { is_id result ≡ true }
{
    tables.held.last_id + 1
}
