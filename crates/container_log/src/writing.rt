//! Containers written to their slots, and slots made free: several with two syncs, or with one.
ghost use Rattle.std.specs.Prelude.{◌≡◌, ◌⊎◌, ◌∷◌, ◌+◌, ◌<◌, ◌≤◌, ℕ, List, [], true, length, drop, slice_get, Some, None, OnOk, IfOk, IfErr};
ghost use Rattle.base_model.specs.Known.{Known, KnownWith};
ghost use Rattle.disk_format.specs.declared.numbers.TheConstants.{SLOT_BYTES};
ghost use Rattle.disk_format.specs.Layout.{slot_at};
ghost use Rattle.dd_disk.specs.Ending.{WriteCall, ending};
ghost use Rattle.dd_disk.specs.Moves.{step, Moves};
ghost use Rattle.dd_disk.specs.Writes.{Puts, Torn, Writes};
ghost use Rattle.dd_disk.specs.Wrote.{SameIn, Wrote};
ghost use Rattle.container_meta.specs.Format.{is_id};
ghost use Rattle.container_meta.specs.Segments.{Contents};
ghost use Rattle.container_meta.specs.Spelling.{container_spelling, header_digest, header_of};
ghost use Rattle.container_log.specs.declared.fault.LogFault.TheVariants.{DiskWrite};
ghost use Rattle.container_log.specs.Faults.{blames};
ghost use Rattle.container_log.specs.Many.{
  AreSlots,
  AreApart,
  NoBody,
  NoGate,
  HaveBodies,
  HaveGates,
  IsSlotOf,
  MaySealAll,
  AreSpelled,
  SealsAll,
  AreSealed,
  FreesAll,
  AreFreed,
  OneByOne,
  placed,
  spelling_of,
};
ghost use Rattle.container_log.specs.Writing.{Seals, IsSealed, Frees, IsFreed};
ghost use Rattle.store_model.specs.Collisions.{ByteSet, IsIn, HasNoCollisions, Stands};
ghost use Rattle.store_model.specs.Files.{Files};
ghost use Rattle.store_model.specs.Image.{Store};
ghost use Rattle.store_model.specs.Slots.{HoldsSlot, last_id};
ghost use Rattle.store_model.specs.Together.{AreLeftSo, IsLeft, IsThere, CanPlace, MayPlace, StandsSome, with_all};

use crate::fault::LogFault;
use container_meta::OpenContainer;
use dd_disk::{Disk, DiskFault, sync_all, write_unsynced};
use disk_format::{CONTAINER_GATE, slot_at};
use std::slice;

// Writes what comes after the gate of a container to its slot, and gives the digest of its header.
fn write_body<D: Disk>(
    disk: &mut D,
    slot: u32,
    id: u64,
    filled: &OpenContainer,
    image: &mut [u8],
) -> Result<[u8; 32], DiskFault>
    requires place { slot_at slot + SLOT_BYTES ≤ (D.view disk.old).size }
    requires there { 1 ≤ length filled.now.segments }
    requires id { is_id id ≡ true }
    requires image { length image.old ≡ SLOT_BYTES }
    ensures image { image.new ≡ spelling_of id filled.now }
    ensures slot { IsSlotOf id filled.now.kind filled.now.segments image.new }
    ensures digest { IfOk result (λ digest. digest ≡ header_digest (header_of id filled.now.kind filled.now.segments)) }
    ensures wrote { Wrote (Torn (slot_at slot + 1) (length (drop 1 image.new))) (Puts (slot_at slot + 1) (drop 1 image.new))
        (ending (λ _. WriteCall) result) (D.view disk.old) (D.view disk.new) }
{
    let header_digest = filled.encode(id, image);
    write_unsynced(disk, slot_at(slot) + 1, &image[1..])?;
    Ok(header_digest)
}

// The same of each container.
fn write_bodies<D: Disk>(
    disk: &mut D,
    slots: &[u32],
    id: u64,
    filled: &[OpenContainer],
    image: &mut [u8],
    digests: &mut [[u8; 32]],
) -> Result<(), DiskFault>
    requires { MaySealAll (D.view disk.old).size slots.now id filled.now image.old digests.old }
    ensures spelled { AreSpelled result (length slots.now) id filled.now image.new digests.new }
    ensures wrote { Wrote (SameIn (NoBody slots.now)) (HaveBodies (length slots.now) slots.now id filled.now)
        (ending (λ _. WriteCall) result) (D.view disk.old) (D.view disk.new) }
{
    for index in 0..slots.len() {
        digests[index] = write_body(disk, slots[index], id + index as u64, &filled[index], image)?;
    }
    Ok(())
}

// The same, and a sync.
fn sync_bodies<D: Disk>(
    disk: &mut D,
    slots: &[u32],
    id: u64,
    filled: &[OpenContainer],
    image: &mut [u8],
    digests: &mut [[u8; 32]],
) -> Result<(), DiskFault>
    requires { MaySealAll (D.view disk.old).size slots.now id filled.now image.old digests.old }
    ensures spelled { AreSpelled result (length slots.now) id filled.now image.new digests.new }
    ensures writes { Writes (λ _. SameIn (NoBody slots.now)) (HaveBodies (length slots.now) slots.now id filled.now)
        (ending (λ _. WriteCall) result) (D.view disk.old) (D.view disk.new) }
{
    write_bodies(disk, slots, id, filled, image, digests)?;
    sync_all(disk)
}

// Writes a byte over the gate of each of these slots.
fn write_gates<D: Disk>(disk: &mut D, slots: &[u32], gate: u8) -> Result<(), DiskFault>
    requires { AreApart (D.view disk.old).size slots.now }
    ensures { Wrote (SameIn (NoGate slots.now)) (HaveGates gate (length slots.now) slots.now)
        (ending (λ _. WriteCall) result) (D.view disk.old) (D.view disk.new) }
{
    for index in 0..slots.len() {
        write_unsynced(disk, slot_at(slots[index]), &[gate])?;
    }
    Ok(())
}

// The same, and a sync.
fn sync_gates<D: Disk>(disk: &mut D, slots: &[u32], gate: u8) -> Result<(), DiskFault>
    requires { AreApart (D.view disk.old).size slots.now }
    ensures { Writes (λ _. SameIn (NoGate slots.now)) (HaveGates gate (length slots.now) slots.now)
        (ending (λ _. WriteCall) result) (D.view disk.old) (D.view disk.new) }
{
    write_gates(disk, slots, gate)?;
    sync_all(disk)
}

// All bodies, and once these stand after a crash all gates.
fn write_containers<D: Disk>(
    disk: &mut D,
    slots: &[u32],
    id: u64,
    filled: &[OpenContainer],
    image: &mut [u8],
    digests: &mut [[u8; 32]],
) -> Result<(), DiskFault>
    requires { MaySealAll (D.view disk.old).size slots.now id filled.now image.old digests.old }
    ensures spelled { AreSpelled result (length slots.now) id filled.now image.new digests.new }
    ensures writes { Writes (SealsAll slots.now id filled.now) (AreSealed slots.now id filled.now)
        (ending (λ _. WriteCall) result) (D.view disk.old) (D.view disk.new) }
{
    sync_bodies(disk, slots, id, filled, image, digests)?;
    sync_gates(disk, slots, CONTAINER_GATE)
}

/// Writes containers to as many slots of the disk, each past the one before it, under ids from one on, and gives the digest of
/// each header. It makes two syncs: each container but its gate, a sync, the gates, a sync. `image` is a buffer of
/// `disk_format::SLOT_BYTES` bytes for their spellings; it holds one of them then.
///
/// Where it fails some of the containers may stand, whichever, each of them whole. The one error is `LogFault::DiskWrite`.
pub fn seal_all<D: Disk>(
    disk: &mut D,
    slots: &[u32],
    id: u64,
    filled: &[OpenContainer],
    image: &mut [u8],
    digests: &mut [[u8; 32]],
) -> Result<(), LogFault>
    requires { MaySealAll (D.view disk.old).size slots.now id filled.now image.old digests.old }
    ensures spelled { AreSpelled result (length slots.now) id filled.now image.new digests.new }
    ensures writes { Writes (SealsAll slots.now id filled.now) (AreSealed slots.now id filled.now)
        (ending blames result) (D.view disk.old) (D.view disk.new) }
    ensures fault { IfErr result (λ fault. fault ≡ DiskWrite) }
    ensures moves { (among : ByteSet) (store : Store) (files : Files) → HasNoCollisions (IsIn among)
        → MayPlace (IsIn among) (placed slots.now id filled.now)
        → CanPlace (last_id store.held) (placed slots.now id filled.now) store
        → Moves (step (Stands (IsIn among) store files) (StandsSome (IsIn among) (placed slots.now id filled.now) store files)
        (Stands (IsIn among) (with_all (placed slots.now id filled.now) store) files))
        (ending blames result) (D.view disk.old) (D.view disk.new) }
{
    match write_containers(disk, slots, id, filled, image, digests) {
        Ok(()) => Ok(()),
        Err(DiskFault) => Err(LogFault::DiskWrite),
    }
}

/// Writes a container under an id to a slot of the disk, and gives the digest of its header. `image` is a buffer of
/// `disk_format::SLOT_BYTES` bytes for its spelling, which it holds then, also where the write fails.
///
/// The gate is written once the bytes after it are on the disk. The one error is `LogFault::DiskWrite`.
pub fn seal<D: Disk>(
    disk: &mut D,
    slot: u32,
    id: u64,
    filled: &OpenContainer,
    image: &mut [u8],
) -> Result<[u8; 32], LogFault>
    requires place { slot_at slot + SLOT_BYTES ≤ (D.view disk.old).size }
    requires there { 1 ≤ length filled.now.segments }
    requires id { is_id id ≡ true }
    requires image { length image.old ≡ SLOT_BYTES }
    ensures image { image.new ≡ container_spelling id filled.now.kind filled.now.segments }
    ensures digest { IfOk result (λ digest. digest ≡ header_digest (header_of id filled.now.kind filled.now.segments)) }
    ensures whole { OnOk result (Known (D.view disk.old).content (λ given. KnownWith (D.view disk.new).content
        (Puts (slot_at slot) image.new given))) }
    ensures writes { Writes (Seals slot id filled.now.kind filled.now.segments) (IsSealed slot id filled.now.kind filled.now.segments)
        (ending blames result) (D.view disk.old) (D.view disk.new) }
    ensures fault { IfErr result (λ fault. fault ≡ DiskWrite) }
{
    let mut digest = [0u8; 32];
    seal_all(
        disk,
        &[slot],
        id,
        slice::from_ref(filled),
        image,
        slice::from_mut(&mut digest),
    )?;
    Ok(digest)
}

/// Closes slots of the disk with one sync: writes 0 over their gates, in their order. No slot may be named twice. Where it fails some
/// of them may be closed, whichever. The one error is `LogFault::DiskWrite`.
pub fn free_all<D: Disk>(disk: &mut D, slots: &[u32]) -> Result<(), LogFault>
    requires { AreApart (D.view disk.old).size slots.now }
    ensures writes { Writes (λ _. FreesAll slots.now) (AreFreed slots.now) (ending blames result) (D.view disk.old) (D.view disk.new) }
    ensures fault { IfErr result (λ fault. fault ≡ DiskWrite) }
{
    match sync_gates(disk, slots, 0) {
        Ok(()) => Ok(()),
        Err(DiskFault) => Err(LogFault::DiskWrite),
    }
}

/// Closes a slot of the disk: writes 0 over its gate. The one error is `LogFault::DiskWrite`.
pub fn free<D: Disk>(disk: &mut D, slot: u32) -> Result<(), LogFault>
    requires { slot_at slot + SLOT_BYTES ≤ (D.view disk.old).size }
    ensures whole { OnOk result (Known (D.view disk.old).content (λ given. KnownWith (D.view disk.new).content
        (Puts (slot_at slot) (0 ∷ []) given))) }
    ensures writes { Writes (λ _. Frees slot) (IsFreed slot) (ending blames result) (D.view disk.old) (D.view disk.new) }
    ensures fault { IfErr result (λ fault. fault ≡ DiskWrite) }
{
    free_all(disk, &[slot])
}

/// That what a crash leaves of containers that are sealed together is left of an image from before, or of what the disk gave, one
/// slot after the other, each closed or with its container; and that in the end each has it.
pub fn sealed_one_by_one()
    ensures some { (size id : ℕ) (slots : List ℕ) (filled : List Contents) (given image new : List ℕ) → AreSlots size slots
        → length filled ≡ length slots → length given ≡ size → length image ≡ size
        → ((i slot : ℕ) → slice_get slots i ≡ Some slot → HoldsSlot image slot None) → SealsAll slots id filled given image new
        → AreLeftSo IsLeft (placed slots id filled) image new ⊎ AreLeftSo IsLeft (placed slots id filled) given new }
    ensures all { (size id : ℕ) (slots : List ℕ) (filled : List Contents) (given new : List ℕ) → AreSlots size slots
        → length filled ≡ length slots → length given ≡ size → AreSealed slots id filled given new
        → AreLeftSo IsThere (placed slots id filled) given new }
{}

/// That slots which are closed together are closed one after the other: what a crash leaves of them meanwhile, each closed or not;
/// and in the end each is.
pub fn freed_one_by_one()
    ensures some { (size : ℕ) (slots : List ℕ) (old new : List ℕ) → AreApart size slots → length old ≡ size
        → FreesAll slots old new → OneByOne Frees slots old new }
    ensures all { (size : ℕ) (slots : List ℕ) (given new : List ℕ) → AreApart size slots → length given ≡ size
        → AreFreed slots given new → OneByOne IsFreed slots given new }
{}
