//! What a slot holds, read from the disk.
ghost use Rattle.std.specs.Prelude.{◌≡◌, ◌+◌, ◌≤◌, Option, length, vec_capacity, IfOk, IfErr, IfSome};
ghost use Rattle.base_model.specs.Bytes.{byte_at};
ghost use Rattle.disk_format.specs.declared.numbers.TheConstants.{CONTAINER_GATE, DATA_BYTES, HEADER_BYTES as HEADER_LENGTH, MOST_ENTRIES, SLOT_BYTES};
ghost use Rattle.disk_format.specs.Layout.{slot_at};
ghost use Rattle.dd_disk.specs.Ending.{ending, Reads, UnlessFailed};
ghost use Rattle.dd_disk.specs.Shows.{Shows};
ghost use Rattle.container_meta.specs.Spelling.{HeaderValue, IsHeader, header_digest, with_entries, held_with};
ghost use Rattle.store_model.specs.Slots.{HoldsSlot};
ghost use Rattle.container_log.specs.declared.fault.LogFault.TheVariants.{DiskRead};
ghost use Rattle.container_log.specs.Faults.{blames, fails, IsHeaderFault};
ghost use Rattle.container_log.specs.Inspecting.{copy_bytes};
ghost use Rattle.container_log.specs.Parts.{ReadAt};

use crate::fault::LogFault;
use crate::reading::{header_into, read_header};
use base_model::part;
use container_meta::{Entry, Header};
use dd_disk::{Disk, DiskFault, read_at};
use disk_format::{CONTAINER_GATE, HEADER_BYTES, slot_at};

/// Reads the gate of a slot.
pub(crate) fn read_gate<D: Disk>(disk: &mut D, slot: u32) -> Result<u8, LogFault>
    requires { slot_at slot + SLOT_BYTES ≤ (D.view disk.old).size }
    ensures shown { IfOk result (λ gate. Shows (D.view disk.old) (D.view disk.new) (λ image. byte_at (slot_at slot) image ≡ gate)) }
    ensures reads { Reads (ending blames result) (D.view disk.old) (D.view disk.new) }
    ensures fault { IfErr result (λ fault. fault ≡ DiskRead) }
{
    let mut gate = [0u8];
    match read_at(disk, slot_at(slot), &mut gate) {
        Ok(()) => Ok(gate[0]),
        Err(DiskFault) => Err(LogFault::DiskRead),
    }
}

/// The bytes of a copy, out of all bytes of its slot.
pub(crate) fn copy_in<'a>(entry: &Entry, bytes: &'a [u8]) -> &'a [u8]
    requires length { length bytes.now ≡ SLOT_BYTES }
    requires within { entry.now.offset + entry.now.length ≤ DATA_BYTES }
    ensures { result.now ≡ copy_bytes entry.now bytes.now }
{
    let from = HEADER_BYTES as usize + entry.offset as usize;
    part(bytes, from, entry.length as usize)
}

/// What a slot of the disk holds: nothing where its gate is closed, else its header; the entries go into a list that is given, in the place
/// of what it held. No memory is taken: `raw` is a buffer of `disk_format::HEADER_BYTES` for what is read, and `entries` has memory for
/// `disk_format::MOST_ENTRIES`.
///
/// It reads no more than 4,096 bytes, but of an open slot with more entries than end there, of which it reads the others. A header that
/// breaks the format is `LogFault::Damaged`, by the first check that fails in the order of docs/FORMAT.md, 'Container slot'; the other
/// error is `LogFault::DiskRead`. After an error `raw` and `entries` may hold anything.
pub fn read_slot<D: Disk>(
    disk: &mut D,
    slot: u32,
    raw: &mut [u8],
    entries: &mut Vec<Entry>,
) -> Result<Option<Header>, LogFault>
    requires place { slot_at slot + SLOT_BYTES ≤ (D.view disk.old).size }
    requires length { length raw.old ≡ HEADER_LENGTH }
    requires room { MOST_ENTRIES ≤ vec_capacity entries.old }
    ensures right { IfOk result (λ held. IfSome held (λ h. IsHeader (with_entries h entries.new.items))) }
    ensures digest { IfOk result (λ held. IfSome held (λ h. h.digest ≡ header_digest (with_entries h entries.new.items))) }
    ensures shown { IfOk result (λ held. Shows (D.view disk.old) (D.view disk.new)
        (λ image. HoldsSlot image slot (held_with held entries.new.items))) }
    // What the slot holds is answered, unless the disk fails.
    ensures only { Shows (D.view disk.old) (D.view disk.new) (λ image. (held : Option HeaderValue) → HoldsSlot image slot held
        → UnlessFailed fails (λ header. held ≡ held_with header entries.new.items) result) }
    ensures length { length raw.new ≡ HEADER_LENGTH }
    ensures room { vec_capacity entries.old ≤ vec_capacity entries.new }
    ensures reads { Reads (ending blames result) (D.view disk.old) (D.view disk.new) }
    ensures fault { IfErr result (IsHeaderFault (λ bytes. (byte_at 0 bytes ≡ CONTAINER_GATE)
        × ReadAt (D.view disk.old) (D.view disk.new) (slot_at slot) bytes) (slot_at slot)) }
{
    let count = read_header(disk, slot, raw)?;
    if raw[0] != CONTAINER_GATE {
        return Ok(None);
    }
    let header = header_into(slot_at(slot), &raw[..count], entries)?;
    Ok(Some(header))
}
