//! Segments and headers read from their slots.
ghost use Rattle.std.specs.Prelude.{◌≡◌, ◌+◌, ◌-◌, ◌≤◌, List, ℕ, length, take, drop, vec_capacity, Some, OnOk, IfOk, IfErr};
ghost use Rattle.sha2.specs.Sha256.{sha256};
ghost use Rattle.base_model.specs.Bytes.{range};
ghost use Rattle.disk_format.specs.declared.numbers.TheConstants.{HEADER_BYTES, MOST_ENTRIES, SLOT_BYTES};
ghost use Rattle.disk_format.specs.Layout.{slot_at, data_at};
ghost use Rattle.dd_disk.specs.Ending.{ending, Reads, UnlessFailed};
ghost use Rattle.dd_disk.specs.Shows.{Shows};
ghost use Rattle.container_meta.specs.Spelling.{HeaderValue, IsHeader, IsSpelled, view, with_entries, header_digest};
ghost use Rattle.container_meta.specs.Reading.{ReachEnd};
ghost use Rattle.store_model.specs.Slots.{HoldsSlot};
ghost use Rattle.container_log.specs.declared.fault.LogFault.TheVariants.{Corrupt, DiskRead};
ghost use Rattle.container_log.specs.Faults.{blames, fails, OrMemory, why_of as named_by, IsDecodeFault, IsHeaderFault, IsSegmentFault};
ghost use Rattle.container_log.specs.Parts.{segment_bytes, ReadAs, ReadAt};

use crate::fault::LogFault;
use base_model::seven_at;
use container_meta::{Entry, Header, Meta, MetaFault, decode, decode_into, header_end};
use dd_disk::{Disk, DiskFault, read_at};
use digests::TakesDigests;
use disk_format::{HEADER_BYTES, Why, data_at, slot_at};
use std::alloc::{AllocError, Global};

// How many bytes of a header are read first: most end there.
const FIRST_READ: usize = 4_096;

/// Where a segment lies, and its digest.
#[derive(Clone, Copy)]
pub struct Spot {
    pub slot: u32,
    /// The first byte, counted from the slot's data section.
    pub offset: u32,
    /// How many bytes.
    pub length: u32,
    /// The SHA-256 of the bytes.
    pub digest: [u8; 32],
}

// The error that says that a segment's bytes have another digest.
fn corrupt(place: &Spot, got: [u8; 32]) -> LogFault
    ensures { result ≡ Corrupt place.now.slot place.now.offset place.now.length place.now.digest got }
{
    LogFault::Corrupt {
        slot: place.slot,
        offset: place.offset,
        length: place.length,
        want: place.digest,
        got,
    }
}

// Reads a segment's bytes and checks them.
fn read_whole<D: Disk, H: TakesDigests>(
    disk: &mut D,
    digests: &mut H,
    place: &Spot,
    into: &mut [u8],
) -> Result<(), LogFault>
    requires place { data_at place.now.slot + place.now.offset + place.now.length ≤ (D.view disk.old).size }
    requires length { length into.old ≡ place.now.length }
    ensures digest { OnOk result (sha256 into.new ≡ place.now.digest) }
    ensures shown { OnOk result (ReadAs (D.view disk.old) (D.view disk.new) (segment_bytes place.now) into.new) }
    ensures reads { Reads (ending blames result) (D.view disk.old) (D.view disk.new) }
    ensures fault { IfErr result (IsSegmentFault (ReadAs (D.view disk.old) (D.view disk.new) (segment_bytes place.now)) place.now) }
{
    match read_at(disk, data_at(place.slot) + u64::from(place.offset), into) {
        Ok(()) => {}
        Err(DiskFault) => return Err(LogFault::DiskRead),
    }
    let got = digests.digest(into);
    if got != place.digest {
        return Err(corrupt(place, got));
    }
    Ok(())
}

/// Reads a segment into the first bytes of `buf`, as many as it has, and leaves the others.
///
/// Bytes of another digest are `LogFault::Corrupt`, and then, as where the read fails, `buf` has any bytes.
/// It takes no memory.
pub fn read_segment<D: Disk, H: TakesDigests>(
    disk: &mut D,
    digests: &mut H,
    place: &Spot,
    buf: &mut [u8],
) -> Result<(), LogFault>
    requires place { data_at place.now.slot + place.now.offset + place.now.length ≤ (D.view disk.old).size }
    requires room { place.now.length ≤ length buf.old }
    // On any disk, whatever it gives.
    ensures digest { OnOk result (sha256 (take place.now.length buf.new) ≡ place.now.digest) }
    ensures shown { OnOk result (ReadAs (D.view disk.old) (D.view disk.new) (segment_bytes place.now) (take place.now.length buf.new)) }
    ensures rest { drop place.now.length buf.new ≡ drop place.now.length buf.old }
    ensures reads { Reads (ending blames result) (D.view disk.old) (D.view disk.new) }
    ensures fault { IfErr result (IsSegmentFault (ReadAs (D.view disk.old) (D.view disk.new) (segment_bytes place.now)) place.now) }
{
    let length = place.length as usize;
    read_whole(disk, digests, place, &mut buf[..length])
}

// How a header breaks the format, by its first fault; none where memory ran out.
pub(crate) fn why_of(bytes: &[u8], fault: MetaFault) -> Option<Why>
    requires { ReachEnd bytes.now }
    ensures { result ≡ named_by bytes.now fault }
{
    match fault {
        MetaFault::Gate(gate) => Some(Why::Field {
            offset: 0,
            got: u64::from(gate),
        }),
        MetaFault::Magic => Some(Why::Field {
            offset: 1,
            got: seven_at(bytes, 1),
        }),
        MetaFault::Field { offset, got } => Some(Why::Field { offset, got }),
        MetaFault::Digest { want, got } => Some(Why::Digest { want, got }),
        MetaFault::Memory => None,
    }
}

// The header in bytes that stand at a byte of the disk. Its entries go into a list that is given.
#[tactic(auto, using(crate::proofs::Differ::fault_differs, crate::proofs::Differ::fault_is_named))]
pub(crate) fn header_into(
    at: u64,
    bytes: &[u8],
    entries: &mut Vec<Entry>,
) -> Result<Header, LogFault>
    requires length { ReachEnd bytes.now }
    requires within { length bytes.now ≤ HEADER_BYTES }
    requires room { MOST_ENTRIES ≤ vec_capacity entries.old }
    ensures found { IfOk result (λ h. IsSpelled (with_entries h entries.new.items) bytes.now) }
    ensures digest { IfOk result (λ h. h.digest ≡ header_digest (with_entries h entries.new.items)) }
    ensures only { (h : HeaderValue) → IsSpelled h bytes.now
        → UnlessFailed fails (λ header. with_entries header entries.new.items ≡ h) result }
    ensures room { vec_capacity entries.old ≤ vec_capacity entries.new }
    ensures fault { IfErr result (IsDecodeFault bytes.now at) }
{
    match decode_into(bytes, entries) {
        Ok(header) => Ok(header),
        Err(fault) => match why_of(bytes, fault) {
            Some(why) => Err(LogFault::Damaged { at, why }),
            // Where no memory is taken, none is wanted.
            None => unreachable!(),
        },
    }
}

// The header in bytes that stand at a byte of the disk.
#[tactic(auto, using(crate::proofs::Differ::fault_differs))]
fn header_in(alloc: Global, at: u64, bytes: &[u8]) -> Result<Meta, LogFault>
    requires length { ReachEnd bytes.now }
    requires within { length bytes.now ≤ HEADER_BYTES }
    ensures found { IfOk result (λ m. IsSpelled (view m) bytes.now) }
    ensures digest { IfOk result (λ m. m.digest ≡ header_digest (view m)) }
    ensures only { (h : HeaderValue) → IsSpelled h bytes.now → UnlessFailed fails (λ m. view m ≡ h) result }
    ensures fault { IfErr result (OrMemory (IsDecodeFault bytes.now at)) }
{
    match decode(alloc, bytes) {
        Ok(meta) => Ok(meta),
        Err(fault) => match why_of(bytes, fault) {
            Some(why) => Err(LogFault::Damaged { at, why }),
            None => Err(LogFault::Memory),
        },
    }
}

// Room for all that is read of a header.
fn buffer(alloc: Global) -> Result<Vec<u8>, AllocError>
    ensures { IfOk result (λ bytes. length bytes.items ≡ HEADER_BYTES) }
{
    vec![in alloc; 0u8; HEADER_BYTES as usize]
}

// Fills a part of a buffer with the bytes that stand at a byte of the disk.
fn read_part<D: Disk>(disk: &mut D, at: u64, into: &mut [u8]) -> Result<(), LogFault>
    requires { at + length into.old ≤ (D.view disk.old).size }
    ensures length { length into.new ≡ length into.old }
    ensures shown { OnOk result (ReadAt (D.view disk.old) (D.view disk.new) at into.new) }
    ensures reads { Reads (ending blames result) (D.view disk.old) (D.view disk.new) }
    ensures fault { IfErr result (λ fault. fault ≡ DiskRead) }
{
    match read_at(disk, at, into) {
        Ok(()) => Ok(()),
        Err(DiskFault) => Err(LogFault::DiskRead),
    }
}

// Reads what a header has after its first bytes, which stand in the buffer, up to its end.
fn read_more<D: Disk>(disk: &mut D, slot: u32, raw: &mut [u8], end: usize) -> Result<(), LogFault>
    requires place { slot_at slot + SLOT_BYTES ≤ (D.view disk.old).size }
    requires length { length raw.old ≡ HEADER_BYTES }
    requires end { (4096 ≤ end) × (end ≤ HEADER_BYTES) }
    ensures length { length raw.new ≡ HEADER_BYTES }
    ensures first { take 4096 raw.new ≡ take 4096 raw.old }
    ensures shown { OnOk result (ReadAt (D.view disk.old) (D.view disk.new) (slot_at slot + 4096)
        (range 4096 (end - 4096) raw.new)) }
    ensures reads { Reads (ending blames result) (D.view disk.old) (D.view disk.new) }
    ensures fault { IfErr result (λ fault. fault ≡ DiskRead) }
{
    read_part(
        disk,
        slot_at(slot) + FIRST_READ as u64,
        &mut raw[FIRST_READ..end],
    )
}

/// Reads the header in a slot into a buffer of `disk_format::HEADER_BYTES`: its first bytes, and the others only where it has more
/// entries than these hold. It answers how many it read.
pub(crate) fn read_header<D: Disk>(
    disk: &mut D,
    slot: u32,
    raw: &mut [u8],
) -> Result<usize, LogFault>
    requires place { slot_at slot + SLOT_BYTES ≤ (D.view disk.old).size }
    requires length { length raw.old ≡ HEADER_BYTES }
    ensures length { length raw.new ≡ HEADER_BYTES }
    ensures count { IfOk result (λ count. count ≤ HEADER_BYTES) }
    ensures reach { IfOk result (λ count. ReachEnd (take count raw.new)) }
    ensures shown { IfOk result (λ count. ReadAt (D.view disk.old) (D.view disk.new) (slot_at slot) (take count raw.new)) }
    ensures reads { Reads (ending blames result) (D.view disk.old) (D.view disk.new) }
    ensures fault { IfErr result (λ fault. fault ≡ DiskRead) }
{
    read_part(disk, slot_at(slot), &mut raw[..FIRST_READ])?;
    let end = header_end(raw);
    if end <= FIRST_READ {
        return Ok(FIRST_READ);
    }
    read_more(disk, slot, raw, end)?;
    Ok(end)
}

/// Reads the header and entries of the container in a slot of the disk.
///
/// A header that breaks the format is `LogFault::Damaged`, by the first check that fails in the order of docs/FORMAT.md,
/// 'Container slot'; so is a slot whose gate is closed. The other errors are `LogFault::DiskRead` and `LogFault::Memory`.
pub fn read_meta<D: Disk>(alloc: Global, disk: &mut D, slot: u32) -> Result<Meta, LogFault>
    requires { slot_at slot + SLOT_BYTES ≤ (D.view disk.old).size }
    ensures right { IfOk result (λ m. IsHeader (view m)) }
    ensures digest { IfOk result (λ m. m.digest ≡ header_digest (view m)) }
    ensures shown { IfOk result (λ m. Shows (D.view disk.old) (D.view disk.new) (λ image. HoldsSlot image slot (Some (view m)))) }
    // The header that the slot holds is answered, unless memory or the disk fails.
    ensures only { Shows (D.view disk.old) (D.view disk.new) (λ image.
        (h : HeaderValue) → HoldsSlot image slot (Some h) → UnlessFailed fails (λ m. view m ≡ h) result) }
    ensures reads { Reads (ending blames result) (D.view disk.old) (D.view disk.new) }
    ensures fault { IfErr result (OrMemory (IsHeaderFault (ReadAt (D.view disk.old) (D.view disk.new) (slot_at slot)) (slot_at slot))) }
{
    let mut buffer = buffer(alloc)?;
    let raw = buffer.as_mut_slice();
    let count = read_header(disk, slot, raw)?;
    header_in(alloc, slot_at(slot), &raw[..count])
}
