//! The header of a container that a collection goes over: the one that the tables have for its slot.
ghost use Rattle.std.specs.Prelude.{◌≡◌, ◌+◌, ◌<◌, ◌≤◌, Some, length, IfOk, IfErr};
ghost use Rattle.base_model.specs.Checks.{passes};
ghost use Rattle.container_log.specs.Faults.{IsDamage};
ghost use Rattle.container_log.specs.Parts.{ReadAt};
ghost use Rattle.container_meta.specs.Format.{kind_byte};
ghost use Rattle.container_meta.specs.Spelling.{HeaderValue, IsHeader, header_digest, view};
ghost use Rattle.dd_disk.specs.Ending.{ending, Reads, UnlessFailed};
ghost use Rattle.dd_disk.specs.Shows.{Shows};
ghost use Rattle.disk_format.specs.Layout.{slot_at};
ghost use Rattle.disk_format.specs.declared.numbers.TheConstants.{SLOT_BYTES};
ghost use Rattle.store_model.specs.Slots.{HoldsSlot};
ghost use Rattle.store_state.specs.Refused.{blames, fails};
ghost use Rattle.copy_forward.specs.Headers.{header_checks, IsTabled, IsFormatRefusal, IsHeaderRefusal};

use container_log::{LogFault, read_meta};
use container_meta::{Kind, Meta};
use dd_disk::Disk;
use disk_format::{Why, slot_at};
use refusals::Refusal;
use std::alloc::Global;
use store_state::{SlotCount, SlotTable};

// A kind's number in headers.
fn number_of(kind: Kind) -> u64
    ensures { result ≡ kind_byte kind }
{
    match kind {
        Kind::Leaf => 0,
        Kind::Tree => 1,
    }
}

// Compares a header with what the tables have for its slot: the first field that differs, and where none does the digest.
fn compare(id: u64, count: &SlotCount, meta: &Meta) -> Result<(), Why>
    requires right { IsHeader (view meta.now) }
    requires digest { meta.now.digest ≡ header_digest (view meta.now) }
    ensures { result ≡ passes (header_checks id count.now (view meta.now)) }
{
    if meta.id != id {
        return Err(Why::Field {
            offset: 8,
            got: meta.id,
        });
    }
    let kind = number_of(meta.kind);
    if kind != number_of(count.kind) {
        return Err(Why::Field {
            offset: 16,
            got: kind,
        });
    }
    let entries = meta.entries.len() as u64;
    if entries != u64::from(count.entries) {
        return Err(Why::Field {
            offset: 18,
            got: entries,
        });
    }
    if meta.data_length != count.bytes {
        return Err(Why::Field {
            offset: 20,
            got: u64::from(meta.data_length),
        });
    }
    let want = count.digest;
    let got = meta.digest;
    if want != got {
        return Err(Why::Digest { want, got });
    }
    Ok(())
}

// The header and entries of the container in a slot, whichever they are.
fn read_any<D: Disk>(alloc: Global, disk: &mut D, slot: u32) -> Result<Meta, Refusal>
    requires { slot_at slot + SLOT_BYTES ≤ (D.view disk.old).size }
    ensures right { IfOk result (λ m. IsHeader (view m)) }
    ensures digest { IfOk result (λ m. m.digest ≡ header_digest (view m)) }
    ensures shown { IfOk result (λ m. Shows (D.view disk.old) (D.view disk.new) (λ image. HoldsSlot image slot (Some (view m)))) }
    ensures only { Shows (D.view disk.old) (D.view disk.new) (λ image. (h : HeaderValue) → HoldsSlot image slot (Some h)
        → UnlessFailed fails (λ m. view m ≡ h) result) }
    ensures refused { IfErr result (IsFormatRefusal (D.view disk.old) (D.view disk.new) slot) }
    ensures reads { Reads (ending blames result) (D.view disk.old) (D.view disk.new) }
{
    match read_meta(alloc, disk, slot) {
        Ok(meta) => Ok(meta),
        Err(LogFault::Memory) => Err(Refusal::Memory),
        Err(LogFault::DiskRead) => Err(Refusal::DiskRead),
        Err(LogFault::Damaged { at, why }) => Err(Refusal::Damaged { at, why }),
        // Nothing is written, and no segment is read.
        Err(LogFault::DiskWrite) => unreachable!(),
        Err(LogFault::Corrupt { .. }) => unreachable!(),
    }
}

/// The header and entries of the container in a slot: those that the tables have for it, by its id, its kind, the count of its
/// entries, the length of its data and its digest.
///
/// Refusals: `Memory`; `DiskRead`; `Damaged` for a header that breaks the format, by the first check that fails, and for another
/// header than that of the tables, by the first of these fields that differs, else by the digest.
pub fn read_header<D: Disk>(
    alloc: Global,
    disk: &mut D,
    held: &SlotTable,
    slot: u32,
) -> Result<Meta, Refusal>
    requires place { slot_at slot + SLOT_BYTES ≤ (D.view disk.old).size }
    requires ids { slot < length held.now.ids.items }
    requires counts { slot < length held.now.counts.items }
    ensures right { IfOk result (λ m. IsHeader (view m)) }
    ensures tabled { IfOk result (λ m. IsTabled held.now slot (view m)) }
    ensures shown { IfOk result (λ m. Shows (D.view disk.old) (D.view disk.new) (λ image. HoldsSlot image slot (Some (view m)))) }
    // Where the slot holds the header of the tables, it is answered, unless memory or the disk fails.
    ensures only { Shows (D.view disk.old) (D.view disk.new) (λ image. (h : HeaderValue) → HoldsSlot image slot (Some h)
        → IsTabled held.now slot h → UnlessFailed fails (λ m. view m ≡ h) result) }
    ensures refused { IfErr result (IsHeaderRefusal held.now (D.view disk.old) (D.view disk.new) slot) }
    ensures reads { Reads (ending blames result) (D.view disk.old) (D.view disk.new) }
{
    let meta = read_any(alloc, disk, slot)?;
    match compare(held.ids[slot as usize], &held.counts[slot as usize], &meta) {
        Ok(()) => Ok(meta),
        Err(why) => Err(Refusal::Damaged {
            at: slot_at(slot),
            why,
        }),
    }
}
