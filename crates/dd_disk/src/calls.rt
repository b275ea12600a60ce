//! The calls of a disk in the words of the layers above: what reads show, and what a write that fails leaves.
ghost use Rattle.std.specs.Prelude.{◌≡◌, ◌+◌, ◌≤◌, length, OnOk};
ghost use Rattle.base_model.specs.Bytes.{range};
ghost use Rattle.dd_disk.specs.View.{IsDurable};
ghost use Rattle.dd_disk.specs.Ending.{ReadCall, WriteCall, ending, Reads};
ghost use Rattle.dd_disk.specs.Shows.{Shows};
ghost use Rattle.dd_disk.specs.Writes.{Puts, Torn, Writes};
ghost use Rattle.dd_disk.specs.Gated.{TornFrom};
ghost use Rattle.dd_disk.specs.Wrote.{Wrote};

use crate::disk::{Disk, DiskFault};

/// Reads as many bytes as `into` has, from byte `at` of the disk on. The range lies in the disk.
///
/// Where the read fails the answer is `DiskFault`, and `into` has any bytes.
pub fn read_at<D: Disk>(disk: &mut D, at: u64, into: &mut [u8]) -> Result<(), DiskFault>
    requires { at + length into.old ≤ (D.view disk.old).size }
    ensures shown { OnOk result (Shows (D.view disk.old) (D.view disk.new) (λ image. range at (length into.old) image ≡ into.new)) }
    ensures reads { Reads (ending (λ _. ReadCall) result) (D.view disk.old) (D.view disk.new) }
{
    disk.read(at, into)
}

/// Has all that was written stand after a crash. Where the sync fails the answer is `DiskFault`; reads give what they
/// gave before, either way.
pub fn sync_all<D: Disk>(disk: &mut D) -> Result<(), DiskFault>
    ensures durable { OnOk result (IsDurable (D.view disk.new)) }
    ensures reads { Reads (ending (λ _. WriteCall) result) (D.view disk.old) (D.view disk.new) }
{
    disk.sync()
}

/// Writes the bytes of `from`, from byte `at` of the disk on, with no sync: until one is done a crash leaves any bytes in
/// the range. The range lies in the disk.
///
/// Where the write fails the answer is `DiskFault`, and reads give any bytes in the range.
pub fn write_unsynced<D: Disk>(disk: &mut D, at: u64, from: &[u8]) -> Result<(), DiskFault>
    requires { at + length from.now ≤ (D.view disk.old).size }
    ensures { Wrote (Torn at (length from.now)) (Puts at from.now) (ending (λ _. WriteCall) result)
        (D.view disk.old) (D.view disk.new) }
{
    disk.write(at, from)
}

/// Writes the bytes of `from`, from byte `at` of the disk on, and has them stand after a crash. The range lies in the disk.
///
/// Where the write or the sync fails the answer is `DiskFault`, and reads give any bytes in the range.
pub fn write_synced<D: Disk>(disk: &mut D, at: u64, from: &[u8]) -> Result<(), DiskFault>
    requires { at + length from.now ≤ (D.view disk.old).size }
    ensures { Writes (λ _. Torn at (length from.now)) (Puts at from.now) (ending (λ _. WriteCall) result)
        (D.view disk.old) (D.view disk.new) }
{
    disk.write(at, from)?;
    sync_all(disk)
}

/// Writes a cell whose first byte is its gate: the bytes after the gate, and the gate once they stand
/// after a crash. On `Ok` the gate does too. `at` is the gate's byte on the disk; the cell has a byte and lies in the disk.
///
/// Where a write or a sync fails the answer is `DiskFault`, and some bytes of the cell may have been written
/// (docs/ARCHITECTURE.md, 'How bytes flow').
pub fn write_gated<D: Disk>(disk: &mut D, at: u64, cell: &[u8]) -> Result<(), DiskFault>
    requires room { at + length cell.now ≤ (D.view disk.old).size }
    requires gate { 1 ≤ length cell.now }
    ensures { Writes (TornFrom at cell.now) (Puts at cell.now) (ending (λ _. WriteCall) result) (D.view disk.old) (D.view disk.new) }
{
    // The proof takes from this call that the content has the disk's size.
    let _size = disk.size();
    write_synced(disk, at + 1, &cell[1..])?;
    write_synced(disk, at, &cell[..1])
}
