//! The calls of a disk, with its faults as those of cells.
ghost use Rattle.std.specs.Prelude.{◌≡◌, ◌+◌, ◌≤◌, length, OnOk, IfErr};
ghost use Rattle.base_model.specs.Bytes.{range};
ghost use Rattle.dd_disk.specs.Ending.{ending, Reads};
ghost use Rattle.dd_disk.specs.Gated.{TornFrom};
ghost use Rattle.dd_disk.specs.Shows.{Shows};
ghost use Rattle.dd_disk.specs.Writes.{Puts, Writes};
ghost use Rattle.journal_cells.specs.declared.fault.CellFault.TheVariants.{DiskRead, DiskWrite};
ghost use Rattle.journal_cells.specs.Faults.{blames};

use crate::fault::CellFault;
use dd_disk::{Disk, DiskFault, write_gated};
use disk_format::CELL_BYTES;

/// The bytes of a cell, as the length of an array.
pub(crate) const CELL: usize = CELL_BYTES as usize;

/// Reads as many bytes as `into` has.
pub(crate) fn read_at<D: Disk>(disk: &mut D, at: u64, into: &mut [u8]) -> Result<(), CellFault>
    requires { at + length into.old ≤ (D.view disk.old).size }
    ensures shown { OnOk result (Shows (D.view disk.old) (D.view disk.new) (λ image. range at (length into.old) image ≡ into.new)) }
    ensures reads { Reads (ending blames result) (D.view disk.old) (D.view disk.new) }
    ensures cause { IfErr result (λ fault. fault ≡ DiskRead) }
{
    match dd_disk::read_at(disk, at, into) {
        Ok(()) => Ok(()),
        Err(DiskFault) => Err(CellFault::DiskRead),
    }
}

/// Writes a cell, the bytes after its gate first.
pub(crate) fn write_cell<D: Disk>(disk: &mut D, at: u64, cell: &[u8]) -> Result<(), CellFault>
    requires room { at + length cell.now ≤ (D.view disk.old).size }
    requires gate { 1 ≤ length cell.now }
    ensures writes { Writes (TornFrom at cell.now) (Puts at cell.now) (ending blames result) (D.view disk.old) (D.view disk.new) }
    ensures cause { IfErr result (λ fault. fault ≡ DiskWrite) }
{
    match write_gated(disk, at, cell) {
        Ok(()) => Ok(()),
        Err(DiskFault) => Err(CellFault::DiskWrite),
    }
}
