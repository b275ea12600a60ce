//! The format cell and the selectors, read from a disk.
ghost use Rattle.std.specs.Prelude.{◌≡◌, ◌≤◌, ◌+◌, ℕ, IfOk, IfErr, Ok, Err};
ghost use Rattle.base_model.specs.Bytes.{range};
ghost use Rattle.disk_format.specs.Cells.{SelectorValue, IsSelector, format_cell};
ghost use Rattle.disk_format.specs.Layout.{IsSlotCount};
ghost use Rattle.dd_disk.specs.Ending.{ending, Reads, UnlessFailed};
ghost use Rattle.dd_disk.specs.Shows.{Shows};
ghost use Rattle.store_model.specs.Journal.{HoldsSelector, IsOlder};
ghost use Rattle.journal_cells.specs.declared.fault.CellFault.TheVariants.{DiskRead};
ghost use Rattle.journal_cells.specs.Faults.{blames, fails, IsFormatBreak, IsSelectorBreak, IsReadFault};
ghost use Rattle.journal_cells.specs.Heads.{format_in as format_read, selection_of, AreSelectorCells, HoldsSelection};

use crate::device::{CELL, read_at};
use crate::fault::CellFault;
use crate::heads::{Selection, format_in, selectors_in};
use dd_disk::Disk;
use disk_format::{CELL_BYTES, LEAST_SIZE, selector_at};

/// The number of container slots, as the format cell says.
///
/// It reads the first 512 bytes. `NotAStore`, `Damaged` and `Version` come by the first check that fails, in the order
/// of docs/FORMAT.md, 'Cells'. It takes no memory.
pub fn slots_of<D: Disk>(disk: &mut D) -> Result<u32, CellFault>
    requires { LEAST_SIZE ≤ (D.view disk.old).size }
    ensures count { IfOk result IsSlotCount }
    ensures shown { IfOk result (λ slots. Shows (D.view disk.old) (D.view disk.new) (λ image.
        range 0 CELL_BYTES image ≡ format_cell slots)) }
    // What is spelled there is read, unless the disk fails.
    ensures only { Shows (D.view disk.old) (D.view disk.new) (λ image. (slots : ℕ) → IsSlotCount slots
        → range 0 CELL_BYTES image ≡ format_cell slots → UnlessFailed fails (λ n. n ≡ slots) result) }
    ensures cause { IfErr result (IsReadFault IsFormatBreak (λ fault. Shows (D.view disk.old) (D.view disk.new) (λ image.
        format_read (range 0 CELL_BYTES image) ≡ Err fault))) }
    ensures reads { Reads (ending blames result) (D.view disk.old) (D.view disk.new) }
{
    let mut cell = [0u8; CELL];
    read_at(disk, 0, &mut cell)?;
    format_in(&cell)
}

/// The bytes of both selectors.
pub(crate) fn read_both<D: Disk>(disk: &mut D) -> Result<([u8; CELL], [u8; CELL]), CellFault>
    requires { LEAST_SIZE ≤ (D.view disk.old).size }
    ensures shown { IfOk result (λ cells. Shows (D.view disk.old) (D.view disk.new) (AreSelectorCells cells.0 cells.1)) }
    ensures reads { Reads (ending blames result) (D.view disk.old) (D.view disk.new) }
    ensures cause { IfErr result (λ fault. fault ≡ DiskRead) }
{
    let mut first = [0u8; CELL];
    let mut second = [0u8; CELL];
    read_at(disk, selector_at(0), &mut first)?;
    read_at(disk, selector_at(1), &mut second)?;
    Ok((first, second))
}

/// What the selectors say: that of the half that counts, and whether the other one is open. It takes no memory.
pub(crate) fn read_selectors<D: Disk>(disk: &mut D) -> Result<Selection, CellFault>
    requires { LEAST_SIZE ≤ (D.view disk.old).size }
    ensures right { IfOk result (λ s. IsSelector s.selector) }
    ensures shown { IfOk result (λ s. Shows (D.view disk.old) (D.view disk.new) (HoldsSelection s)) }
    // What stands there is read, unless the disk fails.
    ensures only { Shows (D.view disk.old) (D.view disk.new) (λ image. (s : SelectorValue) → HoldsSelector image s
        → IsOlder image s → UnlessFailed fails (λ t. t.selector ≡ s) result) }
    ensures read { IfOk result (λ s. Shows (D.view disk.old) (D.view disk.new) (λ image. selection_of image ≡ Ok s)) }
    ensures cause { IfErr result (IsReadFault IsSelectorBreak (λ fault. Shows (D.view disk.old) (D.view disk.new) (λ image.
        selection_of image ≡ Err fault))) }
    ensures reads { Reads (ending blames result) (D.view disk.old) (D.view disk.new) }
{
    let (first, second) = read_both(disk)?;
    selectors_in(&first, &second)
}
