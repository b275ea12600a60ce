//! Making an empty store.
ghost use Rattle.std.specs.Prelude.{◌≡◌, ◌≢◌, ◌⊎◌, List, ℕ, option_map, OnOk, IfErr};
ghost use Rattle.base_model.specs.Bytes.{byte_at, zeros};
ghost use Rattle.base_model.specs.Known.{Known, KnownWith};
ghost use Rattle.disk_format.specs.Layout.{IsSlotCount, size_of};
ghost use Rattle.disk_format.specs.Cells.{format_cell, selector_cell, first_selector};
ghost use Rattle.disk_format.specs.declared.numbers.TheConstants.{FORMAT_GATE as OPEN};
ghost use Rattle.dd_disk.specs.View.{OnlyReads, IsDurable, CrashLeaves};
ghost use Rattle.dd_disk.specs.Ending.{WriteCall, ending, CountsFault, Reads};
ghost use Rattle.dd_disk.specs.Shows.{Shows};
ghost use Rattle.dd_disk.specs.Writes.{Writes};
ghost use Rattle.dd_disk.specs.Moves.{Acts};
ghost use Rattle.store_model.specs.Image.{IsBlankOf};
ghost use Rattle.store_model.specs.Standing.{IsFormatted};
ghost use Rattle.store_state.specs.Refused.{blames};
ghost use Rattle.recovery.specs.Formatting.{IsBlankOrFormatted, IsLeftByFormat, IsFormatRefusal, StaysBlank, with_closed, laid_out};

use base_model::zeros;
use dd_disk::{Disk, DiskFault, read_at, sync_all, write_gated};
use disk_format::{FIRST_SELECTOR, FIRST_SLOT, FORMAT_GATE, VERSION, size_of, slot_at};
use journal_cells::{Selector, encode_format, encode_selector};
use refusals::Refusal;
use std::alloc::Global;

/// The bytes of the selectors and of the journal after them.
const BLANKS: usize = (FIRST_SLOT - FIRST_SELECTOR) as usize;

/// The selector of an empty store.
const FIRST: Selector = Selector {
    generation: 1,
    form: VERSION,
    half: 0,
    last: 0,
};

// Refuses a disk of another size than that of so many slots, and one that has a store.
fn may_format<D: Disk>(disk: &mut D, slots: u32) -> Result<(), Refusal>
    requires { IsSlotCount slots }
    ensures size { OnOk result ((D.view disk.old).size ≡ size_of slots) }
    ensures closed { OnOk result (Shows (D.view disk.old) (D.view disk.new) (λ image. byte_at 0 image ≢ OPEN)) }
    ensures reads { Reads (ending blames result) (D.view disk.old) (D.view disk.new) }
    ensures refused { IfErr result (IsFormatRefusal (Shows (D.view disk.old) (D.view disk.new)) (D.view disk.old).size slots) }
{
    let want = size_of(slots);
    let got = disk.size();
    if got != want {
        return Err(Refusal::WrongSize { want, got });
    }
    let mut gate = [0u8];
    match read_at(disk, 0, &mut gate) {
        Ok(()) => {}
        Err(DiskFault) => return Err(Refusal::DiskRead),
    }
    if gate[0] == FORMAT_GATE {
        return Err(Refusal::AlreadyStore);
    }
    Ok(())
}

// Closes each slot, whatever stands after its gate.
fn close_slots<D: Disk>(disk: &mut D, slots: u32) -> Result<(), DiskFault>
    requires { (D.view disk.old).size ≡ size_of slots }
    ensures ok { OnOk result ((D.view disk.new).content ≡ option_map (with_closed slots) (D.view disk.old).content) }
    ensures stays { StaysBlank slots (D.view disk.old) (D.view disk.new) }
    ensures faults { CountsFault (ending (λ _. WriteCall) result) (D.view disk.old).faults (D.view disk.new).faults }
{
    for slot in 0..slots {
        disk.write(slot_at(slot), &[0])?;
    }
    Ok(())
}

// Writes all of an empty store but its format cell. The selectors and the journal are zeros before a selector is
// open, so that it never selects an older store's records.
fn lay_out<D: Disk>(
    disk: &mut D,
    slots: u32,
    blanks: &[u8],
    selector: &[u8],
) -> Result<(), DiskFault>
    requires size { (D.view disk.old).size ≡ size_of slots }
    requires blanks { blanks.now ≡ zeros BLANKS }
    requires selector { selector.now ≡ selector_cell first_selector }
    ensures ok { OnOk result ((D.view disk.new).content ≡ option_map (laid_out slots) (D.view disk.old).content) }
    ensures stays { StaysBlank slots (D.view disk.old) (D.view disk.new) }
    ensures faults { CountsFault (ending (λ _. WriteCall) result) (D.view disk.old).faults (D.view disk.new).faults }
{
    disk.write(FIRST_SELECTOR, blanks)?;
    close_slots(disk, slots)?;
    disk.write(FIRST_SELECTOR, selector)
}

// Writes an empty store on a disk that has none, where no crash leaves one. The disk is a store from the format cell's
// gate on, and has no other way to become one.
fn write_cells<D: Disk>(
    disk: &mut D,
    slots: u32,
    blanks: &[u8],
    selector: &[u8],
    cell: &[u8],
) -> Result<(), DiskFault>
    requires count { IsSlotCount slots }
    requires size { (D.view disk.old).size ≡ size_of slots }
    requires blank { Known (D.view disk.old).content (λ _. (c : List ℕ) → (D.view disk.old).images c → IsBlankOf slots c) }
    requires blanks { blanks.now ≡ zeros BLANKS }
    requires selector { selector.now ≡ selector_cell first_selector }
    requires cell { cell.now ≡ format_cell slots }
    ensures { Writes (λ _ _. IsBlankOrFormatted slots) (λ _. IsFormatted slots) (ending (λ _. WriteCall) result)
        (D.view disk.old) (D.view disk.new) }
{
    lay_out(disk, slots, blanks, selector)?;
    write_gated(disk, 0, cell)
}

// Writes an empty store on a disk that has none. The sync before the first write has a crash leave none either: after
// an older write of a gate that failed, the gate may be read as closed and stand open after a crash.
fn write_store<D: Disk>(
    disk: &mut D,
    slots: u32,
    blanks: &[u8],
    selector: &[u8],
    cell: &[u8],
) -> Result<(), DiskFault>
    requires count { IsSlotCount slots }
    requires size { (D.view disk.old).size ≡ size_of slots }
    requires blank { Known (D.view disk.old).content (IsBlankOf slots) }
    requires blanks { blanks.now ≡ zeros BLANKS }
    requires selector { selector.now ≡ selector_cell first_selector }
    requires cell { cell.now ≡ format_cell slots }
    ensures writes { Writes (λ _ _. IsBlankOrFormatted slots) (λ _. IsFormatted slots) (ending (λ _. WriteCall) result)
        (D.view disk.old) (D.view disk.new) }
    ensures left { Known (D.view disk.old).content (λ _. KnownWith (D.view disk.new).content (IsBlankOrFormatted slots)) }
{
    sync_all(disk)?;
    write_cells(disk, slots, blanks, selector, cell)
}

/// Makes an empty store of so many slots, on a disk of their size that has none.
///
/// Refusals, in the order in which they come: `WrongSize`; `DiskRead`; `AlreadyStore`; `Memory`; `DiskWrite`. All but the
/// last leave the disk as it was.
pub fn format<D: Disk>(alloc: Global, disk: &mut D, slots: u32) -> Result<(), Refusal>
    requires { IsSlotCount slots }
    ensures done { OnOk result (((D.view disk.old).size ≡ size_of slots)
        × Shows (D.view disk.old) (D.view disk.new) (λ image. byte_at 0 image ≢ OPEN)) }
    ensures stands { OnOk result (Known (D.view disk.old).content (λ _. KnownWith (D.view disk.new).content (IsFormatted slots))) }
    ensures durable { OnOk result (IsDurable (D.view disk.new)) }
    // What a disk that fails in the middle leaves.
    ensures left { Known (D.view disk.old).content (λ image. KnownWith (D.view disk.new).content (IsLeftByFormat slots image)) }
    // What a crash leaves at any moment: an image from the start, no store, or an empty one.
    ensures crash { Known (D.view disk.old).content (λ _. CrashLeaves (λ c. (D.view disk.old).images c ⊎ IsBlankOrFormatted slots c)
        (D.view disk.old) (D.view disk.new)) }
    ensures disk { Acts (ending blames result) (D.view disk.old) (D.view disk.new) }
    // A disk that is known to have a store is only read.
    ensures store { Known (D.view disk.old).content (λ image. byte_at 0 image ≡ OPEN → OnlyReads (D.view disk.old) (D.view disk.new)) }
    ensures refused { IfErr result (IsFormatRefusal (Shows (D.view disk.old) (D.view disk.new)) (D.view disk.old).size slots) }
{
    may_format(disk, slots)?;
    // All memory before the first write, so that want of it leaves the disk as it was.
    let blanks = zeros(alloc, BLANKS)?;
    let selector = encode_selector(alloc, &FIRST)?;
    let cell = encode_format(alloc, slots)?;
    match write_store(disk, slots, &blanks, &selector, &cell) {
        Ok(()) => Ok(()),
        Err(DiskFault) => Err(Refusal::DiskWrite),
    }
}
