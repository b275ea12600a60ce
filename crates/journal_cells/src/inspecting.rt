//! The cells of a disk, inspected: docs/FORMAT.md, 'Check'.
ghost use Rattle.std.specs.Prelude.{◌≡◌, ◌+◌, ◌-◌, ◌<◌, ◌≤◌, Bool, suc, length, if◌then◌else◌, OnOk, IfOk, IfErr};
ghost use Rattle.dd_disk.specs.Ending.{ending, Reads};
ghost use Rattle.disk_format.specs.declared.numbers.TheConstants.{CELL_BYTES};
ghost use Rattle.disk_format.specs.Layout.{half_cells};
ghost use Rattle.inspection.specs.Found.{nothing};
ghost use Rattle.inspection.specs.Handing.{blames, Reports, Stops, Finds, StopsAmong};
ghost use Rattle.inspection.specs.declared.halt.Halt.TheVariants.{Memory, Untaken};
ghost use Rattle.journal_cells.specs.Heads.{selectors_in as selections_in, selector_in as selector_read};
ghost use Rattle.journal_cells.specs.Records.{nothing_yet, record_in as record_read};
ghost use Rattle.journal_cells.specs.Scanning.{replay};
ghost use Rattle.journal_cells.specs.Inspecting.{
  damage_of as damage_named,
  damage_in,
  is_open as is_open_selector,
  right_one as right_selector,
  none_open as none_is_open,
  selector_found,
  selectors_found,
  says_half as says_this_half,
  after_cell,
  past_found,
  records_found,
  half_found,
  halves_found,
  journal_found,
};

use crate::device::CELL;
use crate::fault::CellFault;
use crate::heads::{Selector, selector_in, selectors_in};
use crate::opening::read_both;
use crate::record::{check_own, read_value, record_in};
use crate::scanning::{Replayed, check_closed};
use dd_disk::{Disk, DiskFault, read_at};
use dd_io::Sink;
use disk_format::{HALF_CELLS, LEAST_SIZE, RECORD_GATE, SELECTOR_GATE, Why, cell_at, selector_at};
use inspection::{Damage, Halt, SpellsDamage, Tally, add_cell, hand_on};
use namespace::NameFault;
use std::alloc::Global;

// How the fault of a cell is named.
fn damage_of(at: u64, fault: CellFault) -> Option<Damage>
    ensures { result ≡ damage_named at fault }
{
    match fault {
        CellFault::Damaged { at, why } => Some(Damage::Cell { at, why }),
        CellFault::Version { n } => Some(Damage::Cell {
            at,
            why: Why::Field {
                offset: 16,
                got: u64::from(n),
            },
        }),
        _ => None,
    }
}

// ---- selectors

fn is_open(selector: &[u8]) -> bool
    requires { length selector.now ≡ CELL_BYTES }
    ensures { result ≡ is_open_selector selector.now }
{
    selector[0] == SELECTOR_GATE
}

// A selector that is open is counted, and its damage handed on. One that is right is answered.
#[tactic(auto, unfolding(crate::specs::Inspecting::selector_found, crate::specs::Heads::selector_in))]
fn inspect_selector<K: Sink, S: SpellsDamage>(
    sink: &mut K,
    tally: &mut Tally,
    half: u8,
    before: &Option<Selector>,
    cell: &[u8],
) -> Result<Option<Selector>, Halt>
    requires half { half ≤ 1 }
    requires length { length cell.now ≡ CELL_BYTES }
    ensures right { IfOk result (λ right. right ≡ right_selector (selector_read half before.now cell.now)) }
    ensures done { OnOk result (Reports S.line (selector_found half before.now cell.now) (K.view sink.old) (K.view sink.new)
        tally.old tally.new) }
    ensures halt { IfErr result (λ halt. (halt ≡ Untaken)
        × Stops S.line (selector_found half before.now cell.now) (K.view sink.old) (K.view sink.new) halt) }
{
    if !is_open(cell) {
        return Ok(None);
    }
    match selector_in(half, before, cell) {
        Ok(right) => {
            add_cell::<K, S>(sink, tally, &None)?;
            Ok(right)
        }
        Err(fault) => {
            add_cell::<K, S>(sink, tally, &damage_of(selector_at(half), fault))?;
            Ok(None)
        }
    }
}

// That no selector is open.
fn none_open(first: &[u8], second: &[u8]) -> Option<Damage>
    requires first { length first.now ≡ CELL_BYTES }
    requires second { length second.now ≡ CELL_BYTES }
    ensures { result ≡ none_is_open first.now second.now }
{
    if is_open(first) || is_open(second) {
        return None;
    }
    Some(Damage::Cell {
        at: selector_at(0),
        why: Why::Field {
            offset: 0,
            got: u64::from(first[0]),
        },
    })
}

// Both selectors, by their bytes.
fn inspect_selectors<K: Sink, S: SpellsDamage>(
    sink: &mut K,
    tally: &mut Tally,
    first: &[u8],
    second: &[u8],
) -> Result<(), Halt>
    requires first { length first.now ≡ CELL_BYTES }
    requires second { length second.now ≡ CELL_BYTES }
    ensures done { OnOk result (Reports S.line (selectors_found first.now second.now) (K.view sink.old) (K.view sink.new)
        tally.old tally.new) }
    ensures halt { IfErr result (λ halt. (halt ≡ Untaken)
        × Stops S.line (selectors_found first.now second.now) (K.view sink.old) (K.view sink.new) halt) }
{
    let one = inspect_selector::<K, S>(sink, tally, 0, &None, first)?;
    inspect_selector::<K, S>(sink, tally, 1, &one, second)?;
    hand_on::<K, S>(sink, tally, &none_open(first, second))
}

// Whether a half counts, as both selectors say, where they are right.
fn says_half(half: u8, first: &[u8], second: &[u8]) -> bool
    requires first { length first.now ≡ CELL_BYTES }
    requires second { length second.now ≡ CELL_BYTES }
    ensures { result ≡ says_this_half half (selections_in first.now second.now) }
{
    match selectors_in(first, second) {
        Ok(selection) => selection.selector.half == half,
        Err(_) => false,
    }
}

// ---- the records of a half

// The damage of the record in an open cell after others.
fn damage_at(alloc: Global, at: u64, before: &Replayed, cell: &[u8]) -> Result<Option<Damage>, Halt>
    requires { length cell.now ≡ CELL_BYTES }
    ensures damage { IfOk result (λ damage.
        damage ≡ damage_in at (record_read at (replay before.now).previous (replay before.now).names cell.now)) }
    ensures halt { IfErr result (λ halt. halt ≡ Memory) }
{
    match record_in(alloc, at, before.previous, &before.names, cell) {
        Ok(_) => Ok(None),
        Err(CellFault::Memory) => Err(Halt::Memory),
        Err(fault) => Ok(damage_of(at, fault)),
    }
}

impl Replayed {
    // Takes the record of one more cell, where that keeps its own rules; the names take it where they have a place for it.
    fn pass(&mut self, alloc: Global, at: u64, cell: &[u8]) -> Result<(), Halt>
        requires room { self.old.count < HALF_CELLS }
        requires length { length cell.now ≡ CELL_BYTES }
        ensures passed { OnOk result (replay self.new ≡ after_cell at (replay self.old) cell.now) }
        ensures halt { IfErr result (λ halt. halt ≡ Memory) }
    {
        self.count += 1;
        match check_own(at, cell) {
            Ok(()) => {}
            Err(_) => return Ok(()),
        }
        let value = read_value(alloc, cell)?;
        self.previous = value.sequence;
        match self.names.apply(&value) {
            Ok(()) => Ok(()),
            Err(fault) => match fault {
                NameFault::Memory => Err(Halt::Memory),
                _ => Ok(()),
            },
        }
    }
}

// The record in the next cell of a half, where that is open: it is counted, its damage handed on, and replayed.
fn inspect_next<D: Disk, K: Sink, S: SpellsDamage>(
    alloc: Global,
    disk: &mut D,
    sink: &mut K,
    tally: &mut Tally,
    half: u8,
    before: &mut Replayed,
) -> Result<bool, Halt>
    requires half { half ≤ 1 }
    requires room { before.old.count < HALF_CELLS }
    requires size { LEAST_SIZE ≤ (D.view disk.old).size }
    ensures counted { IfOk result (λ more. before.new.count ≡ (if more then suc before.old.count else before.old.count)) }
    ensures found { IfOk result (λ more. (counts : Bool) → Finds S.line
        (records_found half counts (half_cells - before.old.count) (replay before.old))
        (if more then records_found half counts (half_cells - before.new.count) (replay before.new)
        else past_found half counts before.new.count)
        (D.view disk.old) (D.view disk.new) (K.view sink.old, tally.old) (K.view sink.new, tally.new)) }
    ensures stopped { IfErr result (λ halt. (counts : Bool) → StopsAmong S.line
        (records_found half counts (half_cells - before.old.count) (replay before.old))
        (D.view disk.old) (D.view disk.new) (K.view sink.old) (K.view sink.new) halt) }
    ensures reads { Reads (ending blames result) (D.view disk.old) (D.view disk.new) }
{
    let mut cell = [0u8; CELL];
    let at = cell_at(half, before.count);
    match read_at(disk, at, &mut cell) {
        Ok(()) => {}
        Err(DiskFault) => return Err(Halt::DiskRead),
    }
    if cell[0] != RECORD_GATE {
        return Ok(false);
    }
    let damage = damage_at(alloc, at, before, &cell)?;
    before.pass(alloc, at, &cell)?;
    add_cell::<K, S>(sink, tally, &damage)?;
    Ok(true)
}

// The records of a half up to its first closed cell. It answers how many cells they have.
fn inspect_records<D: Disk, K: Sink, S: SpellsDamage>(
    alloc: Global,
    disk: &mut D,
    sink: &mut K,
    tally: &mut Tally,
    half: u8,
) -> Result<u32, Halt>
    requires half { half ≤ 1 }
    requires size { LEAST_SIZE ≤ (D.view disk.old).size }
    ensures few { IfOk result (λ count. count ≤ half_cells) }
    ensures found { IfOk result (λ count. (counts : Bool) → Finds S.line
        (records_found half counts half_cells nothing_yet) (past_found half counts count)
        (D.view disk.old) (D.view disk.new) (K.view sink.old, tally.old) (K.view sink.new, tally.new)) }
    ensures stopped { IfErr result (λ halt. (counts : Bool) → StopsAmong S.line (records_found half counts half_cells nothing_yet)
        (D.view disk.old) (D.view disk.new) (K.view sink.old) (K.view sink.new) halt) }
    ensures reads { Reads (ending blames result) (D.view disk.old) (D.view disk.new) }
{
    let mut before = Replayed::new(alloc);
    for _ in 0..HALF_CELLS {
        if !inspect_next::<D, K, S>(alloc, disk, sink, tally, half, &mut before)? {
            return Ok(before.count);
        }
    }
    Ok(before.count)
}

// Whether a cell past the records of a half is open, where the half counts.
fn inspect_past<D: Disk, K: Sink, S: SpellsDamage>(
    disk: &mut D,
    sink: &mut K,
    tally: &mut Tally,
    half: u8,
    counts: bool,
    from: u32,
) -> Result<(), Halt>
    requires half { half ≤ 1 }
    requires within { from ≤ HALF_CELLS }
    requires size { LEAST_SIZE ≤ (D.view disk.old).size }
    ensures found { OnOk result (Finds S.line (past_found half counts from) (λ image. nothing)
        (D.view disk.old) (D.view disk.new) (K.view sink.old, tally.old) (K.view sink.new, tally.new)) }
    ensures stopped { IfErr result (StopsAmong S.line (past_found half counts from)
        (D.view disk.old) (D.view disk.new) (K.view sink.old) (K.view sink.new)) }
    ensures reads { Reads (ending blames result) (D.view disk.old) (D.view disk.new) }
{
    if !counts {
        return Ok(());
    }
    match check_closed(disk, half, from) {
        Ok(()) => Ok(()),
        Err(fault) => match fault {
            CellFault::DiskRead => Err(Halt::DiskRead),
            _ => add_cell::<K, S>(sink, tally, &damage_of(0, fault)),
        },
    }
}

// The records of a half whose selector is open, and what is past them.
fn inspect_half<D: Disk, K: Sink, S: SpellsDamage>(
    alloc: Global,
    disk: &mut D,
    sink: &mut K,
    tally: &mut Tally,
    half: u8,
    selector: &[u8],
    counts: bool,
) -> Result<(), Halt>
    requires half { half ≤ 1 }
    requires length { length selector.now ≡ CELL_BYTES }
    requires size { LEAST_SIZE ≤ (D.view disk.old).size }
    ensures found { OnOk result (Finds S.line (half_found half selector.now counts) (λ image. nothing)
        (D.view disk.old) (D.view disk.new) (K.view sink.old, tally.old) (K.view sink.new, tally.new)) }
    ensures stopped { IfErr result (StopsAmong S.line (half_found half selector.now counts)
        (D.view disk.old) (D.view disk.new) (K.view sink.old) (K.view sink.new)) }
    ensures reads { Reads (ending blames result) (D.view disk.old) (D.view disk.new) }
{
    if !is_open(selector) {
        return Ok(());
    }
    let count = inspect_records::<D, K, S>(alloc, disk, sink, tally, half)?;
    inspect_past::<D, K, S>(disk, sink, tally, half, counts, count)
}

// Both halves, by the bytes of both selectors.
fn inspect_halves<D: Disk, K: Sink, S: SpellsDamage>(
    alloc: Global,
    disk: &mut D,
    sink: &mut K,
    tally: &mut Tally,
    first: &[u8],
    second: &[u8],
) -> Result<(), Halt>
    requires first { length first.now ≡ CELL_BYTES }
    requires second { length second.now ≡ CELL_BYTES }
    requires size { LEAST_SIZE ≤ (D.view disk.old).size }
    ensures found { OnOk result (Finds S.line (halves_found first.now second.now) (λ image. nothing)
        (D.view disk.old) (D.view disk.new) (K.view sink.old, tally.old) (K.view sink.new, tally.new)) }
    ensures stopped { IfErr result (StopsAmong S.line (halves_found first.now second.now)
        (D.view disk.old) (D.view disk.new) (K.view sink.old) (K.view sink.new)) }
    ensures reads { Reads (ending blames result) (D.view disk.old) (D.view disk.new) }
{
    inspect_half::<D, K, S>(
        alloc,
        disk,
        sink,
        tally,
        0,
        first,
        says_half(0, first, second),
    )?;
    inspect_half::<D, K, S>(
        alloc,
        disk,
        sink,
        tally,
        1,
        second,
        says_half(1, first, second),
    )
}

/// Inspects the selectors, and then the records of each half whose selector is open, up to its first closed gate; in the half that
/// counts no gate past that may be open. Damages are handed on in that order, one of a cell at most: that of the first check that
/// fails. Memory is taken for the names of one half.
pub fn inspect_journal<D: Disk, K: Sink, S: SpellsDamage>(
    alloc: Global,
    disk: &mut D,
    sink: &mut K,
    tally: &mut Tally,
) -> Result<(), Halt>
    requires { LEAST_SIZE ≤ (D.view disk.old).size }
    ensures found { OnOk result (Finds S.line journal_found (λ image. nothing)
        (D.view disk.old) (D.view disk.new) (K.view sink.old, tally.old) (K.view sink.new, tally.new)) }
    ensures stopped { IfErr result (StopsAmong S.line journal_found
        (D.view disk.old) (D.view disk.new) (K.view sink.old) (K.view sink.new)) }
    ensures reads { Reads (ending blames result) (D.view disk.old) (D.view disk.new) }
{
    let (first, second) = match read_both(disk) {
        Ok(cells) => cells,
        Err(_) => return Err(Halt::DiskRead),
    };
    inspect_selectors::<K, S>(sink, tally, &first, &second)?;
    inspect_halves::<D, K, S>(alloc, disk, sink, tally, &first, &second)
}
