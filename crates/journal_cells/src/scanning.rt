//! The journal, read from a disk.
ghost use Rattle.std.specs.Prelude.{◌≡◌, ◌+◌, ◌*◌, ◌<◌, ◌≤◌, Bool, List, length, option_map, IfOk, IfErr, OnOk, Err};
ghost use Rattle.disk_format.specs.Cells.{RecordValue, SelectorValue, IsSelector};
ghost use Rattle.disk_format.specs.declared.numbers.TheConstants.{CELL_BYTES};
ghost use Rattle.dd_disk.specs.Ending.{ending, Reads, UnlessFailed};
ghost use Rattle.dd_disk.specs.Shows.{Shows};
ghost use Rattle.namespace.specs.Names.{IsTaken, record_value};
ghost use Rattle.store_model.specs.Journal.{ClosedFrom, HoldsJournal, KnowsOther};
ghost use Rattle.journal_cells.specs.Faults.{blames, fails, IsRecordBreak, IsJournalBreak, IsCellFault, IsReadFault};
ghost use Rattle.journal_cells.specs.declared.fault.CellFault.TheVariants.{DiskRead};
ghost use Rattle.journal_cells.specs.Records.{nothing_yet, after_record, half_in, open_cell as damaged_at_gate, replayed};
ghost use Rattle.journal_cells.specs.Journal.{IsScanned, IsTold, journal_in};
ghost use Rattle.journal_cells.specs.Scanning.{replay, opened, IsNext, HasNextFault, IsRead, IsWhole, IsFirstIn, IsFirstAmong, IsOpenFault};

use crate::device::{CELL, read_at};
use crate::fault::CellFault;
use crate::heads::Selection;
use crate::journal::Journal;
use crate::opening::read_selectors;
use crate::record::record_in;
use dd_disk::Disk;
use disk_format::{HALF_CELLS, LEAST_SIZE, RECORD_GATE, Why, cell_at};
use namespace::{Names, Record};
use std::alloc::Global;

/// How many cells past the records are looked at in one read.
const AT_ONCE: u32 = 32;

//// What the records that were read leave.
#[derive(Drop)]
pub(crate) struct Replayed {
    pub count: u32,
    /// The sequence number of the last of them, 0 where there is none.
    pub previous: u64,
    pub names: Names,
}

impl Replayed {
    pub(crate) fn new(alloc: Global) -> Replayed
        ensures { replay result ≡ nothing_yet }
    {
        Replayed {
            count: 0,
            previous: 0,
            names: Names::new(alloc),
        }
    }

    // Takes one more record, which the names have to take.
    fn add(&mut self, value: &Record) -> Result<(), CellFault>
        requires room { self.old.count < HALF_CELLS }
        requires taken { IsTaken self.old.names (record_value value.now) }
        ensures ok { OnOk result (replay self.new ≡ after_record (replay self.old) (record_value value.now)) }
        ensures fault { IfErr result (λ fault. fault ≡ CellFault.Memory) }
    {
        match self.names.apply(value) {
            Ok(()) => {
                self.count += 1;
                self.previous = value.sequence;
                Ok(())
            }
            Err(_) => Err(CellFault::Memory),
        }
    }
}

// The record after those that were read, where the next cell is open.
fn read_next<D: Disk>(
    alloc: Global,
    disk: &mut D,
    half: u8,
    before: &Replayed,
) -> Result<Option<Record>, CellFault>
    requires half { half ≤ 1 }
    requires room { before.now.count < HALF_CELLS }
    requires size { LEAST_SIZE ≤ (D.view disk.old).size }
    ensures next { IfOk result (λ next.
        IsNext (Shows (D.view disk.old) (D.view disk.new)) half (replay before.now) (option_map record_value next)) }
    ensures cause { IfErr result (IsCellFault (IsRecordBreak half) (λ fault.
        Shows (D.view disk.old) (D.view disk.new) (HasNextFault half (replay before.now) fault))) }
    ensures reads { Reads (ending blames result) (D.view disk.old) (D.view disk.new) }
{
    let mut cell = [0u8; CELL];
    let at = cell_at(half, before.count);
    read_at(disk, at, &mut cell)?;
    if cell[0] != RECORD_GATE {
        return Ok(None);
    }
    let next = record_in(alloc, at, before.previous, &before.names, &cell)?;
    Ok(Some(next))
}

// What the records of a half leave that stand before its first closed cell.
fn read_records<D: Disk>(alloc: Global, disk: &mut D, half: u8) -> Result<Replayed, CellFault>
    requires half { half ≤ 1 }
    requires size { LEAST_SIZE ≤ (D.view disk.old).size }
    ensures read { IfOk result (λ read. IsRead (Shows (D.view disk.old) (D.view disk.new)) half (replay read)) }
    ensures cause { IfErr result (IsCellFault (IsRecordBreak half) (λ fault. Shows (D.view disk.old) (D.view disk.new) (λ image.
        replayed half HALF_CELLS nothing_yet image ≡ Err fault))) }
    ensures reads { Reads (ending blames result) (D.view disk.old) (D.view disk.new) }
{
    let mut before = Replayed::new(alloc);
    for _ in 0..HALF_CELLS {
        match read_next(alloc, disk, half, &before)? {
            Some(next) => before.add(&next)?,
            None => return Ok(before),
        }
    }
    Ok(before)
}

// Which is the first open one of so many cells, counted from 0.
fn first_open(cells: &[u8], count: u32) -> Option<u32>
    requires { CELL_BYTES * count ≤ length cells.now }
    ensures { IsFirstIn cells.now count result }
{
    for number in 0..count {
        if cells[CELL * number as usize] == RECORD_GATE {
            return Some(number);
        }
    }
    None
}

// Which is the first open one of so many cells of a half, from one on. The cells are read into `buf`.
fn look_at<D: Disk>(
    disk: &mut D,
    half: u8,
    from: u32,
    count: u32,
    buf: &mut [u8],
) -> Result<Option<u32>, CellFault>
    requires half { half ≤ 1 }
    requires within { from + count ≤ HALF_CELLS }
    requires room { CELL_BYTES * count ≤ length buf.old }
    requires size { LEAST_SIZE ≤ (D.view disk.old).size }
    ensures found { IfOk result (IsFirstAmong (Shows (D.view disk.old) (D.view disk.new)) half from count) }
    ensures cause { IfErr result (λ fault. fault ≡ DiskRead) }
    ensures kept { length buf.new ≡ length buf.old }
    ensures reads { Reads (ending blames result) (D.view disk.old) (D.view disk.new) }
{
    let cells = &mut buf[..CELL * count as usize];
    read_at(disk, cell_at(half, from), cells)?;
    match first_open(cells, count) {
        Some(number) => Ok(Some(from + number)),
        None => Ok(None),
    }
}

// That a cell past the records is open.
fn open_cell(half: u8, cell: u32) -> CellFault
    ensures { result ≡ damaged_at_gate half cell }
{
    CellFault::Damaged {
        at: cell_at(half, cell),
        why: Why::Field {
            offset: 0,
            got: u64::from(RECORD_GATE),
        },
    }
}

/// No cell of a half is open from one on; else the first that is, is damaged.
pub(crate) fn check_closed<D: Disk>(disk: &mut D, half: u8, from: u32) -> Result<(), CellFault>
    requires half { half ≤ 1 }
    requires within { from ≤ HALF_CELLS }
    requires size { LEAST_SIZE ≤ (D.view disk.old).size }
    ensures closed { OnOk result (Shows (D.view disk.old) (D.view disk.new) (ClosedFrom half from)) }
    ensures cause { IfErr result (IsReadFault (IsRecordBreak half) (IsOpenFault (Shows (D.view disk.old) (D.view disk.new)) half from)) }
    ensures reads { Reads (ending blames result) (D.view disk.old) (D.view disk.new) }
{
    let mut buf = [0u8; CELL * AT_ONCE as usize];
    let mut cell = from;
    while cell < HALF_CELLS {
        let count = (HALF_CELLS - cell).min(AT_ONCE);
        match look_at(disk, half, cell, count, &mut buf)? {
            Some(open) => return Err(open_cell(half, open)),
            None => cell += count,
        }
    }
    Ok(())
}

// What the records of a half leave, past which no cell is open.
fn read_half<D: Disk>(alloc: Global, disk: &mut D, half: u8) -> Result<Replayed, CellFault>
    requires half { half ≤ 1 }
    requires size { LEAST_SIZE ≤ (D.view disk.old).size }
    ensures whole { IfOk result (λ read. IsWhole (Shows (D.view disk.old) (D.view disk.new)) half (replay read)) }
    ensures cause { IfErr result (IsCellFault (IsRecordBreak half) (λ fault. Shows (D.view disk.old) (D.view disk.new) (λ image.
        half_in half image ≡ Err fault))) }
    ensures reads { Reads (ending blames result) (D.view disk.old) (D.view disk.new) }
{
    let read = read_records(alloc, disk, half)?;
    check_closed(disk, half, read.count)?;
    Ok(read)
}

// The journal of what the selectors say and of what the records of the half leave.
fn journal_of(selection: &Selection, left: &Replayed) -> Journal
    requires right { IsSelector selection.now.selector }
    requires few { left.now.count ≤ HALF_CELLS }
    ensures { result ≡ opened selection.now (replay left.now) }
{
    let selector = &selection.selector;
    Journal {
        half: selector.half,
        generation: selector.generation,
        other_open: selection.other_open,
        count: left.count,
        previous: left.previous,
        last: selector.last.max(left.previous),
    }
}

/// Reads the journal: which half counts, the names that its records leave, and the last sequence number.
///
/// It reads the selectors, then the cells of the half that counts, up to the first closed gate, and then looks whether a cell past
/// that is open. `Damaged` and `Version` come by the first check that fails, in the order of docs/FORMAT.md, 'Cells', the earlier
/// cell first.
pub fn scan<D: Disk>(alloc: Global, disk: &mut D) -> Result<(Journal, Names, u64), CellFault>
    requires { LEAST_SIZE ≤ (D.view disk.old).size }
    ensures found { IfOk result (λ read. IsScanned (Shows (D.view disk.old) (D.view disk.new)) read.0 read.1 read.2) }
    // A journal that stands there is read, unless memory or the disk fails.
    ensures only { Shows (D.view disk.old) (D.view disk.new) (λ image.
        (s : SelectorValue) (records : List RecordValue) (is_open : Bool) → HoldsJournal image s records → KnowsOther is_open s.half image
        → UnlessFailed fails (λ read. IsTold is_open s records read.0 read.1 read.2) result) }
    ensures cause { IfErr result (IsCellFault IsJournalBreak (λ fault. Shows (D.view disk.old) (D.view disk.new) (λ image.
        journal_in image ≡ Err fault))) }
    ensures reads { Reads (ending blames result) (D.view disk.old) (D.view disk.new) }
{
    let selection = read_selectors(disk)?;
    let left = read_half(alloc, disk, selection.selector.half)?;
    let journal = journal_of(&selection, &left);
    let last = journal.last();
    Ok((journal, left.names, last))
}
