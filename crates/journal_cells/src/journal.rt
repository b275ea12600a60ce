//! The journal of a store: which half counts, and where its next record goes.
ghost use Rattle.std.specs.Prelude.{◌≡◌, ◌-◌, ◌^◌, ◌<◌, ◌≤◌, OnOk, OnErr, IfOk, IfErr, Err};
ghost use Rattle.disk_format.specs.Cells.{record_cell};
ghost use Rattle.disk_format.specs.Layout.{cell_at as place_of_cell, half_cells};
ghost use Rattle.dd_disk.specs.Ending.{ending};
ghost use Rattle.dd_disk.specs.Writes.{Puts, Writes};
ghost use Rattle.dd_disk.specs.Gated.{TornFrom};
ghost use Rattle.namespace.specs.Names.{NameMap, record_value};
ghost use Rattle.journal_cells.specs.Faults.{blames};
ghost use Rattle.journal_cells.specs.Journal.{IsJournal, Precedes, with_record};
ghost use Rattle.journal_cells.specs.declared.fault.CellFault.TheVariants.{DiskWrite, Numbers};
ghost use Rattle.journal_cells.specs.Appending.{Appends, IsAppended};
ghost use Rattle.journal_cells.specs.Checkpoints.{Checkpoints, IsCheckpointed, IsFreshHalf, IsPreparedFor, IsPrepareFault, checkpointed, next_selector};

use crate::checkpoint::{FreshHalf, fresh_half, replace_half};
use crate::device::write_cell;
use crate::fault::CellFault;
use crate::heads::Selector;
use dd_disk::{Disk, DiskFault};
use disk_format::{LEAST_SIZE, VERSION, cell_at};
use namespace::{Names, Record};
use std::alloc::Global;
use std::marker::Model;

/// A journal that was read from its disk.
#[derive(Clone, Copy, PartialEq, Eq)]
pub struct Journal {
    /// The half that counts, 0 or 1.
    pub(crate) half: u8,
    /// That of its selector.
    pub(crate) generation: u64,
    /// Whether the gate of the other half's selector is open.
    pub(crate) other_open: bool,
    /// How many records stand in the half.
    pub(crate) count: u32,
    /// The sequence number of the last of them, 0 where there is none.
    pub(crate) previous: u64,
    /// The last sequence number of all.
    pub(crate) last: u64,
}

impl Model for Journal {
    ghost use Rattle.journal_cells.specs.Journal.{JournalValue, IsJournal};

    ghost Value = { JournalValue };

    ghost view = { λ j. record {
      half = j.half;
      generation = j.generation;
      other_open = j.other_open;
      count = j.count;
      previous = j.previous;
      last = j.last;
    } };

    ghost inverse = { λ j. record {
      half = j.half;
      generation = j.generation;
      other_open = j.other_open;
      count = j.count;
      previous = j.previous;
      last = j.last;
    } };

    ghost invariant = { λ j. IsJournal (record {
      half = j.half;
      generation = j.generation;
      other_open = j.other_open;
      count = j.count;
      previous = j.previous;
      last = j.last;
    }) };
}

impl Journal {
    /// How many records stand in the half that counts, 1,024 at most.
    pub fn count(&self) -> u32
        ensures { result ≡ self.now.count }
    {
        self.count
    }

    /// The last sequence number that was given out, 0 where none was.
    pub fn last(&self) -> u64
        ensures last { result ≡ self.now.last }
        // It isn't below that of the last record.
        ensures rises { self.now.previous ≤ result }
    {
        self.last
    }

    // Where the next record goes.
    fn next_place(&self) -> u64
        ensures { result ≡ place_of_cell self.now.half self.now.count }
    {
        cell_at(self.half, self.count)
    }

    // `append`, by what it writes.
    fn write_record<D: Disk>(
        &mut self,
        disk: &mut D,
        value: &Record,
        cell: &[u8],
    ) -> Result<(), CellFault>
        requires size { LEAST_SIZE ≤ (D.view disk.old).size }
        requires follows { Precedes self.old (record_value value.now) }
        requires spelled { cell.now ≡ record_cell (record_value value.now) }
        ensures writes { let at = place_of_cell self.old.half self.old.count in let cell = record_cell (record_value value.now) in
            Writes (TornFrom at cell) (Puts at cell) (ending blames result) (D.view disk.old) (D.view disk.new) }
        ensures journal { OnOk result (self.new ≡ with_record (record_value value.now) self.old) }
        ensures unchanged { OnErr result (self.new ≡ self.old) }
        ensures right { IsJournal self.old }
        ensures cause { IfErr result (λ fault. fault ≡ DiskWrite) }
    {
        let at = self.next_place();
        write_cell(disk, at, cell)?;
        self.count += 1;
        self.previous = value.sequence;
        self.last = value.sequence;
        Ok(())
    }

    /// Writes a record after the others, by the bytes of its cell: bytes 1 to 511, a sync, the gate, a sync. It takes no memory.
    ///
    /// The half has to have room, and the record to be one that the format allows, of a greater sequence number than the last
    /// of all. `DiskWrite` comes where a write or a sync failed; it leaves the journal in memory as it was, and the record may
    /// stand on the disk or not.
    pub fn append<D: Disk>(
        &mut self,
        disk: &mut D,
        value: &Record,
        cell: &[u8],
    ) -> Result<(), CellFault>
        requires size { LEAST_SIZE ≤ (D.view disk.old).size }
        requires follows { Precedes self.old (record_value value.now) }
        requires spelled { cell.now ≡ record_cell (record_value value.now) }
        ensures writes { Writes (Appends self.old (record_value value.now)) (IsAppended self.old (record_value value.now))
            (ending blames result) (D.view disk.old) (D.view disk.new) }
        ensures journal { OnOk result (self.new ≡ with_record (record_value value.now) self.old) }
        ensures unchanged { OnErr result (self.new ≡ self.old) }
        ensures cause { IfErr result (λ fault. fault ≡ DiskWrite) }
    {
        self.write_record(disk, value, cell)
    }

    // The selector of the next checkpoint.
    fn next_selector(&self) -> Result<Selector, CellFault>
        ensures next { IfOk result (λ selector. selector ≡ next_selector self.now) }
        ensures below { OnOk result (self.now.generation < 2 ^ 64 - 1) }
        ensures numbers { IfErr result (λ fault. (fault ≡ Numbers) × (self.now.generation ≡ 2 ^ 64 - 1)) }
    {
        if self.generation == u64::MAX {
            return Err(CellFault::Numbers);
        }
        Ok(Selector {
            generation: self.generation + 1,
            form: VERSION,
            half: 1 - self.half,
            last: self.last,
        })
    }

    /// What a checkpoint of these names writes. It takes all memory that the checkpoint needs, and writes nothing.
    ///
    /// `Numbers` comes exactly where the generation is 2^64 - 1, and `Memory` may come only elsewhere.
    pub fn prepare(&self, alloc: Global, names: &Names) -> Result<FreshHalf, CellFault>
        ensures fresh { IfOk result (IsFreshHalf (next_selector self.now) names.now) }
        ensures numbers { self.now.generation ≡ 2 ^ 64 - 1 → result ≡ Err Numbers }
        ensures below { OnOk result (self.now.generation < 2 ^ 64 - 1) }
        ensures cause { IfErr result (IsPrepareFault self.now) }
    {
        let selector = self.next_selector()?;
        let fresh = fresh_half(alloc, &selector, names)?;
        Ok(fresh)
    }

    // The half that does not count.
    fn other_half(&self) -> u8
        ensures half { result ≡ 1 - self.now.half }
        ensures right { IsJournal self.now }
    {
        1 - self.half
    }

    /// Makes room: writes the names anew, as puts by their sequence numbers, into the half that does not count, which counts
    /// from then on. `prepare` made what is written, of this journal. It takes no memory.
    ///
    /// The calls of the disk are, in this order: where the gate of that half's selector is open, 0 over it, and a sync; zeros
    /// over the whole half; the records' cells with open gates from its first cell on, in one write, and none where there is
    /// no name; a sync; the selector's bytes 1 to 511, a sync; its gate, a sync.
    ///
    /// `DiskWrite` comes where a write or a sync failed: then the old journal may stand on the disk, or the new one. It leaves
    /// the journal in memory as it was.
    pub fn write_checkpoint<D: Disk>(
        &mut self,
        disk: &mut D,
        fresh: &FreshHalf,
    ) -> Result<(), CellFault>
        requires size { LEAST_SIZE ≤ (D.view disk.old).size }
        requires prepared { IsPreparedFor self.old fresh.now }
        ensures writes { (names : NameMap) → IsFreshHalf (next_selector self.old) names fresh.now
            → Writes (Checkpoints self.old names) (IsCheckpointed self.old names) (ending blames result)
            (D.view disk.old) (D.view disk.new) }
        ensures journal { OnOk result ((names : NameMap) → IsFreshHalf (next_selector self.old) names fresh.now
            → self.new ≡ checkpointed names self.old) }
        ensures room { OnOk result (self.new.count < half_cells) }
        ensures unchanged { OnErr result (self.new ≡ self.old) }
        ensures cause { IfErr result (λ fault. fault ≡ DiskWrite) }
    {
        match replace_half(disk, self.other_open, self.other_half(), fresh) {
            Ok(()) => {}
            Err(DiskFault) => return Err(CellFault::DiskWrite),
        }
        self.half = fresh.next.half;
        self.generation = fresh.next.generation;
        self.other_open = true;
        self.count = fresh.count;
        self.previous = fresh.previous;
        self.last = self.last.max(fresh.previous);
        Ok(())
    }
}
