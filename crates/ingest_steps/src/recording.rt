//! Writing a record: where the half that counts is full, a checkpoint makes room for it first. All memory is taken before the first
//! write.
ghost use Rattle.std.specs.Prelude.{◌≡◌, ◌-◌, ◌^◌, ◌<◌, ◌≤◌, false, OnOk, OnErr, IfOk, IfErr};
ghost use Rattle.disk_format.specs.Cells.{IsRecord, record_cell};
ghost use Rattle.disk_format.specs.Layout.{least_size};
ghost use Rattle.dd_disk.specs.Ending.{ending};
ghost use Rattle.dd_disk.specs.Writes.{Writes};
ghost use Rattle.namespace.specs.Names.{NameMap, record_value};
ghost use Rattle.journal_cells.specs.Faults.{blames as call_blamed};
ghost use Rattle.journal_cells.specs.declared.fault.CellFault.TheVariants as faults;
ghost use Rattle.journal_cells.specs.Journal.{with_record};
ghost use Rattle.ingest_steps.specs.Naming.{IsUnprepared};
ghost use Rattle.journal_cells.specs.Checkpoints.{IsFreshHalf, IsPreparedFor, checkpointed, next_selector};
ghost use Rattle.ingest_steps.specs.Recording.{IsCellFor, HasCellPrepared, IsHalfFull, journal_with_cell};
ghost use Rattle.ingest_steps.specs.Recording.{Records, RecordsBy, IsRecorded, IsRecordedBy};

use dd_disk::Disk;
use disk_format::HALF_CELLS;
use journal_cells::{CellFault, FreshHalf, Journal};
use namespace::Record;
use refusals::Refusal;
use std::alloc::Global;
use store_state::Tables;

/// What a record needs to find a free cell: nothing, or a checkpoint of the names where the half that counts is full. `Numbers`
/// where the checkpoint's generation can't rise; `Memory`.
pub(crate) fn prepare_cell(alloc: Global, tables: &Tables) -> Result<Option<FreshHalf>, Refusal>
    ensures cell { IfOk result (IsCellFor tables.now.names tables.now.journal) }
    ensures below { OnOk result (IsHalfFull tables.now.journal → tables.now.journal.generation < 2 ^ 64 - 1) }
    ensures refused { IfErr result (IsUnprepared tables.now) }
{
    if tables.journal.count() < HALF_CELLS {
        return Ok(None);
    }
    match tables.journal.prepare(alloc, &tables.names) {
        Ok(fresh) => Ok(Some(fresh)),
        Err(CellFault::Numbers) => Err(Refusal::Numbers),
        Err(_) => Err(Refusal::Memory),
    }
}

// Makes the checkpoint that was prepared, and appends a record. Where that fails the journal in memory is given back what it was: both
// are one step, which is refused whole.
fn write_both<D: Disk>(
    disk: &mut D,
    journal: &mut Journal,
    fresh: &FreshHalf,
    made: &Record,
    cell: &[u8],
) -> Result<(), CellFault>
    requires size { least_size ≤ (D.view disk.old).size }
    requires right { IsRecord (record_value made.now) }
    requires spelled { cell.now ≡ record_cell (record_value made.now) }
    requires prepared { IsPreparedFor journal.old fresh.now }
    ensures writes { (names : NameMap) → IsFreshHalf (next_selector journal.old) names fresh.now
        → Writes (RecordsBy false names journal.old (record_value made.now)) (IsRecordedBy false names journal.old (record_value made.now))
        (ending call_blamed result) (D.view disk.old) (D.view disk.new) }
    ensures journal { OnOk result ((names : NameMap) → IsFreshHalf (next_selector journal.old) names fresh.now
        → journal.new ≡ with_record (record_value made.now) (checkpointed names journal.old)) }
    ensures unchanged { OnErr result (journal.new ≡ journal.old) }
    ensures cause { IfErr result (λ fault. fault ≡ faults.DiskWrite) }
{
    let before = *journal;
    journal.write_checkpoint(disk, fresh)?;
    match journal.append(disk, made, cell) {
        Ok(()) => Ok(()),
        Err(fault) => {
            *journal = before;
            Err(fault)
        }
    }
}

/// Writes a record whose cell is spelled, and before it the checkpoint that was prepared, if any. It takes no memory. `DiskWrite`
/// leaves the journal in memory as it was.
pub(crate) fn write_prepared<D: Disk>(
    disk: &mut D,
    journal: &mut Journal,
    fresh: &Option<FreshHalf>,
    made: &Record,
    cell: &[u8],
) -> Result<(), CellFault>
    requires size { least_size ≤ (D.view disk.old).size }
    requires right { IsRecord (record_value made.now) }
    requires spelled { cell.now ≡ record_cell (record_value made.now) }
    requires prepared { HasCellPrepared journal.old fresh.now }
    ensures writes { (names : NameMap) → IsCellFor names journal.old fresh.now
        → Writes (Records names journal.old (record_value made.now)) (IsRecorded names journal.old (record_value made.now))
        (ending call_blamed result) (D.view disk.old) (D.view disk.new) }
    ensures journal { OnOk result ((names : NameMap) → IsCellFor names journal.old fresh.now
        → journal.new ≡ with_record (record_value made.now) (journal_with_cell names journal.old)) }
    ensures unchanged { OnErr result (journal.new ≡ journal.old) }
    ensures cause { IfErr result (λ fault. fault ≡ faults.DiskWrite) }
{
    match fresh {
        Some(fresh) => write_both(disk, journal, fresh, made, cell),
        None => journal.append(disk, made, cell),
    }
}
