//! Giving a name a root, and taking it away: what of it needs no actor.
ghost use Rattle.std.specs.Prelude.{◌≡◌, ◌⊎◌, ◌-◌, ◌^◌, ◌<◌, ◌≤◌, suc, OnOk, OnErr, IfOk, IfErr};
ghost use Rattle.disk_format.specs.Cells.{Root as FileRoot, IsChange, IsRecord, IsRoot, record_cell};
ghost use Rattle.disk_format.specs.Cells.Change.{Delete, Put};
ghost use Rattle.disk_format.specs.Layout.{least_size};
ghost use Rattle.dd_disk.specs.Ending.{ending};
ghost use Rattle.dd_disk.specs.View.{IsDurable};
ghost use Rattle.dd_disk.specs.Writes.{Writes};
ghost use Rattle.dd_disk.specs.Moves.{Acts};
ghost use Rattle.namespace.specs.Names.{IsTaken, change_value, record_value};
ghost use Rattle.refusals.specs.declared.refusal.Refusal.TheVariants.{DiskWrite, Memory, Numbers};
ghost use Rattle.store_state.specs.Refused.{blames};
ghost use Rattle.ingest_steps.specs.Naming.{MayChange, MayName, IsNameRefusal, MayDelete, MayNotDelete};
ghost use Rattle.ingest_steps.specs.Naming.{IsAppendRefusal, IsDeleteRefusal, IsWriteRefusal, tables_with};
ghost use Rattle.ingest_steps.specs.Naming.{IsChanged, IsDeleted, ChangesName, ChangesJournalAlone};
ghost use Rattle.ingest_steps.specs.Recording.{IsCellFor, IsHalfFull, Records, IsRecorded, KeepsButRecord};

use crate::recording::{prepare_cell, write_prepared};
use dd_disk::Disk;
use journal_cells::{FreshHalf, Journal, encode_record};
use namespace::{Change, NameFault, Record, Root};
use refusals::Refusal;
use std::alloc::{AllocError, Global};
use store_state::Tables;

/// Whether a name may be given a root. `BadName`; then `TooMany` where it is new and 512 are there.
pub fn may_name(tables: &Tables, name: &[u8]) -> Result<(), Refusal>
    ensures may { OnOk result (MayName tables.now name.now) }
    ensures refused { IfErr result (IsNameRefusal tables.now name.now) }
{
    match tables.names.may_put(name) {
        Ok(()) => Ok(()),
        Err(NameFault::BadName) => Err(Refusal::BadName),
        Err(_) => Err(Refusal::TooMany),
    }
}

/// Whether a name may be deleted. `BadName`; then `NoFile` where it isn't there.
fn may_delete(tables: &Tables, name: &[u8]) -> Result<(), Refusal>
    ensures may { OnOk result (MayDelete tables.now name.now) }
    ensures refused { IfErr result (MayNotDelete tables.now name.now) }
{
    match tables.names.get(name) {
        Ok(_) => Ok(()),
        Err(NameFault::BadName) => Err(Refusal::BadName),
        Err(_) => Err(Refusal::NoFile),
    }
}

// The next sequence number.
fn next_number(journal: &Journal) -> Result<u64, Refusal>
    ensures next { IfOk result (λ number. number ≡ suc journal.now.last) }
    ensures below { OnOk result (journal.now.last < 2 ^ 64 - 1) }
    ensures rises { journal.now.previous ≤ journal.now.last }
    ensures refused { IfErr result (λ refusal. (refusal ≡ Numbers) × (journal.now.last ≡ 2 ^ 64 - 1)) }
{
    let last = journal.last();
    if last == u64::MAX {
        return Err(Refusal::Numbers);
    }
    Ok(last + 1)
}

// The record that changes a name.
fn record_for(alloc: Global, number: u64, name: &[u8], change: Change) -> Result<Record, AllocError>
    ensures { IfOk result (λ r. record_value r ≡ record { sequence = number; name = name.now; change = change_value change }) }
{
    Ok(Record {
        sequence: number,
        name: Vec::from_slice(alloc, name)?,
        change,
    })
}

// Takes a put into the names and the journal: first in memory, so that none is needed once it stands on the disk. Where it
// is refused the names are given back what they had.
fn write_put<D: Disk>(
    disk: &mut D,
    tables: &mut Tables,
    fresh: &Option<FreshHalf>,
    put: Record,
    cell: &[u8],
) -> Result<(), Refusal>
    requires size { least_size ≤ (D.view disk.old).size }
    requires put { (root : FileRoot) × ((record_value put).change ≡ Put root) }
    requires right { IsRecord (record_value put) }
    requires taken { IsTaken tables.old.names (record_value put) }
    requires spelled { cell.now ≡ record_cell (record_value put) }
    requires prepared { IsCellFor tables.old.names tables.old.journal fresh.now }
    ensures tables { OnOk result (tables.new ≡ tables_with (record_value put) tables.old) }
    ensures unchanged { OnErr result (tables.new ≡ tables.old) }
    ensures writes { Writes (Records tables.old.names tables.old.journal (record_value put))
        (IsRecorded tables.old.names tables.old.journal (record_value put)) (ending blames result) (D.view disk.old) (D.view disk.new) }
    ensures refused { IfErr result (λ refusal. (refusal ≡ Memory) ⊎ (refusal ≡ DiskWrite)) }
{
    let before = tables.names.find(&put.name);
    match tables.names.apply(&put) {
        Ok(()) => {}
        Err(_) => return Err(Refusal::Memory),
    }
    match write_prepared(disk, &mut tables.journal, fresh, &put, cell) {
        Ok(()) => Ok(()),
        Err(_) => {
            tables.names.take_back(put.name, before);
            Err(Refusal::DiskWrite)
        }
    }
}

// Takes a delete into the journal and the names: first on the disk, since the names need no memory for it.
fn write_delete<D: Disk>(
    disk: &mut D,
    tables: &mut Tables,
    fresh: &Option<FreshHalf>,
    delete: &Record,
    cell: &[u8],
) -> Result<(), Refusal>
    requires size { least_size ≤ (D.view disk.old).size }
    requires delete { (record_value delete.now).change ≡ Delete }
    requires right { IsRecord (record_value delete.now) }
    requires taken { IsTaken tables.old.names (record_value delete.now) }
    requires spelled { cell.now ≡ record_cell (record_value delete.now) }
    requires prepared { IsCellFor tables.old.names tables.old.journal fresh.now }
    ensures tables { OnOk result (tables.new ≡ tables_with (record_value delete.now) tables.old) }
    ensures unchanged { OnErr result (tables.new ≡ tables.old) }
    ensures writes { Writes (Records tables.old.names tables.old.journal (record_value delete.now))
        (IsRecorded tables.old.names tables.old.journal (record_value delete.now)) (ending blames result)
        (D.view disk.old) (D.view disk.new) }
    ensures refused { IfErr result (λ refusal. refusal ≡ DiskWrite) }
{
    match write_prepared(disk, &mut tables.journal, fresh, delete, cell) {
        Ok(()) => {}
        Err(_) => return Err(Refusal::DiskWrite),
    }
    match tables.names.apply(delete) {
        Ok(()) => Ok(()),
        Err(_) => unreachable!(),
    }
}

// Takes a record into the names and the journal, whose half may be full.
fn write_record<D: Disk>(
    alloc: Global,
    disk: &mut D,
    tables: &mut Tables,
    made: Record,
) -> Result<(), Refusal>
    requires size { least_size ≤ (D.view disk.old).size }
    requires right { IsRecord (record_value made) }
    requires taken { IsTaken tables.old.names (record_value made) }
    ensures tables { OnOk result (tables.new ≡ tables_with (record_value made) tables.old) }
    ensures unchanged { OnErr result (tables.new ≡ tables.old) }
    ensures writes { Writes (Records tables.old.names tables.old.journal (record_value made))
        (IsRecorded tables.old.names tables.old.journal (record_value made)) (ending blames result) (D.view disk.old) (D.view disk.new) }
    ensures below { OnOk result (IsHalfFull tables.old.journal → tables.old.journal.generation < 2 ^ 64 - 1) }
    ensures refused { IfErr result (IsWriteRefusal tables.old) }
{
    let fresh = prepare_cell(alloc, tables)?;
    let cell = encode_record(alloc, &made)?;
    match made.change {
        Change::Put(_) => write_put(disk, tables, &fresh, made, &cell),
        Change::Delete => write_delete(disk, tables, &fresh, &made, &cell),
    }
}

// Changes a name: writes a record under the next sequence number, which is answered. The name may be changed so.
fn change_name<D: Disk>(
    alloc: Global,
    disk: &mut D,
    tables: &mut Tables,
    name: &[u8],
    change: Change,
) -> Result<u64, Refusal>
    requires size { least_size ≤ (D.view disk.old).size }
    requires may { MayChange tables.old name.now (change_value change) }
    requires right { IsChange (change_value change) }
    ensures ok { IfOk result (IsChanged tables.old name.now (change_value change) tables.new) }
    ensures refused { IfErr result (IsAppendRefusal tables.old) }
    ensures unchanged { OnErr result (tables.new ≡ tables.old) }
    ensures durable { OnOk result (IsDurable (D.view disk.new)) }
    ensures disk { Acts (ending blames result) (D.view disk.old) (D.view disk.new) }
    ensures moves { ChangesName tables.old name.now (change_value change) (ending blames result) (D.view disk.old) (D.view disk.new) }
    ensures frame { ChangesJournalAlone tables.old name.now (change_value change) (D.view disk.old) (D.view disk.new) }
    ensures same { OnOk result (KeepsButRecord tables.old.journal (D.view disk.old) (D.view disk.new)) }
{
    let number = next_number(&tables.journal)?;
    let made = record_for(alloc, number, name, change)?;
    write_record(alloc, disk, tables, made)?;
    Ok(number)
}

/// Gives a name a root: appends a put under the next sequence number, which is answered, after a checkpoint where the half that
/// counts is full.
///
/// `may_name` has taken the name. Refusals: `Numbers` where the last sequence number is 2^64 - 1, or the generation where a
/// checkpoint is due; `Memory` and `DiskWrite`.
/// All but the last come before the first write, and each leaves the tables as they were.
pub fn put_root<D: Disk>(
    alloc: Global,
    disk: &mut D,
    tables: &mut Tables,
    name: &[u8],
    root: &Root,
) -> Result<u64, Refusal>
    requires size { least_size ≤ (D.view disk.old).size }
    requires may { MayName tables.old name.now }
    requires root { IsRoot root.now }
    ensures ok { IfOk result (IsChanged tables.old name.now (Put root.now) tables.new) }
    ensures refused { IfErr result (IsAppendRefusal tables.old) }
    ensures unchanged { OnErr result (tables.new ≡ tables.old) }
    ensures durable { OnOk result (IsDurable (D.view disk.new)) }
    ensures disk { Acts (ending blames result) (D.view disk.old) (D.view disk.new) }
    ensures moves { ChangesName tables.old name.now (Put root.now) (ending blames result) (D.view disk.old) (D.view disk.new) }
    ensures frame { ChangesJournalAlone tables.old name.now (Put root.now) (D.view disk.old) (D.view disk.new) }
    ensures same { OnOk result (KeepsButRecord tables.old.journal (D.view disk.old) (D.view disk.new)) }
{
    change_name(alloc, disk, tables, name, Change::Put(*root))
}

/// Takes a name away, with its file: appends a delete under the next sequence number, which is answered, after a checkpoint where
/// the half that counts is full.
///
/// Refusals, in this order: `BadName`; `NoFile` where the name isn't there; `Numbers` where the last sequence number is 2^64 - 1, or
/// the generation where a checkpoint is due; `DiskWrite`. `Memory` comes before the first write. Each leaves the tables as they
/// were.
pub fn delete<D: Disk>(
    alloc: Global,
    disk: &mut D,
    tables: &mut Tables,
    name: &[u8],
) -> Result<u64, Refusal>
    requires size { least_size ≤ (D.view disk.old).size }
    ensures ok { IfOk result (IsDeleted tables.old name.now tables.new) }
    ensures refused { IfErr result (IsDeleteRefusal tables.old name.now) }
    ensures unchanged { OnErr result (tables.new ≡ tables.old) }
    ensures durable { OnOk result (IsDurable (D.view disk.new)) }
    ensures disk { Acts (ending blames result) (D.view disk.old) (D.view disk.new) }
    ensures moves { ChangesName tables.old name.now Delete (ending blames result) (D.view disk.old) (D.view disk.new) }
    ensures frame { ChangesJournalAlone tables.old name.now Delete (D.view disk.old) (D.view disk.new) }
    ensures same { OnOk result (KeepsButRecord tables.old.journal (D.view disk.old) (D.view disk.new)) }
{
    may_delete(tables, name)?;
    change_name(alloc, disk, tables, name, Change::Delete)
}
