//! A checkpoint: the names written anew as puts into the half that does not count, and that half's selector.
ghost use Rattle.std.specs.Prelude.{◌≡◌, ◌+◌, ◌*◌, ◌^◌, ◌<◌, ◌≤◌, length, map, option_map, OnOk, IfOk, All};
ghost use Rattle.base_model.specs.Bytes.{written};
ghost use Rattle.disk_format.specs.Layout.{selector_at as place_of_selector, cell_at as place_of_cell};
ghost use Rattle.dd_disk.specs.View.{IsLater, CrashLeaves, SteppedFrom};
ghost use Rattle.dd_disk.specs.Ending.{WriteCall, ending, CountsFault};
ghost use Rattle.dd_disk.specs.Writes.{Puts, Torn, Writes};
ghost use Rattle.namespace.specs.Names.{record_value};
ghost use Rattle.store_model.specs.Journal.{last_of};
ghost use Rattle.journal_cells.specs.Checkpoints.{cells_of as cells_of_records};
ghost use Rattle.journal_cells.specs.Checkpoints.{IsFreshHalf, FitsHalf, FillsHalf, half_filled, Replaces, replaced};

use crate::heads::Selector;
use crate::spelling::{encode_record, encode_selector};
use base_model::zeros;
use dd_disk::{Disk, DiskFault, sync_all, write_gated, write_synced};
use disk_format::{CELL_BYTES, HALF_BYTES, LEAST_SIZE, MOST_NAME, cell_at, selector_at};
use namespace::{Names, Record};
use std::alloc::{AllocError, Global};

/// The bytes of a half, as the length of a vector.
const HALF: usize = HALF_BYTES as usize;

/// What a checkpoint writes: the half that is to count, and its selector. It holds all memory that the checkpoint needs.
#[derive(Drop)]
pub struct FreshHalf {
    /// What its selector says.
    pub(crate) next: Selector,
    /// How many records it has.
    pub(crate) count: u32,
    /// The sequence number of the last of them, 0 where there is none.
    pub(crate) previous: u64,
    /// The zeros that are written over the half.
    blanks: Vec<u8>,
    /// The records' cells, which are written over its first zeros.
    cells: Vec<u8>,
    /// The cell of its selector.
    selector: Vec<u8>,
}

/// The cells of records, one after the other.
fn cells_of(alloc: Global, records: &[Record]) -> Result<Vec<u8>, AllocError>
    requires { All (λ r. length r.name.items ≤ MOST_NAME) records.now }
    ensures cells { IfOk result (λ cells. cells.items ≡ cells_of_records (map record_value records.now)) }
    ensures length { IfOk result (λ cells. length cells.items ≡ CELL_BYTES * length records.now) }
{
    let mut cells = Vec::new(alloc);
    for record in records {
        let cell = encode_record(alloc, record)?;
        cells.extend_from_slice(&cell)?;
    }
    Ok(cells)
}

/// The sequence number of the last record, 0 where there is none.
fn last_number(records: &[Record]) -> u64
    ensures { result ≡ last_of 0 (map record_value records.now) }
{
    match records.last() {
        Some(record) => record.sequence,
        None => 0,
    }
}

/// The half of a selector that is not written yet, with the puts of the names by their sequence numbers. It takes all memory
/// that a checkpoint needs.
pub(crate) fn fresh_half(
    alloc: Global,
    selector: &Selector,
    names: &Names,
) -> Result<FreshHalf, AllocError>
    requires { selector.now.generation < 2 ^ 64 }
    ensures { IfOk result (IsFreshHalf selector.now names.now) }
{
    let puts = names.puts_in_order(alloc)?;
    Ok(FreshHalf {
        next: *selector,
        count: puts.len() as u32,
        previous: last_number(&puts),
        blanks: zeros(alloc, HALF)?,
        cells: cells_of(alloc, &puts)?,
        selector: encode_selector(alloc, selector)?,
    })
}

/// Writes bytes, if there are any. Until a sync, a crash may leave any bytes in their range.
fn write_some<D: Disk>(disk: &mut D, at: u64, from: &[u8]) -> Result<(), DiskFault>
    requires { at + length from.now ≤ (D.view disk.old).size }
    ensures ok { OnOk result ((D.view disk.new).content ≡ option_map (written at from.now) (D.view disk.old).content) }
    ensures leaves { CrashLeaves (SteppedFrom (Torn at (length from.now)) (D.view disk.old)) (D.view disk.old) (D.view disk.new) }
    ensures later { IsLater (D.view disk.old) (D.view disk.new) }
    ensures count { CountsFault (ending (λ _. WriteCall) result) (D.view disk.old).faults (D.view disk.new).faults }
{
    if from.is_empty() {
        return Ok(());
    }
    disk.write(at, from)
}

/// Writes blanks, and cells over the first of them. Until a sync, a crash may leave any bytes in the blanks' range.
fn write_twice<D: Disk>(disk: &mut D, at: u64, blanks: &[u8], cells: &[u8]) -> Result<(), DiskFault>
    requires room { at + length blanks.now ≤ (D.view disk.old).size }
    requires fits { length cells.now ≤ length blanks.now }
    ensures ok { OnOk result ((D.view disk.new).content
        ≡ option_map (λ bytes. written at cells.now (written at blanks.now bytes)) (D.view disk.old).content) }
    ensures leaves { CrashLeaves (SteppedFrom (Torn at (length blanks.now)) (D.view disk.old)) (D.view disk.old) (D.view disk.new) }
    ensures later { IsLater (D.view disk.old) (D.view disk.new) }
    ensures count { CountsFault (ending (λ _. WriteCall) result) (D.view disk.old).faults (D.view disk.new).faults }
{
    disk.write(at, blanks)?;
    write_some(disk, at, cells)
}

/// The same, and has them stand after a crash.
fn write_over<D: Disk>(disk: &mut D, at: u64, blanks: &[u8], cells: &[u8]) -> Result<(), DiskFault>
    requires room { at + length blanks.now ≤ (D.view disk.old).size }
    requires fits { length cells.now ≤ length blanks.now }
    ensures { Writes (λ _. Torn at (length blanks.now)) (λ given. Puts at cells.now (written at blanks.now given))
        (ending (λ _. WriteCall) result) (D.view disk.old) (D.view disk.new) }
{
    write_twice(disk, at, blanks, cells)?;
    sync_all(disk)
}

/// Writes a half whose selector's gate is closed: its bytes, and once they stand after a crash the selector. The zeros go
/// over the whole half and the records over the first of them in a write of their own, which is left out where there is no
/// record; one sync has both stand.
fn fill_half<D: Disk>(disk: &mut D, half: u8, fresh: &FreshHalf) -> Result<(), DiskFault>
    requires size { LEAST_SIZE ≤ (D.view disk.old).size }
    requires half { half ≤ 1 }
    requires fits { FitsHalf fresh.now }
    ensures { Writes (FillsHalf half fresh.now) (λ given c. c ≡ half_filled half fresh.now given) (ending (λ _. WriteCall) result)
        (D.view disk.old) (D.view disk.new) }
{
    write_over(disk, cell_at(half, 0), &fresh.blanks, &fresh.cells)?;
    write_gated(disk, selector_at(half), &fresh.selector)
}

/// Writes a half, and closes its selector's gate before where that is open. A closed gate is not written: until the sync,
/// a crash could leave it open.
pub(crate) fn replace_half<D: Disk>(
    disk: &mut D,
    open_gate: bool,
    half: u8,
    fresh: &FreshHalf,
) -> Result<(), DiskFault>
    requires size { LEAST_SIZE ≤ (D.view disk.old).size }
    requires half { half ≤ 1 }
    requires fits { FitsHalf fresh.now }
    ensures { Writes (Replaces open_gate half fresh.now) (λ given c. c ≡ replaced open_gate half fresh.now given)
        (ending (λ _. WriteCall) result) (D.view disk.old) (D.view disk.new) }
{
    if !open_gate {
        return fill_half(disk, half, fresh);
    }
    write_synced(disk, selector_at(half), &[0])?;
    fill_half(disk, half, fresh)
}
