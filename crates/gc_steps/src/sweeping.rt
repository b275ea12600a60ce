//! A step of the sweep, by what comes next in it.
ghost use Rattle.std.specs.Prelude.{◌≡◌, ◌≤◌, ℕ, length};
ghost use Rattle.dd_disk.specs.Ending.{ending};
ghost use Rattle.disk_format.specs.declared.numbers.TheConstants.{MOST_SEGMENT};
ghost use Rattle.store_state.specs.Refused.{blames};
ghost use Rattle.store_state.specs.Tables.{Runs};
ghost use Rattle.gc_sweep.specs.declared.sweep.Next.TheVariants.{Copy as CopyNext, Flush as FlushNext, Release as ReleaseNext};
ghost use Rattle.gc_steps.specs.Stepping.{Ends, GoesBy, moment};
ghost use Rattle.gc_steps.specs.UnderWay.{IsUnderWay};
ghost use Rattle.gc_steps.specs.declared.collection.Stage.TheVariants.{Sweep as SweepStage};

use crate::collection::Collection;
use crate::phase::StepDone;
use dd_disk::Disk;
use gc_sweep::{Next, copy_source, flush_copies, release_ready};
use refusals::{Phase, Refusal};
use segment_index::Index;
use std::alloc::Global;
use store_state::Tables;

// Copies from the source of a number, from the entry of a number on.
fn copy_next<D: Disk, X: Index>(
    alloc: Global,
    disk: &mut D,
    tables: &Tables,
    index: &mut X,
    collection: &mut Collection,
    source: usize,
    entry: usize,
    buf: &mut [u8],
) -> Result<StepDone, Refusal>
    requires serves { X.serves index.old (D.view disk.old).size }
    requires runs { (known : _) × Runs (D.view disk.old).size known tables.now }
    requires under_way { IsUnderWay tables.now.held collection.old }
    requires stage { collection.old.stage ≡ SweepStage }
    requires next { collection.old.sweep.next ≡ CopyNext source entry }
    requires room { MOST_SEGMENT ≤ length buf.old }
    ensures step { Ends result (moment tables.now (X.places index.old (D.view disk.old).content) (D.view disk.old) collection.old)
        (moment tables.now (X.places index.new (D.view disk.new).content) (D.view disk.new) collection.new) }
    ensures disk { GoesBy collection.old tables.now (ending blames result) (D.view disk.old) (D.view disk.new) }
    ensures under_way { IsUnderWay tables.now.held collection.new }
    ensures served { X.serves index.new (D.view disk.new).size }
    ensures size { length buf.new ≡ length buf.old }
{
    copy_source(
        alloc,
        disk,
        tables,
        index,
        &collection.live,
        &mut collection.sweep,
        source,
        entry,
        buf,
    )?;
    Ok(StepDone::Did(Phase::Copy))
}

// Writes what was copied.
fn flush_next<D: Disk, X: Index>(
    alloc: Global,
    disk: &mut D,
    tables: &mut Tables,
    index: &mut X,
    collection: &mut Collection,
    source: usize,
    entry: usize,
) -> Result<StepDone, Refusal>
    requires serves { X.serves index.old (D.view disk.old).size }
    requires runs { (known : _) × Runs (D.view disk.old).size known tables.old }
    requires under_way { IsUnderWay tables.old.held collection.old }
    requires stage { collection.old.stage ≡ SweepStage }
    requires next { collection.old.sweep.next ≡ FlushNext source entry }
    ensures step { Ends result (moment tables.old (X.places index.old (D.view disk.old).content) (D.view disk.old) collection.old)
        (moment tables.new (X.places index.new (D.view disk.new).content) (D.view disk.new) collection.new) }
    ensures disk { GoesBy collection.old tables.old (ending blames result) (D.view disk.old) (D.view disk.new) }
    ensures under_way { IsUnderWay tables.new.held collection.new }
    ensures served { X.serves index.new (D.view disk.new).size }
{
    flush_copies(
        alloc,
        disk,
        tables,
        index,
        &mut collection.sweep,
        source,
        entry,
    )?;
    Ok(StepDone::Did(Phase::Flush))
}

// Gives all sources back that are ready; the index is not asked.
fn release_next<D: Disk, X: Index>(
    disk: &mut D,
    tables: &mut Tables,
    index: &X,
    collection: &mut Collection,
    source: usize,
    entry: usize,
) -> Result<StepDone, Refusal>
    requires serves { X.serves index.now (D.view disk.old).size }
    requires runs { (known : _) × Runs (D.view disk.old).size known tables.old }
    requires under_way { IsUnderWay tables.old.held collection.old }
    requires stage { collection.old.stage ≡ SweepStage }
    requires next { collection.old.sweep.next ≡ ReleaseNext source entry }
    ensures step { Ends result (moment tables.old (X.places index.now (D.view disk.old).content) (D.view disk.old) collection.old)
        (moment tables.new (X.places index.now (D.view disk.new).content) (D.view disk.new) collection.new) }
    ensures disk { GoesBy collection.old tables.old (ending blames result) (D.view disk.old) (D.view disk.new) }
    ensures under_way { IsUnderWay tables.new.held collection.new }
    ensures served { X.serves index.now (D.view disk.new).size }
{
    release_ready(disk, tables, &mut collection.sweep, source, entry)?;
    Ok(StepDone::Did(Phase::Release))
}

/// Does what comes next in the sweep of a collection; at its end it does nothing.
pub(crate) fn sweep_on<D: Disk, X: Index>(
    alloc: Global,
    disk: &mut D,
    tables: &mut Tables,
    index: &mut X,
    collection: &mut Collection,
    buf: &mut [u8],
) -> Result<StepDone, Refusal>
    requires serves { X.serves index.old (D.view disk.old).size }
    requires runs { (known : _) × Runs (D.view disk.old).size known tables.old }
    requires under_way { IsUnderWay tables.old.held collection.old }
    requires stage { collection.old.stage ≡ SweepStage }
    requires room { MOST_SEGMENT ≤ length buf.old }
    ensures step { Ends result (moment tables.old (X.places index.old (D.view disk.old).content) (D.view disk.old) collection.old)
        (moment tables.new (X.places index.new (D.view disk.new).content) (D.view disk.new) collection.new) }
    ensures disk { GoesBy collection.old tables.old (ending blames result) (D.view disk.old) (D.view disk.new) }
    ensures under_way { IsUnderWay tables.new.held collection.new }
    ensures index { (source entry : ℕ) → collection.old.sweep.next ≡ ReleaseNext source entry → index.new ≡ index.old }
    ensures served { X.serves index.new (D.view disk.new).size }
    ensures size { length buf.new ≡ length buf.old }
{
    match collection.sweep.next {
        Next::Copy { source, entry } => {
            copy_next(alloc, disk, tables, index, collection, source, entry, buf)
        }
        Next::Flush { source, entry } => {
            flush_next(alloc, disk, tables, index, collection, source, entry)
        }
        Next::Release { source, entry } => {
            release_next(disk, tables, index, collection, source, entry)
        }
        Next::End => Ok(StepDone::Done {
            freed: collection.sweep.freed,
            copied: collection.sweep.copied,
        }),
    }
}
