//! A step that writes: the container that was filled comes to a closed slot, and the sources that waited for it are ready.
ghost use Rattle.std.specs.Prelude.{◌≡◌, ◌+◌, ◌≤◌, ℕ, [], None, OnOk, IfOk, IfErr};
ghost use Rattle.dd_disk.specs.Ending.{ending};
ghost use Rattle.disk_format.specs.declared.numbers.TheConstants.{LAST_ID as MOST_ID, RESERVE};
ghost use Rattle.ingest_steps.specs.Sealing.{HasSlotBeside, HasPlacesOf, SealsIndexed};
ghost use Rattle.refusals.specs.declared.refusal.Refusal.TheVariants.{Numbers};
ghost use Rattle.store_state.specs.Refused.{blames};
ghost use Rattle.store_state.specs.Settled.{Steps};
ghost use Rattle.store_state.specs.Tables.{Runs};
ghost use Rattle.gc_sweep.specs.Flushing.{FlushesNothing, HasFlushed, WritesCopies, spared};
ghost use Rattle.gc_sweep.specs.UnderWay.{IsSweeping, free_in};
ghost use Rattle.gc_sweep.specs.declared.sweep.Next.TheVariants.{Flush as FlushNext};

use crate::sweep::{Next, Sweep};
use container_meta::OpenContainer;
use copy_forward::flush;
use dd_disk::Disk;
use disk_format::LAST_ID;
use refusals::Refusal;
use segment_index::Index;
use std::alloc::Global;
use store_state::Tables;

// The closed slot of least number, where those of the reserve are closed; a container of copies may take one of them.
fn reserved_slot(tables: &Tables) -> Result<u32, Refusal>
    requires runs { (size : _) × (known : _) × Runs size known tables.now }
    requires room { RESERVE ≤ free_in tables.now.held }
    ensures slot { IfOk result (HasSlotBeside spared tables.now) }
    ensures refused { IfErr result (λ refusal. (refusal ≡ Numbers) × (MOST_ID ≤ tables.now.held.last_id)) }
{
    if tables.held.last_id >= LAST_ID {
        return Err(Refusal::Numbers);
    }
    match tables.held.first_free() {
        Some(slot) => Ok(slot),
        // One is closed.
        None => unreachable!(),
    }
}

// Notes in a sweep that what was copied is written.
fn take_flushed(
    sweep: &mut Sweep,
    source: usize,
    entry: usize,
    empty: OpenContainer,
    none: Vec<u32>,
)
    requires empty { empty.segments ≡ [] }
    requires none { none.items ≡ [] }
    ensures { HasFlushed source entry sweep.old sweep.new }
{
    sweep.buffer = empty;
    sweep.ready = std::mem::replace(&mut sweep.waiting, none);
    sweep.next = Next::Release { source, entry };
}

/// Writes the container that was filled with copies, under the next id, to the closed slot of least number, where the slots of the
/// reserve are closed. The index has its places first. Then the sources that waited for it are ready; `source` and `entry` are those of
/// what came next.
///
/// Refusals: `Numbers`, if no id is left; those of `copy_forward::flush`. Each leaves tables and sweep as they were.
pub fn flush_copies<D: Disk, X: Index>(
    alloc: Global,
    disk: &mut D,
    tables: &mut Tables,
    index: &mut X,
    sweep: &mut Sweep,
    source: usize,
    entry: usize,
) -> Result<(), Refusal>
    requires serves { X.serves index.old (D.view disk.old).size }
    requires runs { Runs (D.view disk.old).size None tables.old }
    requires under_way { (snapshot : ℕ) × IsSweeping tables.old.held snapshot sweep.old }
    requires next { sweep.old.next ≡ FlushNext source entry }
    ensures written { OnOk result ((slot : ℕ) × WritesCopies tables.old (D.view disk.old).size
        (X.places index.old (D.view disk.old).content)
        slot sweep.old.buffer tables.new × HasPlacesOf sweep.old.buffer slot (X.places index.old) (X.places index.new)
        (D.view disk.old).content (D.view disk.new).content) }
    ensures sweep { OnOk result (HasFlushed source entry sweep.old sweep.new) }
    ensures under_way { (snapshot : ℕ)
        → IsSweeping tables.old.held snapshot sweep.old → IsSweeping tables.new.held snapshot sweep.new }
    ensures refused { IfErr result (FlushesNothing tables.old tables.new (X.places index.old (D.view disk.old).content)
        (X.places index.new (D.view disk.new).content) sweep.old sweep.new) }
    ensures disk { Steps tables.old.slots (ending blames result) (D.view disk.old) (D.view disk.new) }
    ensures moves { SealsIndexed tables.old (tables.old.held.last_id + 1) sweep.old.buffer (ending blames result) (D.view disk.old)
        (D.view disk.new) }
    ensures served { X.serves index.new (D.view disk.new).size }
{
    let slot = reserved_slot(tables)?;
    let empty = OpenContainer::new(alloc, sweep.buffer.kind())?;
    flush(alloc, disk, tables, index, slot, &sweep.buffer)?;
    take_flushed(sweep, source, entry, empty, Vec::new(alloc));
    Ok(())
}
