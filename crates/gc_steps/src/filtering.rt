//! How much of a container is live is recorded, and the sources are chosen.
ghost use Rattle.std.specs.Prelude.{◌≡◌, ◌<◌, length, OnOk, OnErr, IfErr};
ghost use Rattle.dd_disk.specs.Ending.{ending, Reads};
ghost use Rattle.refusals.specs.declared.refusal.Refusal.TheVariants.{Memory};
ghost use Rattle.store_state.specs.Refused.{blames};
ghost use Rattle.store_state.specs.Tables.{Runs};
ghost use Rattle.gc_steps.specs.Filtering.{Records, Chooses, IsRecordRefusal, recorded as recorded_of};
ghost use Rattle.gc_steps.specs.UnderWay.{IsUnderWay};
ghost use Rattle.gc_steps.specs.declared.collection.Stage.TheVariants.{Filter, Select};

use crate::collection::{Collection, Stage};
use crate::slots::filter_from;
use copy_forward::{live_bytes, read_header};
use dd_disk::Disk;
use gc_select::{ContainerLiveness, select};
use gc_sweep::begin;
use refusals::Refusal;
use segment_index::Index;
use std::alloc::Global;
use store_state::{SlotTable, Tables};

// What is recorded of the container of a slot.
fn recorded(held: &SlotTable, slot: u32, live: u32) -> ContainerLiveness
    requires ids { slot < length held.now.ids.items }
    requires counts { slot < length held.now.counts.items }
    ensures { result ≡ recorded_of held.now slot live }
{
    let count = held.counts[slot as usize];
    ContainerLiveness {
        id: held.ids[slot as usize],
        kind: count.kind,
        live,
        all: count.bytes,
    }
}

/// Records the container of a slot: how many of its bytes are live, and how many it has.
///
/// Refusals: `Memory`; `DiskRead`; `Damaged` for a header that breaks the format, for another one than that of the tables, or for the
/// index's own bytes. They leave the collection as it was.
pub(crate) fn record_container<D: Disk, X: Index>(
    alloc: Global,
    disk: &mut D,
    tables: &Tables,
    index: &mut X,
    collection: &mut Collection,
    slot: u32,
) -> Result<(), Refusal>
    requires serves { X.serves index.old (D.view disk.old).size }
    requires runs { (known : _) × Runs (D.view disk.old).size known tables.now }
    requires under_way { IsUnderWay tables.now.held collection.old }
    requires stage { collection.old.stage ≡ Filter slot }
    ensures ok { OnOk result (Records tables.now.held (X.places index.old (D.view disk.old).content) (D.view disk.old) (D.view disk.new)
        slot collection.old collection.new) }
    ensures under_way { IsUnderWay tables.now.held collection.new }
    ensures unchanged { OnErr result (collection.new ≡ collection.old) }
    ensures refused { IfErr result (IsRecordRefusal tables.now.held (X.places index.old (D.view disk.old).content) (D.view disk.old)
        (D.view disk.new) slot) }
    ensures map { X.places index.new (D.view disk.new).content ≡ X.places index.old (D.view disk.old).content }
    ensures reads { Reads (ending blames result) (D.view disk.old) (D.view disk.new) }
    ensures served { X.serves index.new (D.view disk.new).size }
{
    let meta = read_header(alloc, disk, &tables.held, slot)?;
    let live = live_bytes(
        disk,
        index,
        &collection.live,
        slot,
        meta.kind,
        &meta.entries,
    )?;
    collection
        .liveness
        .push(recorded(&tables.held, slot, live))?;
    collection.stage = filter_from(&tables.held, collection.snapshot, slot + 1);
    Ok(())
}

/// Chooses the sources, and begins to sweep them. The one refusal is `Memory`, which leaves the collection as it was.
pub(crate) fn choose_sources(
    alloc: Global,
    tables: &Tables,
    collection: &mut Collection,
) -> Result<(), Refusal>
    requires runs { (size : _) × (known : _) × Runs size known tables.now }
    requires under_way { IsUnderWay tables.now.held collection.old }
    requires stage { collection.old.stage ≡ Select }
    ensures ok { OnOk result (Chooses tables.now.held collection.old collection.new) }
    ensures under_way { IsUnderWay tables.now.held collection.new }
    ensures unchanged { OnErr result (collection.new ≡ collection.old) }
    ensures refused { IfErr result (λ refusal. refusal ≡ Memory) }
{
    let sources = select(
        alloc,
        &collection.liveness,
        collection.snapshot,
        collection.percent,
    )?;
    collection.sweep = begin(alloc, &tables.held, sources)?;
    collection.stage = Stage::Sweep;
    Ok(())
}
