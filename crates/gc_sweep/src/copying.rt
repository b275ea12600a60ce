//! A step that copies: what is live of a source is put into the container that is filled.
ghost use Rattle.std.specs.Prelude.{◌≡◌, ◌∷◌, ◌++◌, ◌+◌, ◌^◌, [], ◌⊎◌, ◌≤◌, ◌<◌, ℕ, get_or, length, Contains, IfOk, IfErr, IfSome, OnOk, OnErr};
ghost use Rattle.copy_forward.specs.Copying.{Forgets, IsCopyRefusal, PlansSource, copy_task};
ghost use Rattle.copy_forward.specs.Entries.{MapStays};
ghost use Rattle.container_meta.specs.Segments.{Contents};
ghost use Rattle.dd_disk.specs.Ending.{ending};
ghost use Rattle.disk_format.specs.Layout.{size_of, slot_at};
ghost use Rattle.disk_format.specs.declared.numbers.TheConstants.{MOST_SEGMENT, MOST_SLOTS as MANY, SLOT_BYTES};
ghost use Rattle.refusals.specs.declared.refusal.Refusal.TheVariants.{Memory};
ghost use Rattle.segment_index.specs.Changes.{Changes};
ghost use Rattle.store_state.specs.Indexing.{IsOfSlots};
ghost use Rattle.store_state.specs.Refused.{blames};
ghost use Rattle.store_state.specs.Tables.{Runs};
ghost use Rattle.gc_sweep.specs.Copying.{CopiesSource, GoesOn, IsCopyStepRefusal, IsFilling, TakesBy, copy_step};
ghost use Rattle.gc_sweep.specs.UnderWay.{IsSweeping};
ghost use Rattle.gc_sweep.specs.declared.sweep.Next.TheVariants.{Copy as CopyNext};

use crate::next::{kind_of_slot, next_step, slot_of};
use crate::sweep::{Next, Sweep};
use container_meta::{Kind, OpenContainer};
use copy_forward::{Plan, copy_entries};
use dd_disk::Disk;
use gc_enumerate::Live;
use refusals::Refusal;
use segment_index::Index;
use std::alloc::{AllocError, Global};
use store_state::{SlotTable, Tables};

// A list of slots with one more.
fn with_slot(alloc: Global, slots: &[u32], slot: u32) -> Result<Vec<u32>, AllocError>
    ensures { IfOk result (λ more. more.items ≡ slots.now ++ slot ∷ []) }
{
    let mut more = Vec::new(alloc);
    more.extend_from_slice(slots)?;
    more.push(slot)?;
    Ok(more)
}

// Copies what is live of the container in a slot, from the entry of a number on, beside what a container has, or into an empty one
// of the slot's kind.
fn fill<D: Disk, X: Index>(
    alloc: Global,
    disk: &mut D,
    held: &SlotTable,
    index: &mut X,
    live: &Live,
    slot: u32,
    kind: Kind,
    entry: usize,
    buffer: &OpenContainer,
    buf: &mut [u8],
) -> Result<Option<Plan>, Refusal>
    requires serves { X.serves index.old (D.view disk.old).size }
    requires place { slot_at slot + SLOT_BYTES ≤ (D.view disk.old).size }
    requires ids { slot < length held.now.ids.items }
    requires counts { slot < length held.now.counts.items }
    requires slots { IsOfSlots (D.view disk.old).size }
    requires buf { MOST_SEGMENT ≤ length buf.old }
    ensures ok { IfOk result (λ found. (filling : Contents) × IsFilling buffer.now kind filling
        × PlansSource (copy_task held.now (X.places index.old (D.view disk.old).content) live.now slot entry filling) (D.view disk.old)
        (D.view disk.new) found) }
    ensures map { IfOk result (Forgets (X.places index.old (D.view disk.old).content) (X.places index.new (D.view disk.new).content)) }
    ensures refused { IfErr result (λ refusal. (refusal ≡ Memory) ⊎ ((filling : Contents) × IsFilling buffer.now kind filling
        × IsCopyRefusal (copy_task held.now (X.places index.old (D.view disk.old).content) live.now slot entry filling) (D.view disk.old)
        (D.view disk.new) refusal)) }
    ensures kept { IfErr result (MapStays (X.places index.old (D.view disk.old).content) (X.places index.new (D.view disk.new).content)) }
    ensures size { length buf.new ≡ length buf.old }
    ensures changes { (slots : ℕ) → (D.view disk.old).size ≡ size_of slots
        → Changes (slot_at slots) (ending blames result) (D.view disk.old) (D.view disk.new) }
    ensures served { X.serves index.new (D.view disk.new).size }
{
    if buffer.is_empty() {
        let empty = OpenContainer::new(alloc, kind)?;
        return copy_entries(alloc, disk, held, index, live, slot, entry, &empty, buf);
    }
    copy_entries(alloc, disk, held, index, live, slot, entry, buffer, buf)
}

// Notes in a sweep what was found of a source in a slot; `waiting` and `ready` are the lists with that slot.
fn take_found(
    held: &SlotTable,
    sweep: &mut Sweep,
    source: usize,
    slot: u32,
    waiting: Vec<u32>,
    ready: Vec<u32>,
    found: Option<Plan>,
)
    requires source { source < length sweep.old.sources.items }
    requires there { source + 1 < length sweep.old.sources.items
        → Contains held.now.ids.items (get_or sweep.old.sources.items (source + 1) 0) }
    requires few { length held.now.ids.items ≤ MANY }
    requires counts { length held.now.counts.items ≡ length held.now.ids.items }
    requires waiting { waiting.items ≡ sweep.old.waiting.items ++ slot ∷ [] }
    requires ready { ready.items ≡ slot ∷ [] }
    requires none { sweep.old.ready.items ≡ [] }
    requires few_copied { IfSome found (λ plan. sweep.old.copied + plan.copied < 2 ^ 64) }
    ensures taken { TakesBy held.now slot source found sweep.old sweep.new }
    ensures others { GoesOn sweep.old sweep.new }
{
    let Some(plan) = found else {
        sweep.next = next_step(held, &sweep.sources, &sweep.buffer, source + 1, 0);
        return;
    };
    sweep.buffer = plan.buffer;
    sweep.copied += plan.copied;
    if !plan.ended {
        sweep.next = Next::Flush {
            source,
            entry: plan.next,
        };
    } else if plan.copied > 0 {
        sweep.waiting = waiting;
        sweep.next = next_step(held, &sweep.sources, &sweep.buffer, source + 1, 0);
    } else {
        sweep.ready = ready;
        sweep.next = Next::Release {
            source: source + 1,
            entry: 0,
        };
    }
}

/// Copies what is live of the source of a number, from the entry of a number on, into the container that is filled, and takes the keys
/// of its dead copies out of the index, up to a live copy that doesn't fit. Where it came to its end, it waits for the container to be
/// written if a segment of it was added, and else it is ready. `buf` has room for a segment, and may hold anything then.
///
/// Refusals: `Memory`; those of `copy_entries`. They leave the sweep as it was, and the index too; but after `DiskWrite`, and after
/// `Damaged` where the index's map isn't known, some keys may be out.
pub fn copy_source<D: Disk, X: Index>(
    alloc: Global,
    disk: &mut D,
    tables: &Tables,
    index: &mut X,
    live: &Live,
    sweep: &mut Sweep,
    source: usize,
    entry: usize,
    buf: &mut [u8],
) -> Result<(), Refusal>
    requires serves { X.serves index.old (D.view disk.old).size }
    requires runs { (known : _) × Runs (D.view disk.old).size known tables.now }
    requires under_way { (snapshot : _) × IsSweeping tables.now.held snapshot sweep.old }
    requires next { sweep.old.next ≡ CopyNext source entry }
    requires buf { MOST_SEGMENT ≤ length buf.old }
    ensures ok { OnOk result (CopiesSource
        (copy_step tables.now.held live.now (X.places index.old (D.view disk.old).content) source entry sweep.old)
        (X.places index.new (D.view disk.new).content) (D.view disk.old) (D.view disk.new) sweep.new) }
    ensures under_way { (snapshot : ℕ)
        → IsSweeping tables.now.held snapshot sweep.old → IsSweeping tables.now.held snapshot sweep.new }
    ensures unchanged { OnErr result (sweep.new ≡ sweep.old) }
    ensures refused { IfErr result (IsCopyStepRefusal (copy_step tables.now.held live.now
        (X.places index.old (D.view disk.old).content) source entry sweep.old) (D.view disk.old) (D.view disk.new)) }
    ensures kept { IfErr result (MapStays (X.places index.old (D.view disk.old).content) (X.places index.new (D.view disk.new).content)) }
    ensures size { length buf.new ≡ length buf.old }
    ensures changes { (slots : ℕ) → (D.view disk.old).size ≡ size_of slots
        → Changes (slot_at slots) (ending blames result) (D.view disk.old) (D.view disk.new) }
    ensures served { X.serves index.new (D.view disk.new).size }
{
    let slot = slot_of(&tables.held, sweep.sources[source]);
    let kind = kind_of_slot(&tables.held, slot);
    let waiting = with_slot(alloc, &sweep.waiting, slot)?;
    let ready = with_slot(alloc, &[], slot)?;
    let found = fill(
        alloc,
        disk,
        &tables.held,
        index,
        live,
        slot,
        kind,
        entry,
        &sweep.buffer,
        buf,
    )?;
    take_found(&tables.held, sweep, source, slot, waiting, ready, found);
    Ok(())
}
