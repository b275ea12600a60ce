//! The live copies of a container are put into the one that is filled, and the keys of its dead ones leave the index.
ghost use Rattle.std.specs.Prelude.{◌≡◌, ◌↔◌, ◌⊎◌, ◌+◌, ◌<◌, ◌≤◌, ℕ, length, IsTrue, IfOk, IfErr};
ghost use Rattle.dd_disk.specs.Ending.{ending, Reads};
ghost use Rattle.disk_format.specs.Layout.{size_of, slot_at};
ghost use Rattle.disk_format.specs.declared.numbers.TheConstants.{MOST_SEGMENT, SLOT_BYTES};
ghost use Rattle.segment_index.specs.Changes.{Changes};
ghost use Rattle.store_state.specs.Indexing.{IsOfSlots};
ghost use Rattle.store_state.specs.Refused.{blames};
ghost use Rattle.copy_forward.specs.Copying.{PlansSource, Forgets, IsSourceRefusal, IsCopyRefusal, copy_task};
ghost use Rattle.copy_forward.specs.Entries.{MapStays};

use crate::entries::remove_keys;
use crate::header::read_header;
use crate::plan::Plan;
use crate::planning::plan_copies;
use container_meta::{Kind, OpenContainer};
use dd_disk::Disk;
use gc_enumerate::Live;
use refusals::Refusal;
use segment_index::Index;
use std::alloc::Global;
use store_state::SlotTable;

/// Whether two kinds are one.
pub fn same_kind(a: Kind, b: Kind) -> bool
    ensures { IsTrue result ↔ (a ≡ b) }
{
    matches!((a, b), (Kind::Leaf, Kind::Leaf) | (Kind::Tree, Kind::Tree))
}

// Plans what is done with the entries of the container in a slot, from the one of a number on, by the header that is read. Nothing is
// planned where it is of another kind than the container that is filled, or has fewer entries.
fn plan_source<D: Disk, X: Index>(
    alloc: Global,
    disk: &mut D,
    held: &SlotTable,
    index: &mut X,
    live: &Live,
    slot: u32,
    from: usize,
    buffer: &OpenContainer,
    buf: &mut [u8],
) -> Result<Option<Plan>, Refusal>
    requires serves { X.serves index.old (D.view disk.old).size }
    requires place { slot_at slot + SLOT_BYTES ≤ (D.view disk.old).size }
    requires ids { slot < length held.now.ids.items }
    requires counts { slot < length held.now.counts.items }
    requires buf { MOST_SEGMENT ≤ length buf.old }
    ensures ok { IfOk result (PlansSource (copy_task held.now (X.places index.old (D.view disk.old).content) live.now slot from buffer.now)
        (D.view disk.old) (D.view disk.new)) }
    ensures refused { IfErr result (IsSourceRefusal
        (copy_task held.now (X.places index.old (D.view disk.old).content) live.now slot from buffer.now)
        (D.view disk.old) (D.view disk.new)) }
    ensures map { X.places index.new (D.view disk.new).content ≡ X.places index.old (D.view disk.old).content }
    ensures size { length buf.new ≡ length buf.old }
    ensures reads { Reads (ending blames result) (D.view disk.old) (D.view disk.new) }
    ensures served { X.serves index.new (D.view disk.new).size }
{
    let meta = read_header(alloc, disk, held, slot)?;
    if !same_kind(meta.kind, buffer.kind()) || from > meta.entries.len() {
        return Ok(None);
    }
    let plan = plan_copies(alloc, disk, index, live, slot, &meta, from, buffer, buf)?;
    Ok(Some(plan))
}

/// Does what is planned of the entries of the container in a slot, from the one of a number on (`plan_copies`): the plan has the
/// container that is filled with the live copies, and the keys of the dead ones leave the index. Nothing is done where the header
/// that is read is of another kind than the container that is filled, or has fewer entries.
///
/// `buf` has room for a segment, and may hold anything then.
///
/// Refusals: those of `read_header` and `plan_copies`, which change nothing; then those of `remove_keys`.
pub fn copy_entries<D: Disk, X: Index>(
    alloc: Global,
    disk: &mut D,
    held: &SlotTable,
    index: &mut X,
    live: &Live,
    slot: u32,
    from: usize,
    buffer: &OpenContainer,
    buf: &mut [u8],
) -> Result<Option<Plan>, Refusal>
    requires serves { X.serves index.old (D.view disk.old).size }
    requires place { slot_at slot + SLOT_BYTES ≤ (D.view disk.old).size }
    requires ids { slot < length held.now.ids.items }
    requires counts { slot < length held.now.counts.items }
    requires slots { IsOfSlots (D.view disk.old).size }
    requires buf { MOST_SEGMENT ≤ length buf.old }
    ensures ok { IfOk result (PlansSource (copy_task held.now (X.places index.old (D.view disk.old).content) live.now slot from buffer.now)
        (D.view disk.old) (D.view disk.new)) }
    ensures map { IfOk result (Forgets (X.places index.old (D.view disk.old).content) (X.places index.new (D.view disk.new).content)) }
    ensures refused { IfErr result (IsCopyRefusal
        (copy_task held.now (X.places index.old (D.view disk.old).content) live.now slot from buffer.now)
        (D.view disk.old) (D.view disk.new)) }
    ensures kept { IfErr result (MapStays (X.places index.old (D.view disk.old).content) (X.places index.new (D.view disk.new).content)) }
    ensures size { length buf.new ≡ length buf.old }
    ensures changes { (slots : ℕ) → (D.view disk.old).size ≡ size_of slots
        → Changes (slot_at slots) (ending blames result) (D.view disk.old) (D.view disk.new) }
    ensures served { X.serves index.new (D.view disk.new).size }
{
    let Some(plan) = plan_source(alloc, disk, held, index, live, slot, from, buffer, buf)? else {
        return Ok(None);
    };
    remove_keys(disk, index, &plan.dead)?;
    Ok(Some(plan))
}
