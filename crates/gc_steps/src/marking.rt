//! A container is scanned: the children of its live nodes of a level become live.
ghost use Rattle.std.specs.Prelude.{◌≡◌, ◌+◌, ◌<◌, ◌≤◌, length, OnOk, OnErr, IfErr};
ghost use Rattle.container_meta.specs.Spelling.{view};
ghost use Rattle.dd_disk.specs.Ending.{ending, Reads};
ghost use Rattle.dd_disk.specs.View.{OnlyReads};
ghost use Rattle.gc_enumerate.specs.Copies.{CountsReads};
ghost use Rattle.gc_enumerate.specs.Marking.{LeavesMarks};
ghost use Rattle.disk_format.specs.Layout.{slot_at};
ghost use Rattle.disk_format.specs.declared.numbers.TheConstants.{MOST_SEGMENT, SLOT_BYTES};
ghost use Rattle.refusals.specs.declared.refusal.Refusal.TheVariants.{Memory};
ghost use Rattle.store_state.specs.Refused.{blames};
ghost use Rattle.store_state.specs.Tables.{Runs};
ghost use Rattle.gc_steps.specs.Marking.{ScansEntries, IsEntriesFault, Scans, scan_for, KeepsMarks, IsMarkRefusal};
ghost use Rattle.gc_steps.specs.Scanning.{ShowsAt};
ghost use Rattle.gc_steps.specs.UnderWay.{IsUnderWay};
ghost use Rattle.gc_steps.specs.declared.collection.Stage.TheVariants.{Mark};

use crate::collection::Collection;
use crate::copies::{LentCopies, refusal_of};
use crate::slots::mark_from;
use container_meta::Meta;
use copy_forward::read_header;
use dd_disk::Disk;
use gc_enumerate::{Live, ScanFault, scan_container};
use refusals::Refusal;
use segment_index::Index;
use std::alloc::Global;
use store_state::Tables;

// Marks the children of the live nodes of a level in a container, whose header is given.
fn scan_lent<D: Disk, X: Index>(
    alloc: Global,
    disk: &mut D,
    index: &mut X,
    live: &mut Live,
    slot: u32,
    meta: &Meta,
    level: u8,
    buf: &mut [u8],
) -> Result<(), ScanFault>
    requires serves { X.serves index.old (D.view disk.old).size }
    requires room { MOST_SEGMENT ≤ length buf.old }
    ensures marks { OnOk result (ScansEntries (X.places index.old (D.view disk.old).content) (D.view disk.old) (D.view disk.new) slot level
        (view meta.now) live.old live.new) }
    ensures kept { IfErr result (LeavesMarks (scan_for (X.places index.old (D.view disk.old).content) live.old slot level (view meta.now))
        (ShowsAt (D.view disk.old) (D.view disk.new)) meta.now.entries.items live.new) }
    ensures refused { IfErr result (IsEntriesFault (X.places index.old (D.view disk.old).content) (D.view disk.old)
        (D.view disk.new) slot level (view meta.now) live.old) }
    ensures map { X.places index.new (D.view disk.new).content ≡ X.places index.old (D.view disk.old).content }
    ensures only { OnlyReads (D.view disk.old) (D.view disk.new) }
    ensures counts { CountsReads result (D.view disk.old).faults (D.view disk.new).faults }
    ensures served { X.serves index.new (D.view disk.new).size }
    ensures size { length buf.new ≡ length buf.old }
{
    let mut copies = LentCopies { disk, index };
    scan_container(alloc, &mut copies, live, slot, meta, level, buf)
}

/// Scans the container in a slot for its nodes of a level, from 1 to 6 (docs/MODEL.md, 'Collection'); the stage is then what comes
/// after it. `slot` counts from 0. `buf` has room for a segment, and may hold anything then.
///
/// Refusals: `Memory`; `DiskRead`; `Damaged` for a header or a node that breaks the format, for another header than that of the
/// tables, or for the index's own bytes; `Corrupt` for a node whose bytes have another digest; `Missing` for a child that the index
/// lacks. They leave the collection as it was, but that after `Memory` some of the children may be live.
pub(crate) fn mark_container<D: Disk, X: Index>(
    alloc: Global,
    disk: &mut D,
    tables: &Tables,
    index: &mut X,
    collection: &mut Collection,
    level: u8,
    slot: u32,
    buf: &mut [u8],
) -> Result<(), Refusal>
    requires serves { X.serves index.old (D.view disk.old).size }
    requires runs { (known : _) × Runs (D.view disk.old).size known tables.now }
    requires under_way { IsUnderWay tables.now.held collection.old }
    requires stage { collection.old.stage ≡ Mark level slot }
    requires room { MOST_SEGMENT ≤ length buf.old }
    ensures ok { OnOk result (Scans tables.now.held (X.places index.old (D.view disk.old).content) (D.view disk.old) (D.view disk.new)
        level slot collection.old collection.new) }
    ensures kept { IfErr result (KeepsMarks (X.places index.old (D.view disk.old).content) (D.view disk.old) (D.view disk.new) level slot
        collection.old collection.new) }
    ensures under_way { IsUnderWay tables.now.held collection.new }
    ensures refused { IfErr result (IsMarkRefusal tables.now.held (X.places index.old (D.view disk.old).content) (D.view disk.old)
        (D.view disk.new) level slot collection.old.live) }
    ensures map { X.places index.new (D.view disk.new).content ≡ X.places index.old (D.view disk.old).content }
    ensures reads { Reads (ending blames result) (D.view disk.old) (D.view disk.new) }
    ensures served { X.serves index.new (D.view disk.new).size }
    ensures size { length buf.new ≡ length buf.old }
{
    let meta = read_header(alloc, disk, &tables.held, slot)?;
    match scan_lent(
        alloc,
        disk,
        index,
        &mut collection.live,
        slot,
        &meta,
        level,
        buf,
    ) {
        Ok(()) => {
            collection.stage = mark_from(&tables.held, collection.snapshot, level, slot + 1);
            Ok(())
        }
        Err(fault) => Err(refusal_of(fault)),
    }
}
