//! A container scanned: its live nodes of a level are read, and their children are marked.
ghost use Rattle.std.specs.Prelude.{◌≡◌, ◌∷◌, [], ◌≤◌, length, IsTrue, IfOk, IfErr, OnOk};
ghost use Rattle.disk_format.specs.declared.numbers.TheConstants.{MOST_SEGMENT};
ghost use Rattle.gc_enumerate.specs.Copies.{CountsReads};
ghost use Rattle.gc_enumerate.specs.Faults.{IsLookupFault};
ghost use Rattle.gc_enumerate.specs.Marking.{ChildrenAreLive, LeavesMarks, MarksChildren};
ghost use Rattle.gc_enumerate.specs.Scanning.{FindsChildren, IsAsked, IsDecided, IsEntryFault, IsScanFault};
ghost use Rattle.gc_enumerate.specs.Scanning.{place_in as place_of_entry, scan_in, scan_of};

use crate::copies::Copies;
use crate::fault::ScanFault;
use crate::layer::{KeyPlace, Layer};
use crate::live::Live;
use crate::nodes::{look_up_children, place_in, read_node};
use container_meta::{Entry, Meta, key_of};
use std::alloc::Global;

// Whether an entry is of the level, live, and the copy that the index has.
fn is_to_scan<C: Copies>(
    copies: &mut C,
    live: &Live,
    layer: &Layer,
    entry: &Entry,
) -> Result<bool, ScanFault>
    requires { C.serves copies.old }
    ensures decided { IfOk result (IsDecided (scan_of (C.places copies.old) live.now layer.now) entry.now) }
    ensures lies { IfOk result (λ yes. IsTrue yes → C.lies copies.new (place_of_entry layer.now entry.now)) }
    ensures asked { IfErr result (λ _. IsAsked (scan_of (C.places copies.old) live.now layer.now) entry.now) }
    ensures refused { IfErr result (IsLookupFault (C.damaged copies.old copies.new)) }
    ensures later { C.later copies.old copies.new }
    ensures served { C.serves copies.new }
    ensures counts { CountsReads result (C.failures copies.old) (C.failures copies.new) }
{
    if entry.level != layer.level {
        return Ok(false);
    }
    let key = key_of(layer.kind, &entry.digest);
    let place = place_in(layer, entry);
    if live.is_live(&key, &place) {
        copies.is_copy(&key, &place)
    } else {
        Ok(false)
    }
}

// The children of an entry's node, if it is to be scanned.
fn scan_entry<C: Copies>(
    alloc: Global,
    copies: &mut C,
    live: &Live,
    layer: &Layer,
    entry: &Entry,
    buf: &mut [u8],
) -> Result<Vec<KeyPlace>, ScanFault>
    requires serves { C.serves copies.old }
    requires room { MOST_SEGMENT ≤ length buf.old }
    ensures found { IfOk result (λ found. FindsChildren (scan_of (C.places copies.old) live.now layer.now)
        (C.shows copies.old copies.new) (entry.now ∷ []) found.items) }
    ensures refused { IfErr result (IsEntryFault (scan_of (C.places copies.old) live.now layer.now)
        (C.shows copies.old copies.new) (C.damaged copies.old copies.new) entry.now) }
    ensures later { C.later copies.old copies.new }
    ensures served { C.serves copies.new }
    ensures counts { CountsReads result (C.failures copies.old) (C.failures copies.new) }
    ensures size { length buf.new ≡ length buf.old }
{
    let wanted = is_to_scan(copies, live, layer, entry)?;
    if !wanted {
        return Ok(Vec::new(alloc));
    }
    let node = read_node(alloc, copies, layer, entry, buf)?;
    look_up_children(alloc, copies, &node)
}

// The children of the nodes of all entries that are to be scanned, in order.
fn scan_entries<C: Copies>(
    alloc: Global,
    copies: &mut C,
    live: &Live,
    layer: &Layer,
    entries: &[Entry],
    buf: &mut [u8],
) -> Result<Vec<KeyPlace>, ScanFault>
    requires serves { C.serves copies.old }
    requires room { MOST_SEGMENT ≤ length buf.old }
    ensures found { IfOk result (λ found. FindsChildren (scan_of (C.places copies.old) live.now layer.now)
        (C.shows copies.old copies.new) entries.now found.items) }
    ensures refused { IfErr result (IsScanFault (scan_of (C.places copies.old) live.now layer.now)
        (C.shows copies.old copies.new) (C.damaged copies.old copies.new) entries.now) }
    ensures later { C.later copies.old copies.new }
    ensures served { C.serves copies.new }
    ensures counts { CountsReads result (C.failures copies.old) (C.failures copies.new) }
    ensures size { length buf.new ≡ length buf.old }
{
    let mut found = Vec::new(alloc);
    for entry in entries {
        let children = scan_entry(alloc, copies, live, layer, entry, buf)?;
        found.extend_from_slice(&children)?;
    }
    Ok(found)
}

/// Marks the children of a container's live nodes of a level: of each entry of that level that is live, and the copy that the
/// index has, the node is read, and each of its children becomes live. Which entries are live is as the call begins.
///
/// `slot` is the container's, `meta` its header and entries, `level` from 1 to `disk_format::MOST_LEVEL`, and `buf` has room for a
/// segment and may hold anything then.
///
/// Refusals, entry by entry, in the order in which they come: `DiskRead` or `Damaged` by the index, as it is asked for the entry's
/// key; `DiskRead` or `Corrupt` by the read; `Damaged` for a node by its first wrong field, or where its level isn't the
/// entry's; child by child `DiskRead` or `Damaged` by the index, `Missing` where the index has no such key, and `Damaged` where
/// what it has is of another level than the one below. `Memory` may come at each, and once all was found: then some of the children
/// may be live. After every other refusal the live keys are as before.
pub fn scan_container<C: Copies>(
    alloc: Global,
    copies: &mut C,
    live: &mut Live,
    slot: u32,
    meta: &Meta,
    level: u8,
    buf: &mut [u8],
) -> Result<(), ScanFault>
    requires serves { C.serves copies.old }
    requires room { MOST_SEGMENT ≤ length buf.old }
    // On any disk, whatever it gives.
    ensures marks { OnOk result (MarksChildren (scan_in (C.places copies.old) live.old slot meta.now level)
        (C.shows copies.old copies.new) meta.now.entries.items live.new) }
    ensures children { OnOk result (ChildrenAreLive (scan_in (C.places copies.old) live.old slot meta.now level)
        (C.shows copies.old copies.new) meta.now.entries.items live.new) }
    ensures kept { IfErr result (LeavesMarks (scan_in (C.places copies.old) live.old slot meta.now level)
        (C.shows copies.old copies.new) meta.now.entries.items live.new) }
    ensures refused { IfErr result (IsScanFault (scan_in (C.places copies.old) live.old slot meta.now level)
        (C.shows copies.old copies.new) (C.damaged copies.old copies.new) meta.now.entries.items) }
    ensures later { C.later copies.old copies.new }
    ensures served { C.serves copies.new }
    ensures counts { CountsReads result (C.failures copies.old) (C.failures copies.new) }
    ensures size { length buf.new ≡ length buf.old }
{
    let layer = Layer {
        slot,
        kind: meta.kind,
        level,
    };
    let found = scan_entries(alloc, copies, live, &layer, &meta.entries, buf)?;
    live.mark_all(&found)?;
    Ok(())
}
