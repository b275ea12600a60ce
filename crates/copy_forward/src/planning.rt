//! What a collection does with the entries of a container whose live copies are copied: a plan, made before anything is changed.
ghost use Rattle.std.specs.Prelude.{◌≡◌, [], ◌≤◌, ℕ, length, drop, Ok, true, false, OnOk, IfOk, IfErr};
ghost use Rattle.std.specs.List.{AllByRecursion};
ghost use Rattle.container_meta.specs.Spelling.{IsHeader, view};
ghost use Rattle.dd_disk.specs.Ending.{ending, Reads};
ghost use Rattle.dd_disk.specs.Shows.{Shows};
ghost use Rattle.disk_format.specs.declared.numbers.TheConstants.{MOST_SEGMENT};
ghost use Rattle.segment_index.specs.Places.{IsPlace};
ghost use Rattle.store_model.specs.Slots.{place_of};
ghost use Rattle.store_state.specs.Refused.{blames};
ghost use Rattle.copy_forward.specs.Planning.{source_of, planned, IsAllowed, Lacks, Adds, AddsLive, TakesOne, IsFull, Takes, IsPlan};
ghost use Rattle.copy_forward.specs.Planning.{IsAddRefusal, IsLiveRefusal, IsOneRefusal, IsStuck, IsPlanRefusal};

use crate::again::{same_again, seg_of};
use crate::entries::{is_copy, place_in};
use crate::plan::Plan;
use container_meta::{Entry, Fit, Key, Kind, Meta, OpenContainer, key_of};
use dd_disk::Disk;
use digests::Afresh;
use gc_enumerate::Live;
use refusals::Refusal;
use segment_index::Index;
use std::alloc::Global;
use store_state::read_copy;

// Adds the segment of an entry, for which there is room, after its digest was checked.
fn add_copy<D: Disk>(
    alloc: Global,
    disk: &mut D,
    slot: u32,
    kind: Kind,
    entry: &Entry,
    buffer: &mut OpenContainer,
    buf: &mut [u8],
) -> Result<(), Refusal>
    requires place { IsPlace (D.view disk.old).size (place_of slot entry.now) }
    requires buf { MOST_SEGMENT ≤ length buf.old }
    requires allowed { IsAllowed kind entry.now }
    requires kind { buffer.old.kind ≡ kind }
    requires lacks { Lacks kind entry.now buffer.old true }
    ensures added { OnOk result (Adds slot (Shows (D.view disk.old) (D.view disk.new)) entry.now buffer.old buffer.new) }
    ensures size { length buf.new ≡ length buf.old }
    ensures refused { IfErr result (IsAddRefusal (Shows (D.view disk.old) (D.view disk.new)) slot entry.now) }
    ensures reads { Reads (ending blames result) (D.view disk.old) (D.view disk.new) }
{
    let place = place_in(slot, entry);
    read_copy(disk, &mut Afresh, &place, &entry.digest, buf)?;
    let seg = seg_of(alloc, kind, entry.level, &buf[..entry.length as usize])?;
    match buffer.try_add(&seg) {
        Fit::Added => Ok(()),
        // There is room.
        Fit::NoRoom => unreachable!(),
    }
}

// Adds the segment of an entry that is live, and the index's copy, unless its key is there. Whether it is there then: else it doesn't
// fit.
fn add_live<D: Disk>(
    alloc: Global,
    disk: &mut D,
    slot: u32,
    kind: Kind,
    entry: &Entry,
    buffer: &mut OpenContainer,
    buf: &mut [u8],
) -> Result<bool, Refusal>
    requires place { IsPlace (D.view disk.old).size (place_of slot entry.now) }
    requires buf { MOST_SEGMENT ≤ length buf.old }
    requires allowed { IsAllowed kind entry.now }
    requires kind { buffer.old.kind ≡ kind }
    ensures taken { result ≡ Ok true
        → AddsLive kind slot (Shows (D.view disk.old) (D.view disk.new)) entry.now buffer.old buffer.new }
    ensures full { result ≡ Ok false → Lacks kind entry.now buffer.old false × (buffer.new ≡ buffer.old) }
    ensures kind { OnOk result (buffer.new.kind ≡ buffer.old.kind) }
    ensures size { length buf.new ≡ length buf.old }
    ensures refused { IfErr result (IsLiveRefusal kind slot (Shows (D.view disk.old) (D.view disk.new)) entry.now buffer.old) }
    ensures reads { Reads (ending blames result) (D.view disk.old) (D.view disk.new) }
{
    if buffer.has(&key_of(kind, &entry.digest)) {
        return Ok(true);
    }
    if !buffer.has_room(entry.length as usize) {
        return Ok(false);
    }
    add_copy(alloc, disk, slot, kind, entry, buffer, buf)?;
    Ok(true)
}

// Plans an entry. Whether it was planned: else it doesn't fit.
fn plan_one<D: Disk, X: Index>(
    alloc: Global,
    disk: &mut D,
    index: &mut X,
    live: &Live,
    slot: u32,
    kind: Kind,
    entry: &Entry,
    buffer: &mut OpenContainer,
    dead: &mut Vec<Key>,
    buf: &mut [u8],
) -> Result<bool, Refusal>
    requires serves { X.serves index.old (D.view disk.old).size }
    requires buf { MOST_SEGMENT ≤ length buf.old }
    requires allowed { IsAllowed kind entry.now }
    requires kind { buffer.old.kind ≡ kind }
    ensures taken { result ≡ Ok true → TakesOne (source_of (X.places index.old (D.view disk.old).content) live.now slot kind)
        (Shows (D.view disk.old) (D.view disk.new)) entry.now (planned buffer.old dead.old.items) (planned buffer.new dead.new.items) }
    ensures full { result ≡ Ok false → IsFull (source_of (X.places index.old (D.view disk.old).content) live.now slot kind) entry.now
        buffer.old × (buffer.new ≡ buffer.old) × (dead.new.items ≡ dead.old.items) }
    ensures kind { OnOk result (buffer.new.kind ≡ buffer.old.kind) }
    ensures map { X.places index.new (D.view disk.new).content ≡ X.places index.old (D.view disk.old).content }
    ensures size { length buf.new ≡ length buf.old }
    ensures refused { IfErr result (IsOneRefusal (source_of (X.places index.old (D.view disk.old).content) live.now slot kind)
        (Shows (D.view disk.old) (D.view disk.new)) entry.now buffer.old) }
    ensures reads { Reads (ending blames result) (D.view disk.old) (D.view disk.new) }
    ensures served { X.serves index.new (D.view disk.new).size }
{
    if !is_copy(disk, index, slot, kind, entry)? {
        return Ok(true);
    }
    let key = key_of(kind, &entry.digest);
    if !live.is_live(&key, &place_in(slot, entry)) {
        dead.push(key)?;
        return Ok(true);
    }
    add_live(alloc, disk, slot, kind, entry, buffer, buf)
}

// Plans entries one after the other, up to the first that doesn't fit. How many were planned.
fn plan_rest<D: Disk, X: Index>(
    alloc: Global,
    disk: &mut D,
    index: &mut X,
    live: &Live,
    slot: u32,
    kind: Kind,
    entries: &[Entry],
    buffer: &mut OpenContainer,
    dead: &mut Vec<Key>,
    buf: &mut [u8],
) -> Result<usize, Refusal>
    requires serves { X.serves index.old (D.view disk.old).size }
    requires buf { MOST_SEGMENT ≤ length buf.old }
    requires allowed { AllByRecursion (IsAllowed kind) entries.now }
    requires kind { buffer.old.kind ≡ kind }
    ensures takes { IfOk result (Takes (source_of (X.places index.old (D.view disk.old).content) live.now slot kind)
        (Shows (D.view disk.old) (D.view disk.new)) entries.now (planned buffer.old dead.old.items)
        (planned buffer.new dead.new.items)) }
    ensures within { IfOk result (λ count. count ≤ length entries.now) }
    ensures map { X.places index.new (D.view disk.new).content ≡ X.places index.old (D.view disk.old).content }
    ensures size { length buf.new ≡ length buf.old }
    ensures refused { IfErr result (IsStuck (source_of (X.places index.old (D.view disk.old).content) live.now slot kind)
        (Shows (D.view disk.old) (D.view disk.new)) entries.now (planned buffer.old dead.old.items)) }
    ensures reads { Reads (ending blames result) (D.view disk.old) (D.view disk.new) }
    ensures served { X.serves index.new (D.view disk.new).size }
{
    let mut count = 0;
    for entry in entries {
        if !plan_one(
            alloc, disk, index, live, slot, kind, entry, buffer, dead, buf,
        )? {
            return Ok(count);
        }
        count += 1;
    }
    Ok(count)
}

// The entries of a container from the one of a number on.
fn entries_from(meta: &Meta, from: usize) -> &[Entry]
    requires { from ≤ length meta.now.entries.items }
    ensures { result.now ≡ drop from meta.now.entries.items }
{
    &meta.entries[from..]
}

/// Plans what is done with the entries of the container in a slot, from the one of a number on (docs/MODEL.md, 'Copying'). One that
/// isn't the index's copy is passed over. The key of a dead copy is to leave the index. A live copy is read, its digest is checked,
/// and it is added to the container that is filled, unless that has its key. It stops before the first live copy that doesn't fit.
///
/// Nothing is changed: the disk and the index are only read, and the container is filled anew. `buf` has room for a segment, and may
/// hold anything then.
///
/// Refusals: `Memory`; `DiskRead`; `Damaged` for the index's own bytes; `Corrupt` for a live copy whose bytes have another digest.
pub(crate) fn plan_copies<D: Disk, X: Index>(
    alloc: Global,
    disk: &mut D,
    index: &mut X,
    live: &Live,
    slot: u32,
    meta: &Meta,
    from: usize,
    buffer: &OpenContainer,
    buf: &mut [u8],
) -> Result<Plan, Refusal>
    requires serves { X.serves index.old (D.view disk.old).size }
    requires right { IsHeader (view meta.now) }
    requires from { from ≤ length meta.now.entries.items }
    requires kind { buffer.now.kind ≡ meta.now.kind }
    requires buf { MOST_SEGMENT ≤ length buf.old }
    ensures plan { IfOk result (IsPlan (source_of (X.places index.old (D.view disk.old).content) live.now slot meta.now.kind)
        (Shows (D.view disk.old) (D.view disk.new)) meta.now.entries.items from buffer.now) }
    ensures map { X.places index.new (D.view disk.new).content ≡ X.places index.old (D.view disk.old).content }
    ensures size { length buf.new ≡ length buf.old }
    ensures refused { IfErr result (IsPlanRefusal (source_of (X.places index.old (D.view disk.old).content) live.now slot
        meta.now.kind) (Shows (D.view disk.old) (D.view disk.new)) (drop from meta.now.entries.items) (planned buffer.now [])) }
    ensures reads { Reads (ending blames result) (D.view disk.old) (D.view disk.new) }
    ensures served { X.serves index.new (D.view disk.new).size }
{
    let mut copy = same_again(alloc, buffer)?;
    let mut dead = Vec::new(alloc);
    let entries = entries_from(meta, from);
    let count = plan_rest(
        alloc, disk, index, live, slot, meta.kind, entries, &mut copy, &mut dead, buf,
    )?;
    let copied = copy.len() - buffer.len();
    let next = from + count;
    Ok(Plan {
        buffer: copy,
        dead,
        next,
        ended: next == meta.entries.len(),
        copied,
    })
}
