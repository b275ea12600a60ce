//! The digests of the copies in some slots, taken at once before these are inspected.
ghost use Rattle.std.specs.Prelude.{◌≡◌, ◌≤◌, ◌+◌, length, vec_capacity};
ghost use Rattle.container_log.specs.Inspecting.{AreInSlot};
ghost use Rattle.disk_format.specs.declared.numbers.TheConstants.{MOST_ENTRIES, SLOT_BYTES};

use crate::slot::copy_in;
use container_meta::{Entry, decode_into};
use dd_disk::Disk;
use digests::{Ahead, has_threads};
use disk_format::{CONTAINER_GATE, slot_at};
use std::alloc::{AllocError, Global};
use std::thread::Threads;

/// So many slots are read ahead. Full ones have some 590 copies of the usual length: enough for threads.
const SLOTS_AHEAD: u32 = 16;

// Reads an open slot ahead, and answers whether it could. Of a closed one the gate alone is read: its other bytes are old, or were never
// written.
fn read_open_slot<D: Disk>(disk: &D, slot: u32, bytes: &mut [u8]) -> bool
    requires length { length bytes.old ≡ SLOT_BYTES }
    ensures length { length bytes.new ≡ SLOT_BYTES }
{
    disk.read_ahead(slot_at(slot), &mut bytes[..1])
        && bytes[0] == CONTAINER_GATE
        && disk.read_ahead(slot_at(slot) + 1, &mut bytes[1..])
}

// Adds the copies that entries name.
fn add_copies(ahead: &mut Ahead, entries: &[Entry], bytes: &[u8]) -> Result<(), AllocError>
    requires length { length bytes.now ≡ SLOT_BYTES }
    requires within { AreInSlot entries.now }
{
    for entry in entries {
        ahead.add(copy_in(entry, bytes))?;
    }
    Ok(())
}

// Adds the copies of an open slot, if its header is right.
fn add_slot(ahead: &mut Ahead, bytes: &[u8], entries: &mut Vec<Entry>) -> Result<(), AllocError>
    requires length { length bytes.now ≡ SLOT_BYTES }
    requires room { MOST_ENTRIES ≤ vec_capacity entries.old }
    ensures room { vec_capacity entries.old ≤ vec_capacity entries.new }
{
    match decode_into(bytes, entries) {
        Ok(_) => add_copies(ahead, entries, bytes),
        Err(_) => Ok(()),
    }
}

// Adds the copies of the slots from this one on, as many as are read ahead.
fn add_slots<D: Disk>(
    disk: &D,
    ahead: &mut Ahead,
    slots: u32,
    first: u32,
    bytes: &mut [u8],
    entries: &mut Vec<Entry>,
) -> Result<(), AllocError>
    requires length { length bytes.old ≡ SLOT_BYTES }
    requires room { MOST_ENTRIES ≤ vec_capacity entries.old }
    ensures room { vec_capacity entries.old ≤ vec_capacity entries.new }
{
    for slot in first..slots.min(first.saturating_add(SLOTS_AHEAD)) {
        if read_open_slot(disk, slot, bytes) {
            add_slot(ahead, bytes, entries)?;
        }
    }
    Ok(())
}

/// Takes the digests of the copies in some slots before they are asked for, where this slot is the first of these and several threads
/// can take them. Where there is no memory for the copies, what they had taken is given back, and digests are taken as they are asked for.
pub(crate) fn look_ahead<D: Disk, R: Threads + Sync>(
    rt: &R,
    alloc: Global,
    disk: &D,
    ahead: &mut Ahead,
    slots: u32,
    slot: u32,
    bytes: &mut [u8],
    entries: &mut Vec<Entry>,
)
    requires length { length bytes.old ≡ SLOT_BYTES }
    requires room { MOST_ENTRIES ≤ vec_capacity entries.old }
    ensures room { vec_capacity entries.old ≤ vec_capacity entries.new }
{
    if slot % SLOTS_AHEAD != 0 || !has_threads(rt) {
        return;
    }
    ahead.clear();
    if add_slots(disk, ahead, slots, slot, bytes, entries).is_err()
        || ahead.take(rt, alloc).is_err()
    {
        *ahead = Ahead::new(alloc);
    }
}
