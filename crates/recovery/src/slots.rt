//! The containers of a store, read slot by slot.
ghost use Rattle.std.specs.Prelude.{◌≡◌, ◌+◌, ◌≤◌, ◌∷◌, ◌++◌, [], List, Option, length, IsTrue, IfOk, IfErr, IfSome};
ghost use Rattle.disk_format.specs.Layout.{IsSlotCount, size_of, slot_at};
ghost use Rattle.dd_disk.specs.Ending.{ending, Reads, UnlessFailed};
ghost use Rattle.dd_disk.specs.Shows.{Shows};
ghost use Rattle.container_meta.specs.Spelling.{HeaderValue, IsHeader, header_digest, held_with, with_entries};
ghost use Rattle.store_model.specs.Slots.{HoldsSlot, HoldSlots, DifferentIds};
ghost use Rattle.store_state.specs.Refused.{blames, fails};
ghost use Rattle.recovery.specs.Slots.{AreIdsOf, AreSlots, HasRoom, MayFollow, BreaksHeader, IsSlotDamage, IsSlotRefusal, IsSlotsRefusal};

use container_log::{LogFault, read_slot};
use container_meta::{Entry, Header};
use dd_disk::Disk;
use disk_format::{HEADER_BYTES, MOST_ENTRIES, SLOT_BYTES, Why, slot_at};
use refusals::Refusal;
use std::alloc::{AllocError, Global};
use std::collections::BTreeSet;
use store_state::Containers;

/// Room for what is read of one slot, which all slots share.
#[derive(Drop)]
struct Room {
    /// The bytes of a header.
    raw: Vec<u8>,
    /// Its entries.
    entries: Vec<Entry>,
}

impl Room {
    // It fails for want of memory alone.
    fn new(alloc: Global) -> Result<Room, AllocError>
        ensures { IfOk result HasRoom }
    {
        let raw = vec![in alloc; 0u8; HEADER_BYTES as usize]?;
        let entries = Vec::with_capacity(alloc, MOST_ENTRIES)?;
        Ok(Room { raw, entries })
    }
}

// What a slot holds.
fn read_one<D: Disk>(disk: &mut D, slot: u32, room: &mut Room) -> Result<Option<Header>, Refusal>
    requires place { slot_at slot + SLOT_BYTES ≤ (D.view disk.old).size }
    requires room { HasRoom room.old }
    ensures right { IfOk result (λ held. IfSome held (λ h. IsHeader (with_entries h room.new.entries.items))) }
    ensures digest { IfOk result (λ held. IfSome held (λ h. h.digest ≡ header_digest (with_entries h room.new.entries.items))) }
    ensures room { HasRoom room.new }
    ensures shown { IfOk result (λ held. Shows (D.view disk.old) (D.view disk.new)
        (λ image. HoldsSlot image slot (held_with held room.new.entries.items))) }
    ensures only { IfErr result (λ refusal. Shows (D.view disk.old) (D.view disk.new) (λ image. (held : Option HeaderValue)
        → HoldsSlot image slot held → IsTrue (fails refusal))) }
    ensures reads { Reads (ending blames result) (D.view disk.old) (D.view disk.new) }
    ensures refused { IfErr result (IsSlotRefusal (Shows (D.view disk.old) (D.view disk.new)) BreaksHeader slot) }
{
    match read_slot(disk, slot, room.raw.as_mut_slice(), &mut room.entries) {
        Ok(held) => Ok(held),
        Err(LogFault::DiskRead) => Err(Refusal::DiskRead),
        Err(LogFault::Damaged { at, why }) => Err(Refusal::Damaged { at, why }),
        // A slot that is read is not written, no memory is taken, and no segment of it is looked at.
        Err(LogFault::Memory) => unreachable!(),
        Err(LogFault::DiskWrite) => unreachable!(),
        Err(LogFault::Corrupt { .. }) => unreachable!(),
    }
}

// What the slot after those that were read holds, if no container before it has its id, which is put to theirs.
fn read_next<D: Disk>(
    disk: &mut D,
    ids: &mut BTreeSet<u64>,
    slot: u32,
    room: &mut Room,
) -> Result<Option<Header>, Refusal>
    requires place { slot_at slot + SLOT_BYTES ≤ (D.view disk.old).size }
    requires room { HasRoom room.old }
    ensures digest { IfOk result (λ held. IfSome held (λ h. h.digest ≡ header_digest (with_entries h room.new.entries.items))) }
    ensures room { HasRoom room.new }
    ensures follows { IfOk result (λ held. (before : List (Option HeaderValue)) → AreIdsOf before ids.old
        → MayFollow before (held_with held room.new.entries.items)
        × AreIdsOf (before ++ held_with held room.new.entries.items ∷ []) ids.new) }
    ensures right { IfOk result (λ held. IfSome held (λ h. IsHeader (with_entries h room.new.entries.items))) }
    ensures shown { IfOk result (λ held. Shows (D.view disk.old) (D.view disk.new)
        (λ image. HoldsSlot image slot (held_with held room.new.entries.items))) }
    ensures only { IfErr result (λ refusal. (before : List (Option HeaderValue)) → AreIdsOf before ids.old
        → Shows (D.view disk.old) (D.view disk.new) (λ image. (held : Option HeaderValue) → HoldsSlot image slot held
        → MayFollow before held → IsTrue (fails refusal))) }
    ensures reads { Reads (ending blames result) (D.view disk.old) (D.view disk.new) }
    ensures refused { IfErr result (λ refusal. (before : List (Option HeaderValue)) → AreIdsOf before ids.old
        → IsSlotRefusal (Shows (D.view disk.old) (D.view disk.new)) (IsSlotDamage before) slot refusal) }
{
    let held = read_one(disk, slot, room)?;
    if let Some(header) = &held {
        if !ids.insert(header.id)? {
            return Err(Refusal::Damaged {
                at: slot_at(slot),
                why: Why::Field {
                    offset: 8,
                    got: header.id,
                },
            });
        }
    }
    Ok(held)
}

/// Reads the slots of a disk, from slot 0 on: of each its gate and, where that is open, its header and entries.
///
/// `Damaged` names the first slot whose header breaks the format, or has the id of a container in a slot before it
/// (the field at 8).
pub(crate) fn read_slots<D: Disk>(
    alloc: Global,
    disk: &mut D,
    slots: u32,
) -> Result<Containers, Refusal>
    requires count { IsSlotCount slots }
    requires size { (D.view disk.old).size ≡ size_of slots }
    ensures found { IfOk result (AreSlots (Shows (D.view disk.old) (D.view disk.new)) slots) }
    // Right slots are read, unless memory or the disk fails.
    ensures only { IfErr result (λ refusal. Shows (D.view disk.old) (D.view disk.new) (λ image. (held : List (Option HeaderValue))
        → length held ≡ slots → HoldSlots 0 held image → DifferentIds held → IsTrue (fails refusal))) }
    ensures reads { Reads (ending blames result) (D.view disk.old) (D.view disk.new) }
    ensures refused { IfErr result (IsSlotsRefusal (Shows (D.view disk.old) (D.view disk.new)) slots) }
{
    let mut room = Room::new(alloc)?;
    let mut ids = BTreeSet::new(alloc);
    let mut tables = Containers::new(alloc);
    for slot in 0..slots {
        let held = read_next(disk, &mut ids, slot, &mut room)?;
        tables.take(slot, &held, &room.entries)?;
    }
    Ok(tables)
}
