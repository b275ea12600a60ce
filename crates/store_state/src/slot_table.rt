//! What each slot of a running store holds, as far as steps go by it.
ghost use Rattle.std.specs.Prelude.{◌≡◌, ◌<◌, ◌≤◌, ◌==◌, List, Option, None, Some, length, max, take, count_by, position, IfSome, IfOk};
ghost use Rattle.disk_format.specs.declared.numbers.TheConstants.{MOST_SLOTS as MANY};
ghost use Rattle.container_meta.specs.Spelling.{HeaderValue};
ghost use Rattle.store_model.specs.Slots.{AreHeaders, free_slots, ids_of, with_slot, without_slot};
ghost use Rattle.store_state.specs.Tables.{RepresentsSlots, IsFirstFree, closed_from, count_of};

use container_meta::Kind;
use std::alloc::{AllocError, Global};

/// What the container in a slot holds, as its header says: nothing, where the slot is closed.
#[derive(Clone, Copy)]
pub struct SlotCount {
    /// The kind of its segments; data, where the slot is closed.
    pub kind: Kind,
    /// How many entries.
    pub entries: u32,
    /// How many bytes they have together.
    pub bytes: u32,
    /// The digest of the header; zeros, where the slot is closed.
    pub digest: [u8; 32],
}

/// What each slot holds.
#[derive(Drop)]
pub struct SlotTable {
    /// The id of the container in each slot, 0 where the slot is closed.
    pub ids: Vec<u64>,
    /// What each holds.
    pub counts: Vec<SlotCount>,
    /// The greatest id that a container has or had since the opening, 0 where there is none.
    pub last_id: u64,
}

// What a closed slot holds.
pub(crate) fn closed() -> SlotCount
    ensures { result ≡ count_of None }
{
    let digest = [0u8; 32];
    SlotCount {
        kind: Kind::Leaf,
        entries: 0,
        bytes: 0,
        digest,
    }
}

// How many ids are 0.
pub(crate) fn zeros_in(ids: &[u64]) -> u32
    requires { length ids.now ≤ MANY }
    ensures { result ≡ count_by (λ id. id == 0) ids.now }
{
    ids.iter().filter(|id| **id == 0).count() as u32
}

// The place of the first id that is 0.
fn first_zero(ids: &[u64]) -> Option<usize>
    ensures { result ≡ position (λ id. id == 0) ids.now }
{
    ids.iter().position(|id| *id == 0)
}

impl SlotTable {
    /// How many slots are closed.
    pub fn free(&self) -> u32
        requires { length self.now.ids.items ≤ MANY }
        ensures { (held : List (Option HeaderValue)) → self.now.ids.items ≡ ids_of held → AreHeaders held
            → result ≡ free_slots held }
    {
        zeros_in(&self.ids)
    }

    /// The closed slot of least number, if there is one.
    pub fn first_free(&self) -> Option<u32>
        requires { length self.now.ids.items ≤ MANY }
        ensures some { IfSome result (λ slot. (held : List (Option HeaderValue)) → self.now.ids.items ≡ ids_of held
            → AreHeaders held → IsFirstFree slot held) }
        ensures none { result ≡ None → (held : List (Option HeaderValue)) → self.now.ids.items ≡ ids_of held
            → AreHeaders held → free_slots held ≡ 0 }
    {
        let slot = first_zero(&self.ids)?;
        Some(slot as u32)
    }

    /// The closed slots of least number, so many, or all where there are fewer. It fails for want of memory alone.
    pub fn first_closed(&self, alloc: Global, count: usize) -> Result<Vec<u32>, AllocError>
        requires { length self.now.ids.items ≤ MANY }
        ensures { IfOk result (λ slots. (held : List (Option HeaderValue)) → self.now.ids.items ≡ ids_of held
            → AreHeaders held → slots.items ≡ take count (closed_from 0 held)) }
    {
        let mut slots = Vec::new(alloc);
        for slot in 0..self.ids.len() {
            if slots.len() == count {
                break;
            }
            if self.ids[slot] == 0 {
                slots.push(slot as u32)?;
            }
        }
        Ok(slots)
    }

    /// Takes a container that was written to a slot: its id, and what its header says. It takes no memory.
    pub fn take_container(&mut self, slot: u32, id: u64, count: SlotCount)
        requires slot { slot < length self.old.ids.items }
        requires counts { length self.old.counts.items ≡ length self.old.ids.items }
        ensures holds { (held : List (Option HeaderValue)) (h : HeaderValue) → h.id ≡ id → count_of (Some h) ≡ count
            → RepresentsSlots held self.old → RepresentsSlots (with_slot slot h held) self.new }
        ensures last { self.new.last_id ≡ max self.old.last_id id }
    {
        self.ids[slot as usize] = id;
        self.counts[slot as usize] = count;
        self.last_id = self.last_id.max(id);
    }

    /// Takes it that a slot was closed. The last id stays given out. It takes no memory.
    pub fn give_back(&mut self, slot: u32)
        requires slot { slot < length self.old.ids.items }
        requires counts { length self.old.counts.items ≡ length self.old.ids.items }
        ensures holds { (held : List (Option HeaderValue)) → RepresentsSlots held self.old
            → RepresentsSlots (without_slot slot held) self.new }
        ensures last { self.new.last_id ≡ self.old.last_id }
    {
        self.ids[slot as usize] = 0;
        self.counts[slot as usize] = closed();
    }
}
