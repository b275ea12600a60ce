//! The containers of a store in memory.
ghost use Rattle.std.specs.Prelude.{◌≡◌, ◌∷◌, ◌++◌, [], List, Option, None, Some, length, false};
ghost use Rattle.std.specs.Prelude.{◌≤◌, OnOk, IfSome};
ghost use Rattle.disk_format.specs.declared.numbers.TheConstants.{MOST_SLOTS as MANY};
ghost use Rattle.container_meta.specs.Spelling.{HeaderValue, IsHeader, header_digest, with_entries, held_with, has_digest};
ghost use Rattle.container_meta.specs.declared.entry.Entry.{Entry as EntryValue};
ghost use Rattle.store_model.specs.Slots.{AreHeaders, place_of, free_slots};
ghost use Rattle.store_state.specs.Containers.{RepresentsContainers, ArePart, is_newer};
ghost use Rattle.store_state.specs.Tables.{count_of};

use crate::slot_table::{SlotCount, closed, zeros_in};
use container_meta::{Entry, Header, Key, Kind, Place, key_of};
use segment_index::StoreIndex;
use std::alloc::{AllocError, Global};

/// The containers of a store, as its slots have them.
#[derive(Drop)]
pub struct Containers {
    /// Each key's newest copy.
    pub index: StoreIndex,
    /// The id of the container in each slot, 0 where the slot is closed.
    pub ids: Vec<u64>,
    /// What each holds.
    pub counts: Vec<SlotCount>,
    /// The greatest of the ids, 0 where there is none.
    pub last_id: u64,
}

pub(crate) fn place_in(slot: u32, entry: &Entry) -> Place
    ensures { result ≡ place_of slot entry.now }
{
    Place {
        slot,
        offset: entry.offset,
        length: entry.length,
        level: entry.level,
    }
}

// What a container holds.
fn count_in(header: &Header, entries: &[Entry]) -> SlotCount
    requires right { IsHeader (with_entries header.now entries.now) }
    requires digest { header.now.digest ≡ header_digest (with_entries header.now entries.now) }
    ensures { result ≡ count_of (Some (with_entries header.now entries.now)) }
{
    let digest = header.digest;
    SlotCount {
        kind: header.kind,
        entries: entries.len() as u32,
        bytes: header.data_length,
        digest,
    }
}

impl Containers {
    /// No slot.
    pub fn new(alloc: Global) -> Containers
        ensures { RepresentsContainers [] result }
    {
        Containers {
            index: StoreIndex::new(alloc),
            ids: Vec::new(alloc),
            counts: Vec::new(alloc),
            last_id: 0,
        }
    }

    /// Takes one more slot, which is closed.
    pub fn add_closed(&mut self) -> Result<(), AllocError>
        ensures { OnOk result ((held : List (Option HeaderValue)) → RepresentsContainers held self.old
            → RepresentsContainers (held ++ None ∷ []) self.new) }
    {
        self.ids.push(0)?;
        self.counts.push(closed())?;
        Ok(())
    }

    // Whether a container of this id is newer than the one that has a key's copy.
    fn is_newer(&self, key: &Key, id: u64) -> bool
        ensures { result ≡ is_newer self.now.index self.now.ids.items key.now id }
    {
        match self.index.find(key) {
            Some(place) => {
                let known = self.ids.get(place.slot as usize).copied().unwrap_or(0);
                known < id
            }
            None => true,
        }
    }

    // Takes one more entry of the container that stands after the slots that were read.
    fn add_entry(&mut self, slot: u32, id: u64, kind: Kind, entry: &Entry) -> Result<(), AllocError>
        ensures { OnOk result ((held : List (Option HeaderValue)) (before : List EntryValue)
            → has_digest before entry.now.digest ≡ false → ArePart held slot id kind before self.old
            → ArePart held slot id kind (before ++ entry.now ∷ []) self.new) }
    {
        let key = key_of(kind, &entry.digest);
        if self.is_newer(&key, id) {
            self.index.set(&key, place_in(slot, entry))?;
        }
        Ok(())
    }

    // Takes the entries of the container that stands after the slots that were read.
    fn add_entries(
        &mut self,
        slot: u32,
        header: &Header,
        entries: &[Entry],
    ) -> Result<(), AllocError>
        requires { IsHeader (with_entries header.now entries.now) }
        ensures { OnOk result ((held : List (Option HeaderValue)) → ArePart held slot header.now.id header.now.kind [] self.old
            → ArePart held slot header.now.id header.now.kind entries.now self.new) }
    {
        for entry in entries {
            self.add_entry(slot, header.id, header.kind, entry)?;
        }
        Ok(())
    }

    /// Takes one more slot, which has a container; `slot` is its number.
    pub fn add(&mut self, slot: u32, header: &Header, entries: &[Entry]) -> Result<(), AllocError>
        requires right { IsHeader (with_entries header.now entries.now) }
        requires digest { header.now.digest ≡ header_digest (with_entries header.now entries.now) }
        ensures { OnOk result ((held : List (Option HeaderValue)) → slot ≡ length held → RepresentsContainers held self.old
            → RepresentsContainers (held ++ Some (with_entries header.now entries.now) ∷ []) self.new) }
    {
        self.add_entries(slot, header, entries)?;
        self.ids.push(header.id)?;
        self.counts.push(count_in(header, entries))?;
        self.last_id = self.last_id.max(header.id);
        Ok(())
    }

    /// How many slots are closed.
    pub fn free(&self) -> u32
        requires { length self.now.ids.items ≤ MANY }
        ensures { (held : List (Option HeaderValue)) → RepresentsContainers held self.now → AreHeaders held
            → result ≡ free_slots held }
    {
        zeros_in(&self.ids)
    }

    /// Takes what the next slot holds, if it is open with these entries; `slot` is its number.
    pub fn take(
        &mut self,
        slot: u32,
        held: &Option<Header>,
        entries: &[Entry],
    ) -> Result<(), AllocError>
        requires right { IfSome held.now (λ h. IsHeader (with_entries h entries.now)) }
        requires digest { IfSome held.now (λ h. h.digest ≡ header_digest (with_entries h entries.now)) }
        ensures { OnOk result ((before : List (Option HeaderValue)) → slot ≡ length before → RepresentsContainers before self.old
            → RepresentsContainers (before ++ held_with held.now entries.now ∷ []) self.new) }
    {
        match held {
            Some(header) => self.add(slot, header, entries),
            None => self.add_closed(),
        }
    }
}
