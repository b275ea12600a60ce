//! Containers that are being filled.

ghost use Rattle.std.specs.Prelude.{◌≡◌, ◌+◌, vec_len, vec_capacity, ◌<◌, ◌≤◌, ◌↔◌, [], ◌∷◌, ◌++◌, length, take, drop, IfOk, IsTrue, true};
ghost use Rattle.std.specs.Prelude.{if◌then◌else◌};

use crate::entry::{Entry, stands_in};
use crate::kind::{Kind, byte_of};
use crate::segment::Seg;
use crate::writing::{Fields, put_data, put_entries, put_front};
use disk_format::{DATA_BYTES, MOST_ENTRIES, SLOT_BYTES};
use std::alloc::{AllocError, Global};
use std::marker::Model;

/// Whether a segment was taken.
#[derive(Clone, Copy)]
pub enum Fit {
    /// It stands in the container now.
    Added,
    /// The container has as many entries as it may have, or the segment's bytes don't fit beside those that are there.
    NoRoom,
}

/// Adds an entry, for which memory is there.
pub(crate) fn push_entry(entries: &mut Vec<Entry>, entry: Entry)
    requires { vec_len entries.old < vec_capacity entries.old }
    ensures items { entries.new.items ≡ entries.old.items ++ entry ∷ [] }
    ensures capacity { vec_capacity entries.old ≤ vec_capacity entries.new }
{
    entries.push(entry).unwrap();
}

/// Adds bytes, for which memory is there.
fn push_bytes(bytes: &mut Vec<u8>, from: &[u8])
    requires { vec_len bytes.old + length from.now ≤ vec_capacity bytes.old }
    ensures items { bytes.new.items ≡ bytes.old.items ++ from.now }
    ensures capacity { vec_capacity bytes.old ≤ vec_capacity bytes.new }
{
    bytes.extend_from_slice(from).unwrap();
}

/// So many bytes from a place on.
fn part(bytes: &[u8], from: usize, count: usize) -> &[u8]
    requires { from + count ≤ length bytes.now }
    ensures { result.now ≡ take count (drop from bytes.now) }
{
    &bytes[from..][..count]
}

/// A container that is being filled with segments of one kind, each there once (docs/FORMAT.md, 'Container slot').
///
/// It has room for `disk_format::MOST_ENTRIES` segments of `disk_format::DATA_BYTES` bytes together, and takes the
/// memory for all of them when it is made.
#[derive(Drop)]
pub struct OpenContainer {
    kind: Kind,
    entries: Vec<Entry>,
    bytes: Vec<u8>,
}

impl Model for OpenContainer {
    ghost use Rattle.container_meta.specs.Segments.{Contents, segments_in};

    ghost Value = { Contents };

    ghost view = { λ c. record { kind = c.kind; segments = segments_in c.entries.items c.bytes.items } };

    ghost use Rattle.container_meta.specs.Packed.{IsPacked};

    ghost invariant = { λ c. IsPacked c.kind c.entries c.bytes };
}

impl OpenContainer {
    ghost use Rattle.container_meta.specs.Format.{is_id};
    ghost use Rattle.container_meta.specs.Segments.{CanAdd, StandFrom, entries_from, segment_at, has_key};
    ghost use Rattle.container_meta.specs.Segments.{has_room as room_for, has_segment, is_segment};
    ghost use Rattle.container_meta.specs.Spelling.{IsHeader, IsSpelled, header_of, header_digest, container_spelling};

    /// An empty container, with all the memory that it will need. It fails for want of memory alone.
    pub fn new(alloc: Global, kind: Kind) -> Result<OpenContainer, AllocError>
        ensures { IfOk result (λ c. c ≡ record { kind = kind; segments = [] }) }
    {
        Ok(OpenContainer {
            kind,
            entries: Vec::with_capacity(alloc, MOST_ENTRIES)?,
            bytes: Vec::with_capacity(alloc, DATA_BYTES as usize)?,
        })
    }

    /// The kind of its segments.
    pub fn kind(&self) -> Kind
        ensures { result ≡ self.now.kind }
    {
        self.kind
    }

    /// How many segments it holds.
    pub fn len(&self) -> usize
        ensures { result ≡ length self.now.segments }
    {
        self.entries.len()
    }

    /// Whether it holds no segment.
    pub fn is_empty(&self) -> bool
        ensures { IsTrue result ↔ (self.now.segments ≡ []) }
    {
        self.entries.is_empty()
    }

    /// The entries of its segments, as they stand in its header, which is right under each right id.
    pub fn entries(&self) -> &[Entry]
        ensures entries { result.now ≡ entries_from 0 self.now.segments }
        ensures header { (id : _) → is_id id ≡ true → 1 ≤ length self.now.segments
            → IsHeader (header_of id self.now.kind self.now.segments) }
    {
        self.entries.as_slice()
    }

    /// The bytes of a segment, by its number.
    pub fn bytes_of(&self, i: usize) -> &[u8]
        requires { i < length self.now.segments }
        ensures { result.now ≡ (segment_at self.now.segments i).bytes }
    {
        let entry = self.entries[i];
        part(&self.bytes, entry.offset as usize, entry.length as usize)
    }

    /// Whether a segment with this key, its kind's number and its digest, is in it.
    pub fn has(&self, key: &[u8; 33]) -> bool
        ensures { result ≡ has_key self.now key.now }
    {
        byte_of(self.kind) == key[0] && stands_in(&self.entries, &key[1..])
    }

    /// Whether the segment of a number has the level and the bytes of this one. Equal bytes have equal digests, so bytes
    /// are compared only where digests are equal.
    fn is_at(&self, i: usize, seg: &Seg) -> bool
        requires { i < length self.now.segments }
        ensures { result ≡ is_segment seg.now.segment (segment_at self.now.segments i) }
    {
        let entry = self.entries[i];
        entry.level == seg.level()
            && entry.digest == seg.digest()
            && self.bytes_of(i) == seg.bytes()
    }

    /// Whether this segment, of this level and these bytes, is in it, and not only one of its digest. The kind is not
    /// looked at.
    pub fn holds(&self, seg: &Seg) -> bool
        ensures { result ≡ has_segment self.now seg.now.segment }
    {
        for i in 0..self.len() {
            if self.is_at(i, seg) {
                return true;
            }
        }
        false
    }

    /// Whether a segment of so many bytes fits: `try_add` then adds it.
    pub fn has_room(&self, bytes: usize) -> bool
        ensures { result ≡ room_for self.now bytes }
    {
        self.entries.len() < MOST_ENTRIES && bytes <= DATA_BYTES as usize - self.bytes.len()
    }

    /// Adds a segment of the container's kind, whose key isn't in it yet and whose length and level that kind takes,
    /// unless there is no room for it.
    pub fn try_add(&mut self, seg: &Seg) -> Fit
        requires { CanAdd self.old seg.now }
        ensures added { result ≡ Fit.Added → self.new ≡ record self.old { segments = self.old.segments ++ seg.now.segment ∷ [] } }
        ensures no_room { result ≡ Fit.NoRoom → self.new ≡ self.old }
        ensures which { result ≡ (if room_for self.old (length seg.now.segment.bytes) then Fit.Added else Fit.NoRoom) }
    {
        let bytes = seg.bytes();
        if !self.has_room(bytes.len()) {
            return Fit::NoRoom;
        }
        let entry = Entry {
            digest: seg.digest(),
            offset: self.bytes.len() as u32,
            length: bytes.len() as u32,
            level: seg.level(),
        };
        push_entry(&mut self.entries, entry);
        push_bytes(&mut self.bytes, bytes);
        Fit::Added
    }

    /// Takes everything out. The memory stays.
    pub fn clear(&mut self)
        ensures { self.new ≡ record self.old { segments = [] } }
    {
        self.entries.clear();
        self.bytes.clear();
    }

    /// Writes the container under an id, as the `disk_format::SLOT_BYTES` bytes of a slot, and gives the digest of its
    /// header. It holds a segment at least, and the id is 1 to `disk_format::LAST_ID`.
    pub fn encode(&self, id: u64, image: &mut [u8]) -> [u8; 32]
        requires there { 1 ≤ length self.now.segments }
        requires id { is_id id ≡ true }
        requires image { length image.old ≡ SLOT_BYTES }
        ensures image { image.new ≡ container_spelling id self.now.kind self.now.segments }
        ensures digest { result ≡ header_digest (header_of id self.now.kind self.now.segments) }
        // Each segment stands where its entry says.
        ensures stored { StandFrom 0 self.now.segments image.new }
        ensures header { IsSpelled (header_of id self.now.kind self.now.segments) image.new }
    {
        let (front, rest) = image.split_at_mut(512);
        let (entries, data) = rest.split_at_mut(49_152);
        put_entries(entries, &self.entries);
        let fields = Fields {
            id,
            kind: self.kind,
            count: self.entries.len() as u16,
            data_length: self.bytes.len() as u32,
        };
        let digest = put_front(front, &fields, &entries[..48 * self.entries.len()]);
        put_data(data, &self.bytes);
        digest
    }
}
