//! Segments of a file that are read ahead of its reader.
ghost use Rattle.std.specs.Prelude.{◌≡◌, ◌≤◌, IfSome, length};
ghost use Rattle.merkle_file.specs.Walk.{IsNodeNext};
ghost use Rattle.disk_format.specs.declared.numbers.TheConstants.{MOST_SEGMENT as LONGEST};

use crate::opening::top_of;
use actor_parts::{Actor, Part, Parts, SegBuf};
use container_meta::{Key, Kind, key_of};
use dd_disk::Disk;
use digests::{Ahead, LEAST_AT_ONCE, TakesDigests, has_threads};
use disk_format::{MOST_SEGMENT, data_at};
use merkle_file::{Cursor, Hash, Want};
use namespace::Root;
use segment_index::StoreIndex;
use std::alloc::Global;
use std::thread::Threads;

/// So many nodes and segments are read ahead at most.
const MOST_AHEAD: usize = 1_024;
/// A file of fewer bytes may have too few segments for threads.
const LEAST_LENGTH: u64 = LEAST_AT_ONCE as u64 * MOST_SEGMENT;

/// A walk down a file, ahead of its reader.
#[derive(Drop)]
enum Walk {
    /// It has not begun.
    Before,
    /// It goes on here.
    On(Cursor),
    /// It came to the end or to what it can't go on from, or there was no memory; or it would not pay.
    Over,
}

/// Segments of a file that were read ahead of its reader, and their digests. It serves a reader that begins when it does. Contracts see
/// nothing of it: the reader reads each segment itself, and takes the digest from here where the bytes are the same.
#[derive(Drop)]
pub struct ReadAhead {
    walk: Walk,
    digests: Ahead,
}

// Reads the bytes of a key ahead, whatever their digest, and answers how many there are.
fn read_key<D: Disk>(disk: &D, index: &StoreIndex, key: &Key, buf: &mut [u8]) -> Option<usize>
    requires room { LONGEST ≤ length buf.old }
    ensures within { IfSome result (λ count. count ≤ length buf.new) }
    ensures size { length buf.new ≡ length buf.old }
{
    let place = index.find(key)?;
    let count = place.length as usize;
    if count > buf.len() {
        return None;
    }
    let at = data_at(place.slot) + u64::from(place.offset);
    disk.read_ahead(at, &mut buf[..count]).then_some(count)
}

// Opens the node that comes first on a walk, and answers whether it could.
fn open_node<D: Disk>(
    disk: &D,
    index: &StoreIndex,
    cursor: &mut Cursor,
    digest: &Hash,
    buf: &mut [u8],
) -> bool
    requires node { IsNodeNext cursor.old }
    requires room { LONGEST ≤ length buf.old }
    ensures size { length buf.new ≡ length buf.old }
{
    match read_key(disk, index, &key_of(Kind::Tree, digest), buf) {
        Some(count) => cursor.feed(&buf[..count]).is_ok(),
        None => false,
    }
}

// Adds the segment that comes first on a walk, and passes it; it answers whether it could.
fn add_segment<D: Disk>(
    disk: &D,
    index: &StoreIndex,
    digests: &mut Ahead,
    cursor: &mut Cursor,
    digest: &Hash,
    buf: &mut [u8],
) -> bool
    requires room { LONGEST ≤ length buf.old }
    ensures size { length buf.new ≡ length buf.old }
{
    let Some(count) = read_key(disk, index, &key_of(Kind::Leaf, digest), buf) else {
        return false;
    };
    cursor.skip();
    digests.add(&buf[..count]).is_ok()
}

// Goes on by so many nodes and segments, and adds the segments. It answers whether it came so far.
fn add_segments<D: Disk>(
    disk: &D,
    index: &StoreIndex,
    digests: &mut Ahead,
    cursor: &mut Cursor,
    buf: &mut [u8],
) -> bool
    requires room { LONGEST ≤ length buf.old }
{
    for _ in 0..MOST_AHEAD {
        let passed = match cursor.want() {
            Want::Node { digest, .. } => open_node(disk, index, cursor, &digest, buf),
            Want::Leaf { digest, .. } => add_segment(disk, index, digests, cursor, &digest, buf),
            Want::End => false,
        };
        if !passed {
            return false;
        }
    }
    true
}

// A walk down a file from its beginning; there is none where it would not pay, or there is no memory.
fn walk_from(alloc: Global, root: &Root) -> Walk {
    if root.length < LEAST_LENGTH {
        return Walk::Over;
    }
    match Cursor::new(alloc, &top_of(root)) {
        Ok(cursor) => Walk::On(cursor),
        Err(_) => Walk::Over,
    }
}

impl ReadAhead {
    /// Nothing was read. Nothing will be where a single thread would take the digests.
    pub fn new(rt: &impl Threads, alloc: Global) -> ReadAhead {
        ReadAhead {
            walk: if has_threads(rt) {
                Walk::Before
            } else {
                Walk::Over
            },
            digests: Ahead::new(alloc),
        }
    }

    // Reads on.
    fn go_on<D: Disk>(
        &mut self,
        alloc: Global,
        disk: &D,
        index: &StoreIndex,
        root: &Root,
        buf: &mut [u8],
    )
        requires room { LONGEST ≤ length buf.old }
    {
        self.digests.clear();
        let walk = match std::mem::replace(&mut self.walk, Walk::Over) {
            Walk::Before => walk_from(alloc, root),
            walk => walk,
        };
        let Walk::On(mut cursor) = walk else {
            return;
        };
        if add_segments(disk, index, &mut self.digests, &mut cursor, buf) {
            self.walk = Walk::On(cursor);
        }
    }

    /// Reads some thousand segments ahead of an actor that is given a file, once it was given what was read ahead before, and answers
    /// whether it did; `take_digests` has to come after it then. Where there is no memory for them, it goes on without.
    pub fn look_ahead<D: Disk>(
        &mut self,
        alloc: Global,
        disk: &D,
        index: &StoreIndex,
        parts: &Parts,
        actor: Actor,
        buf: &mut SegBuf,
    ) -> bool {
        if !self.digests.is_used_up() {
            return false;
        }
        let Part::Reading(reader) = parts.part(actor) else {
            return false;
        };
        self.go_on(alloc, disk, index, &reader.root, buf.bytes_mut());
        self.digests.len() > 0
    }

    /// Takes the digests of what was read ahead at once, by several threads. Where there is no memory for them, what was read is given
    /// up, and it reads ahead no more.
    pub fn take_digests<R: Threads + Sync>(&mut self, rt: &R, alloc: Global) {
        if self.digests.take(rt, alloc).is_err() {
            *self = ReadAhead {
                walk: Walk::Over,
                digests: Ahead::new(alloc),
            };
        }
    }
}

impl TakesDigests for ReadAhead {
    fn digest(&mut self, bytes: &[u8]) -> [u8; 32] {
        self.digests.digest(bytes)
    }
}
