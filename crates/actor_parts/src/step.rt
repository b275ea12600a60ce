//! The steps of the store, and what they answer.

use crate::actor::Percent;
use container_meta::{OpenContainer, Seg};
use namespace::{Listing, Root};
use refusals::Phase;

/// How many containers may be offered together. More would want more memory, and hardly be faster.
pub const MOST_TOGETHER: usize = 16;

/// What an actor asks of the store. docs/MODEL.md, 'Actors, steps and answers', says what each does.
#[derive(Clone, Copy)]
pub enum Step<'a> {
    /// To store a file.
    Begin,
    /// To keep a segment that is held.
    Claim { seg: &'a Seg },
    /// To store containers, and to keep their segments: one, or up to `MOST_TOGETHER` of data, each with a segment at least.
    Seal { filled: &'a [OpenContainer] },
    /// To give a name the root of the file that was stored.
    Commit { name: &'a [u8], root: &'a Root },
    /// To give up the file that is being stored.
    Abort,
    /// To take the file of a name.
    OpenRead { name: &'a [u8] },
    /// To take the file's next segment.
    ReadNext,
    /// To give up the file that is being taken.
    EndRead,
    /// To take a name away, with its file. Which actor asks doesn't matter.
    Delete { name: &'a [u8] },
    /// To list the names. Which actor asks doesn't matter.
    List,
    /// To begin a collection, which frees containers of which less than this percentage is needed. Which actor asks doesn't matter.
    GcStart { percent: &'a Percent },
    /// To make the next step of the collection that runs. Which actor asks doesn't matter.
    GcStep,
    /// To count what the store has.
    Stat,
    /// To count the keys that the trees of all names have, each once. Which actor asks doesn't matter.
    Unique,
}

/// What a step answers, where it isn't refused.
#[derive(Drop)]
pub enum Answer {
    /// A file may be stored.
    Begun,
    /// The segment is held, and kept.
    Held,
    /// No such segment is held.
    Absent,
    /// So many containers were stored, the first of those that were offered, under the next ids: this is the greatest.
    Sealed {
        id: u64,
        count: usize,
    },
    /// The name has the root, from this sequence number on.
    Committed {
        sequence: u64,
    },
    /// The file was given up.
    Aborted,
    /// The file has so many bytes, which are to come.
    Opened {
        length: u64,
    },
    /// So many bytes of the file, at least one, are the first of the buffer.
    Bytes {
        count: u32,
    },
    /// The file has ended.
    End,
    /// The file was given up.
    Dropped,
    /// The name is gone, from this sequence number on.
    Deleted {
        sequence: u64,
    },
    /// Each name with its root, in the order of the names' bytes.
    Listed {
        files: Listing,
    },
    /// A collection runs: it goes over the containers with an id below this one.
    Started {
        snapshot: u64,
    },
    /// The collection did this, and goes on.
    Did {
        phase: Phase,
    },
    /// The collection has ended: so many containers were given back, and so many segments copied.
    Done {
        freed: u64,
        copied: u64,
    },
    /// How many names there are, entries of valid containers, bytes of these, and slots that are used and free.
    Stat {
        files: u64,
        segments: u64,
        bytes: u64,
        used: u64,
        free: u64,
    },
    /// How many keys the trees of all names have, and how many bytes these have together, each counted once.
    Unique {
        segments: u64,
        bytes: u64,
    },
}
