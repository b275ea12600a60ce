//! What is planned of a container whose live copies are to be copied.

use container_meta::{Key, OpenContainer};

/// What is to be done with the entries of a container from one on, up to another.
#[derive(Drop)]
pub struct Plan {
    /// The container that is filled, with the segments that were added as its last.
    pub buffer: OpenContainer,
    /// The keys that are to leave the index: those of the dead copies, in the order of their entries.
    pub dead: Vec<Key>,
    /// The number of the entry that is next: there are no more, or it is live and doesn't fit.
    pub next: usize,
    /// Whether there are no more.
    pub ended: bool,
    /// How many segments were added.
    pub copied: usize,
}
