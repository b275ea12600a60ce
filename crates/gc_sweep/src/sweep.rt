//! A sweep that is under way.

use container_meta::OpenContainer;

/// What the next step of a sweep does.
#[derive(Clone, Copy)]
pub enum Next {
    /// It copies what is live of the source of a number, from the entry of a number on.
    Copy { source: usize, entry: usize },
    /// It writes what was copied. Then that source goes on from that entry.
    Flush { source: usize, entry: usize },
    /// It gives back all sources that are ready. Then that source goes on from that entry.
    Release { source: usize, entry: usize },
    /// It ends.
    End,
}

/// A sweep that is under way.
#[derive(Drop)]
pub struct Sweep {
    /// The ids of the sources, in the order in which they are taken.
    pub sources: Vec<u64>,
    /// The container that is filled with live copies.
    pub buffer: OpenContainer,
    /// The slots of sources that came to their end, a segment of which lies in that container, in the order in which they did.
    pub waiting: Vec<u32>,
    /// The slots of sources that may be given back, in that order.
    pub ready: Vec<u32>,
    /// What the next step does.
    pub next: Next,
    /// How many sources were given back.
    pub freed: usize,
    /// How many segments were copied.
    pub copied: usize,
}
