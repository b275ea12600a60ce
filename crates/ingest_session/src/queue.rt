//! The segments of a session that wait for their turn.
ghost use Rattle.std.specs.Prelude.{◌≡◌, ◌+◌, ◌<◌, ◌≤◌, IsTrue, Some, [], ◌∷◌, ◌++◌, IfOk, drop, length};
ghost use Rattle.ingest_session.specs.Moving.{front_of};

use crate::chunks::Chunks;
use container_meta::Seg;
use digests::digests;
use disk_format::MOST_SEGMENT;
use std::alloc::{AllocError, Global};
use std::collections::VecDeque;
use std::marker::Model;
use std::thread::Threads;

/// How many segments wait at most while the file goes on, in a session that takes their digests one by one.
pub const QUEUE: usize = 64;
/// The same in a session that has threads take their digests at once: so many are worth the threads.
pub const LONG_QUEUE: usize = 1_024;
/// So many fewer than may wait are to wait before a caller gives a piece of up to 4,096 bytes, so that it is taken whole: at most
/// two segments end in such a piece, since all of them but the first have 2,048 bytes or more of it.
pub(crate) const SPARED: usize = 3;
/// How many segments wait at most before a piece is given, in the session with the shortest queue.
pub const MOST_WAITING: usize = QUEUE - SPARED;
/// Where so many segments wait and the first has no digest, it pays to start threads that take all of them.
pub(crate) const MANY: usize = 32;

/// Segments in the order in which they came. It takes the memory for all of them when it is made; `first` and `hash` alone take more.
#[derive(Drop)]
pub struct Queue {
    waiting: Chunks,
    /// The digests of the first segments that wait, of as many as were taken.
    kept: VecDeque<[u8; 32]>,
}

impl Model for Queue {
    ghost use Rattle.ingest_session.specs.Buffers.{AreDigests, Waiting};

    ghost Value = { Waiting };

    ghost view = { λ q. q.waiting };

    ghost invariant = { λ q. AreDigests q.kept.items q.waiting.segments };
}

impl Queue {
    /// No segments, and room for so many, and one more. It fails for want of memory alone, and no later call takes any but `first`
    /// and `hash`.
    pub fn new(alloc: Global, most: usize) -> Result<Queue, AllocError>
        requires { most ≤ LONG_QUEUE }
        ensures { IfOk result (λ q. q ≡ record { most = most; segments = [] }) }
    {
        Ok(Queue {
            waiting: Chunks::new(alloc, most)?,
            kept: VecDeque::new(alloc),
        })
    }

    /// How many segments wait.
    pub fn len(&self) -> usize
        ensures value { result ≡ length self.now.segments }
        ensures at_most { length self.now.segments ≤ self.now.most + 1 }
    {
        self.waiting.len()
    }

    /// How many wait at most while the file goes on.
    pub fn most(&self) -> usize
        ensures { result ≡ self.now.most }
    {
        self.waiting.most()
    }

    /// Adds a segment at the end.
    pub fn push(&mut self, segment: &[u8])
        requires room { length self.old.segments ≤ self.old.most }
        requires at_most { length segment.now ≤ MOST_SEGMENT }
        ensures { self.new ≡ record self.old { segments = self.old.segments ++ segment.now ∷ [] } }
    {
        self.waiting.push(segment);
    }

    /// The first segment with its digest, which is kept where `hash` took it, and else is taken here for this answer alone: the queue
    /// stays as it is. The bytes are copied, which may fail for want of memory, and it fails for nothing else.
    pub fn first(&self, alloc: Global) -> Result<Seg, AllocError>
        requires { 0 < length self.now.segments }
        ensures { IfOk result (λ seg. front_of self.now.segments ≡ Some seg) }
    {
        let bytes = self.waiting.get(0);
        match self.kept.front() {
            Some(digest) => Seg::leaf_with_digest(alloc, bytes, *digest),
            None => Seg::leaf(alloc, bytes),
        }
    }

    /// Whether the first segment has no digest yet, and so many wait that it pays to start threads.
    pub fn hash_pays(&self) -> bool
        ensures { IsTrue result → MANY ≤ length self.now.segments }
    {
        self.kept.is_empty() && self.waiting.len() >= MANY
    }

    /// Takes the digests of all segments that have none yet, at once, by several threads. It fails for want of memory alone, and
    /// then none of them has one.
    pub fn hash(&mut self, rt: &(impl Threads + Sync), alloc: Global) -> Result<(), AllocError>
        ensures { self.new ≡ self.old }
    {
        let bare = self.waiting.from(alloc, self.kept.len())?;
        let taken = digests(rt, alloc, &bare)?;
        self.kept.append(&mut VecDeque::from_vec(taken))
    }

    /// Takes the first segment away.
    pub fn pop(&mut self)
        requires { 0 < length self.old.segments }
        ensures { self.new ≡ record self.old { segments = drop 1 self.old.segments } }
    {
        let _ = self.kept.pop_front();
        self.waiting.pop();
    }
}
