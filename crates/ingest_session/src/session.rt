//! A session: the bytes of a file as they come.
ghost use Rattle.std.specs.Prelude.{◌≡◌, ◌+◌, ◌*◌, ◌<◌, ◌≤◌, ℕ, IsTrue, false, List, [], ◌++◌, IfOk, OnErr, length, take};

use crate::aside::Aside;
use crate::line::Line;
use crate::queue::{LONG_QUEUE, MANY, QUEUE, Queue, SPARED};
use container_meta::{Kind, OpenContainer, Seg};
use disk_format::{LEAST_SEGMENT, MOST_FILE};
use merkle_file::{Top, TreeBuilder};
use refusals::{PartKind, Refusal};
use segmenter::Cutter;
use std::alloc::{AllocError, Global};
use std::marker::Model;
use std::thread::Threads;

/// The bytes of a file as they come, and what of them the store is still to hold.
///
/// When it is made it takes the memory of two open containers and of its queue: buffers of 262,144 bytes for 16 segments each, 5 for a
/// queue of 64 and 65 for one of 1,024, of which it writes as much as the segments have. That of the nodes that wait comes with them, and
/// so does that of containers that are set aside, at most 16: 4.2 MB in all, beside the map of their keys.
#[derive(Drop)]
pub struct Session {
    pub(crate) alloc: Global,
    /// How many bytes were taken.
    pub(crate) count: u64,
    /// No more bytes are to come.
    pub(crate) ended: bool,
    pub(crate) cutter: Cutter,
    pub(crate) queue: Queue,
    /// The first segment of the queue, where the builder has it already.
    pub(crate) ahead: Option<Seg>,
    /// The finished nodes that aren't in their place.
    pub(crate) line: Line,
    /// The first of them as a segment, where that was made.
    pub(crate) spelled: Option<Seg>,
    /// Whose turn it is, as it was found last: `Tree` where it is that of the first node in line, else `Leaf`.
    pub(crate) turn: Kind,
    /// It has the nodes that the segment ahead finishes.
    pub(crate) builder: TreeBuilder,
    /// The root, where the tree is whole.
    pub(crate) top: Option<Top>,
    pub(crate) leaves: OpenContainer,
    pub(crate) nodes: OpenContainer,
    /// The containers of data that were set aside, to be sealed together.
    pub(crate) aside: Aside,
    /// The item whose turn it is was answered Absent and didn't fit.
    pub(crate) waits: bool,
    /// How many segments were put in their place by a call that was refused after it.
    pub(crate) unseen: usize,
}

impl Model for Session {
    ghost use Rattle.ingest_session.specs.State.{SessionState};
    ghost use Rattle.ingest_session.specs.Sound.{IsSession};

    ghost Value = { SessionState };

    ghost view = { λ s. record {
      count = s.count;
      ended = s.ended;
      hand = s.cutter;
      queue = s.queue.segments;
      most = s.queue.most;
      ahead = s.ahead;
      line = s.line;
      spelled = s.spelled;
      turn = s.turn;
      built = s.builder;
      top = s.top;
      leaves = s.leaves;
      nodes = s.nodes;
      aside = s.aside;
      waits = s.waits;
      unseen = s.unseen;
    } };

    ghost invariant = { λ s. IsSession (record {
      count = s.count;
      ended = s.ended;
      hand = s.cutter;
      queue = s.queue.segments;
      most = s.queue.most;
      ahead = s.ahead;
      line = s.line;
      spelled = s.spelled;
      turn = s.turn;
      built = s.builder;
      top = s.top;
      leaves = s.leaves;
      nodes = s.nodes;
      aside = s.aside;
      waits = s.waits;
      unseen = s.unseen;
    }) };
}

impl Session {
    ghost use Rattle.ingest_session.specs.History.{History, HasHistory, IsBegun, no_history};
    ghost use Rattle.ingest_session.specs.Calls.{IsTaking, IsPushAnswer};
    ghost use Rattle.ingest_session.specs.Cuts.{CutsOne};
    ghost use Rattle.ingest_session.specs.Settling.{most_waiting, seen};
    ghost use Rattle.ingest_session.specs.Sound.{IsSession};
    ghost use Rattle.ingest_session.specs.declared.queue.TheConstants.{MOST_WAITING};

    /// A session that was given nothing. So many segments wait at most while the file goes on: `QUEUE`, or up to `LONG_QUEUE` where
    /// `hash` is called. It fails for want of memory alone.
    pub fn new(alloc: Global, most: usize) -> Result<Session, AllocError>
        requires least { QUEUE ≤ most }
        requires limit { most ≤ LONG_QUEUE }
        ensures begun { IfOk result IsBegun }
        ensures history { IfOk result (λ s. HasHistory s no_history) }
        ensures most { IfOk result (λ s. s.most ≡ most) }
    {
        let session = Session {
            alloc,
            count: 0,
            ended: false,
            cutter: Cutter::new(alloc)?,
            queue: Queue::new(alloc, most)?,
            ahead: None,
            line: Line::new(alloc)?,
            spelled: None,
            turn: Kind::Leaf,
            builder: TreeBuilder::new(alloc)?,
            top: None,
            leaves: OpenContainer::new(alloc, Kind::Leaf)?,
            nodes: OpenContainer::new(alloc, Kind::Tree)?,
            aside: Aside::new(alloc)?,
            waits: false,
            unseen: 0,
        };
        session.sound();
        Ok(session)
    }

    /// What holds of every session. It does nothing.
    pub(crate) fn sound(&self)
        ensures { IsSession self.now }
    {
        let _ = &self.count;
    }

    /// Takes bytes up to the end of the segment in hand, which then waits for its turn, and says how many.
    fn take_piece(&mut self, bytes: &[u8]) -> usize
        requires ongoing { self.old.ended ≡ false }
        requires room { length self.old.queue + self.old.unseen < self.old.most }
        requires some { 0 < length bytes.now }
        requires few { self.old.count + length bytes.now ≤ MOST_FILE }
        ensures some { 0 < result }
        ensures within { result ≤ length bytes.now }
        ensures takes { IsTaking (take result bytes.now) self.old self.new }
        ensures cuts { CutsOne result self.old self.new }
    {
        let step = self.cutter.push(bytes);
        self.count += step.taken as u64;
        if !step.whole {
            return step.taken;
        }
        self.queue.push(self.cutter.segment());
        self.cutter.next();
        step.taken
    }

    /// Takes the next bytes of the file, and says how many of them. These are fewer than all only where as many segments wait then as
    /// may. It takes no memory, and refuses after `finish`, and where the file would be longer than a file may be.
    pub fn push(&mut self, bytes: &[u8]) -> Result<usize, Refusal>
        ensures refusal { IsPushAnswer self.old (length bytes.now) result }
        ensures err { OnErr result (self.new ≡ self.old) }
        ensures all { IfOk result (λ n. n < length bytes.now → self.new.most ≤ length self.new.queue + self.new.unseen) }
        ensures some { IfOk result (λ n. 0 < length bytes.now → length self.old.queue + self.old.unseen < self.old.most → 0 < n) }
        // A caller who made room knows that a short piece is taken whole.
        ensures whole { IfOk result (λ n. seen self.old ≤ most_waiting self.old
            → length bytes.now ≤ 2 * LEAST_SEGMENT → n ≡ length bytes.now) }
        ensures takes { IfOk result (λ n. IsTaking (take n bytes.now) self.old self.new) }
        ensures history { IfOk result (λ n. (h : History) → HasHistory self.old h
            → HasHistory self.new (record h { given = h.given ++ take n bytes.now })) }
    {
        if self.ended {
            return Err(Refusal::WrongPart {
                part: PartKind::Finished,
            });
        }
        if bytes.len() as u64 > MOST_FILE - self.count {
            return Err(Refusal::TooLong);
        }
        let mut taken = 0;
        while taken < bytes.len() && self.queued() < self.queue.most() {
            let (_, rest) = bytes.split_at(taken);
            taken += self.take_piece(rest);
        }
        self.sound();
        Ok(taken)
    }

    /// How many bytes were taken.
    pub fn count(&self) -> u64
        ensures { result ≡ self.now.count }
    {
        self.count
    }

    /// Whether the file has ended, so that no more bytes are to come.
    pub fn has_ended(&self) -> bool
        ensures { result ≡ self.now.ended }
    {
        self.ended
    }

    /// How many segments the queue holds, and those which it no longer holds that a refused `due` put in their place: they
    /// count until `due` answers.
    pub fn queued(&self) -> usize
        ensures { result ≡ length self.now.queue + self.now.unseen }
    {
        self.queue.len() + self.unseen
    }

    /// How many segments wait at most before a caller gives a piece of up to 4,096 bytes, so that it is taken whole.
    pub fn most_waiting(&self) -> usize
        ensures value { result ≡ most_waiting self.now }
        ensures least { MOST_WAITING ≤ result }
    {
        self.queue.most() - SPARED
    }

    /// Whether it pays to call `hash` before `due`: the first segment of the queue has no digest yet, and 32 or more wait.
    pub fn hash_pays(&self) -> bool
        ensures { IsTrue result → MANY ≤ length self.now.queue }
    {
        self.queue.hash_pays()
    }

    /// Takes the digests of all segments of the queue that have none yet, at once, by several threads; `due` takes that of its
    /// first segment itself where it has none. It fails for want of memory alone. The session is the same after it.
    pub fn hash(&mut self, rt: &(impl Threads + Sync)) -> Result<(), AllocError>
        ensures { self.new ≡ self.old }
    {
        self.queue.hash(rt, self.alloc)
    }
}
