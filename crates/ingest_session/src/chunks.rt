//! Segments that wait, in buffers of several segments each.
ghost use Rattle.std.specs.Prelude.{◌≡◌, ◌+◌, ◌<◌, ◌≤◌, [], ◌∷◌, ◌++◌, IfOk, drop, length, map, slice_index_or, vec_capacity};
ghost use Rattle.std.specs.List.{AllByRecursion};
ghost use Rattle.ingest_session.specs.Buffers.{IsSpare};

use crate::queue::LONG_QUEUE;
use digests::Texts;
use disk_format::MOST_SEGMENT;
use std::alloc::{AllocError, Global};
use std::collections::VecDeque;
use std::marker::Model;
use std::mem::replace;

/// How many segments a buffer has room for.
pub(crate) const CHUNK: usize = 16;

/// Segments in the order in which they came, up to `CHUNK` in one buffer. It takes the memory of all buffers when it is made, for segments
/// of the greatest length; the system gives the pages of one as they are first written, and they stay. A buffer that was left last is the
/// next one.
#[derive(Drop)]
pub(crate) struct Chunks {
    /// How many wait at most while the file goes on; its end adds one more.
    most: usize,
    /// How many wait.
    count: usize,
    /// How many of the first buffer wait no more.
    gone: usize,
    /// The buffers before the last one; they are full.
    full: VecDeque<Texts>,
    /// The one that is filled.
    last: Texts,
    /// Those that no segment is in.
    spare: Vec<Texts>,
}

impl Model for Chunks {
    ghost use Rattle.std.specs.Prelude.{drop};
    ghost use Rattle.std.specs.VecDeque.{deque_capacity};
    ghost use Rattle.ingest_session.specs.Buffers.{AreChunks, Waiting, all_in};

    ghost Value = { Waiting };

    ghost view = { λ c. record { most = c.most; segments = drop c.gone (all_in c.full.items c.last) } };

    ghost invariant = { λ c. AreChunks c.most c.count c.gone c.full.items (deque_capacity c.full) c.last c.spare };
}

/// A buffer that no segment is in.
fn spare_chunk(alloc: Global) -> Result<Texts, AllocError>
    ensures { IfOk result IsSpare }
{
    Texts::with_room(alloc, CHUNK, CHUNK * MOST_SEGMENT as usize)
}

/// So many of them.
fn spare_chunks(alloc: Global, count: usize) -> Result<Vec<Texts>, AllocError>
    ensures { IfOk result (λ spare. (length spare.items ≡ count) × (count ≤ vec_capacity spare) × AllByRecursion IsSpare spare.items) }
{
    let mut spare = Vec::with_capacity(alloc, count)?;
    for _ in 0..count {
        spare.push_reserved(spare_chunk(alloc)?);
    }
    Ok(spare)
}

impl Chunks {
    /// No segments, and room for so many, and one more. It fails for want of memory alone, and `from` alone takes any later.
    pub(crate) fn new(alloc: Global, most: usize) -> Result<Chunks, AllocError>
        requires { most ≤ LONG_QUEUE }
        ensures { IfOk result (λ c. c ≡ record { most = most; segments = [] }) }
    {
        let others = (most + CHUNK - 1) / CHUNK;
        Ok(Chunks {
            most,
            count: 0,
            gone: 0,
            full: VecDeque::with_capacity(alloc, others)?,
            last: spare_chunk(alloc)?,
            spare: spare_chunks(alloc, others)?,
        })
    }

    /// How many segments wait.
    pub(crate) fn len(&self) -> usize
        ensures value { result ≡ length self.now.segments }
        ensures at_most { length self.now.segments ≤ self.now.most + 1 }
    {
        self.count
    }

    /// How many wait at most while the file goes on.
    pub(crate) fn most(&self) -> usize
        ensures { result ≡ self.now.most }
    {
        self.most
    }

    /// The bytes of one that waits, of the first where n is 0.
    pub(crate) fn get(&self, n: usize) -> &[u8]
        requires { n < length self.now.segments }
        ensures value { result.now ≡ slice_index_or self.now.segments n [] }
        ensures at_most { length result.now ≤ MOST_SEGMENT }
    {
        let at = self.gone + n;
        match self.full.get(at / CHUNK) {
            Some(chunk) => chunk.get(at % CHUNK),
            None => self.last.get(at - CHUNK * self.full.len()),
        }
    }

    /// The bytes of those that wait, from one on. It fails for want of memory alone.
    pub(crate) fn from(&self, alloc: Global, n: usize) -> Result<Vec<&[u8]>, AllocError>
        requires { n ≤ length self.now.segments }
        ensures { IfOk result (λ texts. map (λ t. t.now) texts.items ≡ drop n self.now.segments) }
    {
        let mut texts = Vec::with_capacity(alloc, self.count - n)?;
        for i in n..self.count {
            texts.push_reserved(self.get(i));
        }
        Ok(texts)
    }

    /// Adds a segment at the end.
    pub(crate) fn push(&mut self, segment: &[u8])
        requires room { length self.old.segments ≤ self.old.most }
        requires at_most { length segment.now ≤ MOST_SEGMENT }
        ensures { self.new ≡ record self.old { segments = self.old.segments ++ segment.now ∷ [] } }
    {
        if self.last.len() == CHUNK {
            match self.spare.pop() {
                Some(spare) => self.full.push_back_reserved(replace(&mut self.last, spare)),
                None => unreachable!(),
            }
        }
        self.last.push_reserved(segment);
        self.count += 1;
    }

    /// Takes the first segment away.
    pub(crate) fn pop(&mut self)
        requires { 0 < length self.old.segments }
        ensures { self.new ≡ record self.old { segments = drop 1 self.old.segments } }
    {
        self.gone += 1;
        self.count -= 1;
        if self.gone == CHUNK {
            self.gone = 0;
            match self.full.pop_front() {
                Some(first) => {
                    let mut first = first;
                    first.clear();
                    self.spare.push_reserved(first);
                }
                None => self.last.clear(),
            }
        }
    }
}
