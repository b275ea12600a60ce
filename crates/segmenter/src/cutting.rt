//! A cutter, which takes a stream in any pieces and shows its segments one by one.

ghost use Rattle.std.specs.Prelude.{◌≡◌, ℕ, ◌+◌, ◌-◌, ◌<◌, ◌≤◌, ◌↔◌, true, false, IsTrue, IfOk, List, [], ◌∷◌, ◌++◌, length, take};
ghost use Rattle.std.specs.Prelude.{vec_len, vec_capacity};
ghost use Rattle.segmenter.specs.Segments.{segments_of, window_value, window_at};
ghost use Rattle.segmenter.specs.Cutting.{empty_hand, whole_segments, Takes, Ends, IsOne, HasCut, NoBoundary, IsCut};

use crate::rolling::{WINDOW, first_hit, value_of};
use disk_format::{LEAST_SEGMENT, MOST_SEGMENT};
use std::alloc::{AllocError, Global};
use std::marker::Model;

/// What a piece gave to the segment in hand.
#[derive(Clone, Copy)]
pub struct Taken {
    /// How many of the piece's first bytes were taken.
    pub taken: usize,
    /// Whether the segment is whole now.
    pub whole: bool,
}

/// How far the first segment goes.
#[derive(Drop)]
struct Cut {
    end: usize,
    value: u64,
    whole: bool,
}

/// Appends as many of the bytes as a segment has room for. The buffer has that room, so this takes no memory.
fn fill(held: &mut Vec<u8>, bytes: &[u8])
    requires capacity { MOST_SEGMENT ≤ vec_capacity held.old }
    requires at_most { vec_len held.old ≤ MOST_SEGMENT }
    ensures capacity { MOST_SEGMENT ≤ vec_capacity held.new }
    ensures bytes { held.new.items ≡ held.old.items ++ take (MOST_SEGMENT - vec_len held.old) bytes.now }
{
    let copied = bytes.len().min(MOST_SEGMENT as usize - held.len());
    held.extend_from_slice(&bytes[..copied]).unwrap();
}

/// Finds the end of the first segment, which isn't among the first `from` bytes but may be right after them. `value`
/// is that of the window there.
fn cut_from(bytes: &[u8], from: usize, value: u64) -> Cut
    requires least { LEAST_SEGMENT ≤ from }
    requires within { from ≤ length bytes.now }
    requires at_most { length bytes.now ≤ MOST_SEGMENT }
    requires uncut { NoBoundary bytes.now from }
    requires rolled { value ≡ window_value (window_at bytes.now from) }
    ensures { IsCut bytes.now from result.end result.value result.whole }
{
    let scan = first_hit(bytes, from, value);
    Cut {
        end: scan.end,
        value: scan.value,
        whole: scan.hit || scan.end == MOST_SEGMENT as usize,
    }
}

/// Finds the end of the first segment, which isn't among the first `seen` bytes. `value` is that of the window
/// after these, where they are enough for one to be looked at.
fn first_cut(bytes: &[u8], seen: usize, value: u64) -> Cut
    requires seen { seen ≤ length bytes.now }
    requires at_most { length bytes.now ≤ MOST_SEGMENT }
    requires uncut { NoBoundary bytes.now (seen + 1) }
    requires rolled { LEAST_SEGMENT ≤ seen → value ≡ window_value (window_at bytes.now seen) }
    ensures { IsCut bytes.now seen result.end result.value result.whole }
{
    if bytes.len() < LEAST_SEGMENT {
        return Cut {
            end: bytes.len(),
            value,
            whole: false,
        };
    }
    if seen < LEAST_SEGMENT {
        return cut_from(
            bytes,
            LEAST_SEGMENT,
            value_of(&bytes[LEAST_SEGMENT - WINDOW..LEAST_SEGMENT]),
        );
    }
    cut_from(bytes, seen, value)
}

/// Cuts a stream into segments (docs/FORMAT.md, "Segmenting"). It holds the bytes of one segment, the one in hand, at
/// most `disk_format::MOST_SEGMENT`.
#[derive(Drop)]
pub struct Cutter {
    held: Vec<u8>,
    // the value of the window at the end of the bytes, once there are enough of them for a cut
    value: u64,
    whole: bool,
}

impl Model for Cutter {
    ghost use Rattle.std.specs.Prelude.{vec_capacity};
    ghost use Rattle.segmenter.specs.Cutting.{Hand, IsHeld};

    ghost Value = { Hand };

    ghost view = { λ cutter. record { bytes = cutter.held.items; whole = cutter.whole } };

    ghost invariant = { λ cutter. IsHeld cutter.held.items (vec_capacity cutter.held) cutter.value cutter.whole };
}

impl Cutter {
    /// A cutter at the start of a stream. It takes the memory of a segment of the greatest length, and fails for want of
    /// it alone; no call after it takes any.
    pub fn new(alloc: Global) -> Result<Self, AllocError>
        ensures empty { IfOk result (λ cutter. cutter ≡ empty_hand) }
        ensures so_far { IfOk result (HasCut [] []) }
    {
        Ok(Cutter {
            held: Vec::with_capacity(alloc, MOST_SEGMENT as usize)?,
            value: 0,
            whole: false,
        })
    }

    /// Takes bytes up to the end of the segment in hand, and says how many and whether that segment is whole now.
    /// Where it is whole already, or was made so by `finish`, it takes none until `next`.
    pub fn push(&mut self, bytes: &[u8]) -> Taken
        ensures takes { Takes self.old bytes.now result self.new }
        ensures ends { self.old.whole ≡ false → Ends self.new.bytes result.whole }
        // Whole or not, what is in hand is never more than one segment.
        ensures one { IsOne self.new.bytes }
        // Over a whole run: what was taken so far is the segments shown so far and what is in hand.
        ensures so_far { (taken : List ℕ) (shown : List (List ℕ)) → HasCut taken shown self.old
            → HasCut (taken ++ take result.taken bytes.now) shown self.new }
    {
        if self.whole {
            return Taken {
                taken: 0,
                whole: true,
            };
        }
        // The bytes are copied before they are looked at, as many as the segment has room for: each window then lies in
        // one slice. What was copied past the end of the segment is copied again with the next one.
        let seen = self.held.len();
        fill(&mut self.held, bytes);
        let cut = first_cut(&self.held, seen, self.value);
        self.held.truncate(cut.end);
        self.value = cut.value;
        self.whole = cut.whole;
        Taken {
            taken: cut.end - seen,
            whole: cut.whole,
        }
    }

    /// The bytes of the segment in hand: the whole segment, or what was taken of it so far.
    pub fn segment(&self) -> &[u8]
        ensures bytes { result.now ≡ self.now.bytes }
        ensures at_most { length result.now ≤ MOST_SEGMENT }
    {
        &self.held
    }

    /// Goes on to the next segment, where the one in hand is whole. Where it isn't, nothing changes.
    pub fn next(&mut self)
        ensures whole { self.old.whole ≡ true → self.new ≡ empty_hand }
        ensures unchanged { self.old.whole ≡ false → self.new ≡ self.old }
        ensures so_far { (taken : List ℕ) (shown : List (List ℕ)) → HasCut taken shown self.old
            → HasCut taken (shown ++ whole_segments self.old) self.new }
    {
        if self.whole {
            self.held.clear();
            self.whole = false;
        }
    }

    /// Ends the stream, and says whether a rest is there. It is the last segment, and whole: `segment` shows it, and
    /// after `next` the cutter is at the start of another stream. With no rest it is there at once.
    pub fn finish(&mut self) -> bool
        ensures rest { IsTrue result ↔ (0 < length self.old.bytes) }
        ensures bytes { self.new.bytes ≡ self.old.bytes }
        ensures whole { self.new.whole ≡ result }
        ensures last { result ≡ true → segments_of self.new.bytes ≡ self.new.bytes ∷ [] }
        ensures none { result ≡ false → self.new ≡ empty_hand }

        // Over a whole run: the segments of all bytes taken are those shown, and the rest.
        ensures all { (taken : List ℕ) (shown : List (List ℕ)) → HasCut taken shown self.old
            → segments_of taken ≡ shown ++ whole_segments self.new }
    {
        self.whole = !self.held.is_empty();
        self.whole
    }
}
