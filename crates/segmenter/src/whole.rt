//! Whole streams: cut in pieces by a cutter, or plainly, and what every segmentation has.

ghost use Rattle.std.specs.Prelude.{◌≡◌, ℕ, ◌≤◌, ◌<◌, false, IfOk, OnOk, List, [], ◌∷◌, ◌++◌, length, take, drop, map};
ghost use Rattle.std.specs.List.{flat_map};
ghost use Rattle.segmenter.specs.Segments.{is_boundary, first_length, segments_of, IsSegmentation, ShortIsOne, HaveRightLengths, LengthsAddUp, AreFew};
ghost use Rattle.segmenter.specs.Cutting.{HasCut, empty_hand};

use crate::cutting::Cutter;
use crate::rolling::{WINDOW, hits, value_of};
use disk_format::{LEAST_SEGMENT, MOST_SEGMENT};
use std::alloc::{AllocError, Global};

/// The segments of a stream that comes in these pieces. Some may be empty, and it doesn't matter how the stream was
/// cut into them. It fails for want of memory alone.
pub fn cut_pieces(alloc: Global, pieces: &[Vec<u8>]) -> Result<Vec<Vec<u8>>, AllocError>
    ensures { IfOk result (λ segments. map (λ segment. segment.items) segments.items
        ≡ segments_of (flat_map (λ piece. piece.items) pieces.now)) }
{
    let mut cutter = Cutter::new(alloc)?;
    let mut segments = Vec::new(alloc);
    for piece in pieces {
        cut_piece(alloc, &mut cutter, &mut segments, piece)?;
    }
    if cutter.finish() {
        segments.push(Vec::from_slice(alloc, cutter.segment())?)?;
    }
    Ok(segments)
}

/// Takes a whole piece, and adds the segments that it completes.
fn cut_piece(
    alloc: Global,
    cutter: &mut Cutter,
    segments: &mut Vec<Vec<u8>>,
    piece: &[u8],
) -> Result<(), AllocError>
    requires { cutter.old.whole ≡ false }
    ensures ongoing { OnOk result (cutter.new.whole ≡ false) }
    ensures so_far { OnOk result ((taken : List ℕ)
        → HasCut taken (map (λ segment. segment.items) segments.old.items) cutter.old
        → HasCut (taken ++ piece.now) (map (λ segment. segment.items) segments.new.items) cutter.new) }
{
    let mut rest = piece;
    while !rest.is_empty() {
        let step = cutter.push(rest);
        rest = &rest[step.taken..];
        if step.whole {
            segments.push(Vec::from_slice(alloc, cutter.segment())?)?;
            cutter.next();
        }
    }
    Ok(())
}

/// The segments of a list, found by looking at each window anew. It is slow, and says what `Cutter` has to show. It
/// fails for want of memory alone.
pub fn segments_plainly(alloc: Global, bytes: &[u8]) -> Result<Vec<Vec<u8>>, AllocError>
    ensures { IfOk result (λ segments. map (λ segment. segment.items) segments.items ≡ segments_of bytes.now) }
{
    let mut segments = Vec::new(alloc);
    let mut rest = bytes;
    while !rest.is_empty() {
        let (first, after) = rest.split_at(plain_first_length(rest));
        segments.push(Vec::from_slice(alloc, first)?)?;
        rest = after;
    }
    Ok(segments)
}

/// The length of the first segment.
fn plain_first_length(bytes: &[u8]) -> usize
    ensures length { result ≡ first_length bytes.now }
    ensures within { result ≤ length bytes.now }
    ensures some { 0 < length bytes.now → 0 < result }
{
    for n in LEAST_SEGMENT..bytes.len() {
        if is_boundary_at(bytes, n) {
            return n;
        }
    }
    bytes.len()
}

/// Whether a segment of these bytes ends after n of them.
fn is_boundary_at(bytes: &[u8], n: usize) -> bool
    requires least { LEAST_SEGMENT ≤ n }
    requires within { n ≤ length bytes.now }
    ensures { result ≡ is_boundary bytes.now n }
{
    n == MOST_SEGMENT as usize || hits(value_of(&bytes[n - WINDOW..n]))
}

/// What the segments of every list have: put together they are the list, none is empty, each has at most 16,384
/// bytes and all but the last at least 2,048, and the empty list has none. A cutter with nothing in hand is at the
/// start of a stream.
pub fn segmentation_laws()
    ensures laws { (bytes : List ℕ) → IsSegmentation bytes (segments_of bytes) }
    ensures none { segments_of [] ≡ [] }
    // a list that isn't empty has its first segment, and then the segments of the rest
    ensures first { (bytes : List ℕ) → 0 < length bytes → segments_of bytes
        ≡ take (first_length bytes) bytes ∷ segments_of (drop (first_length bytes) bytes) }
    ensures start { HasCut [] [] empty_hand }
    // bytes that are not more than the least segment are one
    ensures one { ShortIsOne }
    // what a tree over the segments of a file needs
    ensures each { HaveRightLengths }
    ensures sum { LengthsAddUp }
    ensures few { AreFew }
{}
