//! Calls of `segmenter`.
use segmenter::{Cutter, cut_pieces, segments_plainly};
use std::alloc::{AllocError, Global};
use transcripts::{Fault, Text, bytes_of, number, words_of};

/// `SIZE BYTES`: the lengths of the segments of a stream that comes in pieces of this size, or `uneven`, or `plainly` by
/// looking at each window anew.
pub(crate) fn cut(alloc: Global, words: &[&str]) -> Result<String, Fault> {
    let [size, pieces @ ..] = words else {
        return Err(Fault::Line);
    };
    let bytes = bytes_of(alloc, pieces)?;
    let segments = match *size {
        "plainly" => segments_plainly(alloc, &bytes)?,
        "uneven" => cut_pieces(alloc, &uneven_pieces(alloc, &bytes)?)?,
        size => cut_pieces(alloc, &pieces_of(alloc, &bytes, number(size)?)?)?,
    };
    Ok(lengths(alloc, &segments, &bytes).whole()?)
}

/// The lengths of segments, if put together they are these bytes.
fn lengths(alloc: Global, segments: &[Vec<u8>], bytes: &[u8]) -> Text {
    let mut text = Text::new(alloc);
    let mut rest = bytes;
    for segment in segments {
        text.part_by(" ");
        text.add_number(segment.len() as u64);
        match rest.strip_prefix(segment.as_slice()) {
            Some(after) => rest = after,
            None => text.add(" of other bytes"),
        }
    }
    if segments.is_empty() {
        text.add("none");
    }
    if !rest.is_empty() {
        text.add(" and a rest");
    }
    text
}

fn pieces_of(alloc: Global, bytes: &[u8], size: u64) -> Result<Vec<Vec<u8>>, Fault> {
    if size == 0 {
        return Err(Fault::Line);
    }
    let mut pieces = Vec::new(alloc);
    for piece in bytes.chunks(size as usize) {
        pieces.push(piece.to_vec(alloc)?)?;
    }
    Ok(pieces)
}

/// A list in pieces of 0, 1, 2 and so on bytes, and what is left.
fn uneven_pieces(alloc: Global, bytes: &[u8]) -> Result<Vec<Vec<u8>>, AllocError> {
    let mut pieces = Vec::new(alloc);
    let mut rest = bytes;
    for size in 0..bytes.len() {
        let Some((piece, after)) = rest.split_at_checked(size) else {
            break;
        };
        pieces.push(piece.to_vec(alloc)?)?;
        rest = after;
    }
    pieces.push(rest.to_vec(alloc)?)?;
    Ok(pieces)
}

/// Calls of one cutter.
pub(crate) fn cutter(alloc: Global, chain: &str) -> Result<String, Fault> {
    let mut cutter = Cutter::new(alloc)?;
    let mut text = Text::new(alloc);
    for item in chain.split(" ; ") {
        text.part_by(" ; ");
        call(alloc, &mut cutter, item, &mut text)?;
    }
    Ok(text.whole()?)
}

fn call(alloc: Global, cutter: &mut Cutter, item: &str, text: &mut Text) -> Result<(), Fault> {
    match words_of(alloc, item)?.as_slice() {
        ["push", bytes @ ..] => {
            let step = cutter.push(&bytes_of(alloc, bytes)?);
            text.add_number(step.taken as u64);
            text.add(if step.whole { " whole" } else { " open" });
        }
        ["segment"] => text.add_bytes(cutter.segment()),
        ["next"] => {
            cutter.next();
            text.add("next");
        }
        ["finish"] => text.add(if cutter.finish() { "rest" } else { "no rest" }),
        _ => return Err(Fault::Line),
    }
    Ok(())
}
