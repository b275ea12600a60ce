//! Bytes, as words spell them.
use crate::named::{Named, find};
use std::alloc::Global;
use transcripts::{Fault, decoded, number};

/// The bytes that some words spell, one piece after another.
pub(crate) fn bytes_of(alloc: Global, names: &[Named], words: &[&str]) -> Result<Vec<u8>, Fault> {
    let mut bytes = Vec::new(alloc);
    for word in words {
        add_piece(alloc, names, word, &mut bytes)?;
    }
    Ok(bytes)
}

/// The bytes of one word.
pub(crate) fn piece_of(alloc: Global, names: &[Named], word: &str) -> Result<Vec<u8>, Fault> {
    bytes_of(alloc, names, &[word])
}

fn add_piece(alloc: Global, names: &[Named], word: &str, bytes: &mut Vec<u8>) -> Result<(), Fault> {
    let (piece, count) = match word.split_once('*') {
        Some((piece, count)) => (piece, number(count)?),
        None => (word, 1),
    };
    let piece = once(alloc, names, piece)?;
    for _ in 0..count {
        bytes.extend_from_slice(&piece)?;
    }
    Ok(())
}

fn once(alloc: Global, names: &[Named], piece: &str) -> Result<Vec<u8>, Fault> {
    if let Some(name) = piece.strip_prefix('@') {
        return Ok(find(names, name)?.bytes.clone()?);
    }
    match piece.strip_prefix('"') {
        Some(text) => Ok(
            text.strip_suffix('"')
                .ok_or(Fault::Line)?
                .as_bytes()
                .to_vec(alloc)?,
        ),
        None => decoded(alloc, piece.as_bytes()),
    }
}
