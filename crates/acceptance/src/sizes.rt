//! The size of a format.
use backup_engine::size_of_format;
use std::alloc::Global;
use transcripts::{Fault, Text, word_of};

/// The size of the disk that some words format.
pub(crate) fn size(alloc: Global, words: &[&str]) -> Result<String, Fault> {
    let mut owned = Vec::new(alloc);
    for word in words {
        owned.push(word_of(alloc, word)?)?;
    }
    let mut text = Text::new(alloc);
    match size_of_format(alloc, &owned)? {
        Some(size) => text.add_number(size),
        None => text.add("none"),
    }
    Ok(text.whole()?)
}
