//! The words of a line: numbers, bytes and text.
use std::alloc::{AllocError, AllocFailed, Global};

/// Why a line cannot be followed.
#[derive(Clone, Copy)]
pub enum Fault {
    Memory,
    /// The line has another form than the lines of a transcript.
    Line,
    /// It names a place that the disk does not have, or an image that was not saved.
    Place,
    /// A file that it needs could not be made.
    File,
    /// It has a name that stands for nothing, or for another sort of thing.
    Name,
    /// The name stands for a text already.
    Taken,
    /// The store is open, and the line needs it closed, or the other way round.
    Store,
}

impl Fault {
    /// What is reported where an answer was to be.
    pub fn text(self) -> &'static str {
        match self {
            Fault::Memory => "no memory for this line",
            Fault::Line => "no such line",
            Fault::Place => "no such place",
            Fault::File => "no such file",
            Fault::Name => "no such name",
            Fault::Taken => "this name stands already",
            Fault::Store => "no such store",
        }
    }
}

impl From<AllocError> for Fault {
    fn from(_error: AllocError) -> Fault {
        Fault::Memory
    }
}

impl<T: Drop> From<AllocFailed<T>> for Fault {
    fn from(_error: AllocFailed<T>) -> Fault {
        Fault::Memory
    }
}

/// A number in decimal digits.
pub fn number(word: &str) -> Result<u64, Fault> {
    match word.parse::<u64>() {
        Ok(number) => Ok(number),
        Err(_) => Err(Fault::Line),
    }
}

/// A number of one byte.
pub fn byte_of(word: &str) -> Result<u8, Fault> {
    match word.parse::<u8>() {
        Ok(number) => Ok(number),
        Err(_) => Err(Fault::Line),
    }
}

/// The numbers that some words are.
pub fn numbers_of(alloc: Global, words: &[&str]) -> Result<Vec<u64>, Fault> {
    let mut numbers = Vec::new(alloc);
    for word in words {
        numbers.push(number(word)?)?;
    }
    Ok(numbers)
}

/// The words of a line, which spaces part.
pub fn words_of(alloc: Global, line: &str) -> Result<Vec<&str>, AllocError> {
    let mut words = Vec::new(alloc);
    for word in line.split(' ') {
        if !word.is_empty() {
            words.push(word)?;
        }
    }
    Ok(words)
}

/// The bytes that some words spell, one piece after another.
pub fn bytes_of(alloc: Global, words: &[&str]) -> Result<Vec<u8>, Fault> {
    let mut bytes = Vec::new(alloc);
    for word in words {
        add_piece(alloc, word, &mut bytes)?;
    }
    Ok(bytes)
}

/// Adds a piece of bytes: hex digits, or text in quotes, or `noise`; with `*COUNT` after it so many times, or of noise
/// so many bytes.
pub fn add_piece(alloc: Global, word: &str, bytes: &mut Vec<u8>) -> Result<(), Fault> {
    let (piece, count) = match word.split_once('*') {
        Some((piece, count)) => (piece, number(count)?),
        None => (word, 1),
    };
    if piece == "noise" {
        return Ok(add_noise(bytes, count)?);
    }
    let piece = piece_of(alloc, piece)?;
    for _ in 0..count {
        bytes.extend_from_slice(&piece)?;
    }
    Ok(())
}

fn piece_of(alloc: Global, piece: &str) -> Result<Vec<u8>, Fault> {
    match piece.strip_prefix('"') {
        Some(text) => unescaped(alloc, text.strip_suffix('"').ok_or(Fault::Line)?),
        None => decoded(alloc, piece.as_bytes()),
    }
}

/// The bytes of hex digits.
pub fn decoded(alloc: Global, digits: &[u8]) -> Result<Vec<u8>, Fault> {
    match hex::decode(alloc, digits) {
        Ok(bytes) => Ok(bytes),
        Err(_) => Err(Fault::Line),
    }
}

/// A word of a command: as it stands, or as text in quotes.
pub fn word_of(alloc: Global, word: &str) -> Result<String, Fault> {
    let bytes = match word.strip_prefix('"') {
        Some(text) => unescaped(alloc, text.strip_suffix('"').ok_or(Fault::Line)?)?,
        None => word.as_bytes().to_vec(alloc)?,
    };
    match String::from_utf8(bytes) {
        Ok(text) => Ok(text),
        Err(_) => Err(Fault::Line),
    }
}

/// The bytes of a text, in which `\x` and two hex digits stand for a byte.
fn unescaped(alloc: Global, text: &str) -> Result<Vec<u8>, Fault> {
    let mut bytes = Vec::new(alloc);
    let mut is_first = true;
    for part in text.split("\\x") {
        if is_first {
            bytes.extend_from_slice(part.as_bytes())?;
        } else {
            add_escaped(alloc, part.as_bytes(), &mut bytes)?;
        }
        is_first = false;
    }
    Ok(bytes)
}

fn add_escaped(alloc: Global, part: &[u8], bytes: &mut Vec<u8>) -> Result<(), Fault> {
    let (digits, rest) = part.split_at_checked(2).ok_or(Fault::Line)?;
    bytes.extend_from_slice(&decoded(alloc, digits)?)?;
    Ok(bytes.extend_from_slice(rest)?)
}

/// Adds the high bytes of the states of a linear congruential generator.
fn add_noise(bytes: &mut Vec<u8>, count: u64) -> Result<(), AllocError> {
    let mut state = 0x5EEDu64;
    for _ in 0..count {
        state = state
            .wrapping_mul(6_364_136_223_846_793_005)
            .wrapping_add(1_442_695_040_888_963_407);
        bytes.push((state >> 56) as u8)?;
    }
    Ok(())
}

/// Puts bytes over others.
pub fn change(bytes: &mut [u8], at: u64, from: &[u8]) -> Result<(), Fault> {
    let count = bytes.len() as u64;
    if at > count || from.len() as u64 > count - at {
        return Err(Fault::Place);
    }
    let place = at as usize;
    bytes[place..place + from.len()].copy_from_slice(from);
    Ok(())
}
