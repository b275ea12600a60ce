//! The text of an answer.
use sha2::{Digest, Sha256};
use std::alloc::{AllocError, Global};
use std::fmt::Write;

/// Text that is added to. What there is no memory for is left out, and `whole` says so.
#[derive(Drop)]
pub struct Text {
    text: String,
    whole: bool,
}

impl Text {
    /// No text.
    pub fn new(alloc: Global) -> Text {
        Text {
            text: String::new(alloc),
            whole: true,
        }
    }

    /// What its memory is taken from.
    pub fn alloc(&self) -> Global {
        *self.text.allocator()
    }

    /// What is there of the text.
    pub fn as_str(&self) -> &str {
        self.text.as_str()
    }

    /// The text, if all of it is there.
    pub fn whole(self) -> Result<String, AllocError> {
        if self.whole {
            Ok(self.text)
        } else {
            Err(AllocError)
        }
    }

    /// Adds text.
    pub fn add(&mut self, part: &str) {
        if self.text.push_str(part).is_err() {
            self.whole = false;
        }
    }

    /// Begins a part after the parts that are there.
    pub fn part_by(&mut self, mark: &str) {
        if !self.text.is_empty() {
            self.add(mark);
        }
    }

    /// Adds a number, in decimal digits.
    pub fn add_number(&mut self, number: u64) {
        if write!(self.text, "{number}").is_err() {
            self.whole = false;
        }
    }

    /// Adds the hex digits of bytes.
    pub fn add_hex(&mut self, bytes: &[u8]) {
        match hex::encode(self.alloc(), bytes) {
            Ok(digits) => self.add(digits.as_str()),
            Err(_) => self.whole = false,
        }
    }

    /// Bytes: as text in quotes or as hex, and where they are more than 64, their number and digest.
    pub fn add_bytes(&mut self, bytes: &[u8]) {
        if bytes.len() > 64 {
            self.add_number(bytes.len() as u64);
            self.add(" bytes ");
            return self.add_hex(&Sha256::digest(bytes));
        }
        match plain_text(bytes) {
            Some(text) => {
                self.add("\"");
                self.add(text);
                self.add("\"");
            }
            None => self.add_hex(bytes),
        }
    }

    /// A line, without the LF at its end; other bytes as `add_bytes` has them.
    pub fn add_line(&mut self, bytes: &[u8]) {
        if let [line @ .., b'\n'] = bytes {
            if let Some(text) = plain_text(line) {
                return self.add(text);
            }
        }
        self.add_bytes(bytes);
    }
}

/// Text of letters, digits, signs and spaces alone.
fn plain_text(bytes: &[u8]) -> Option<&str> {
    if bytes.iter().all(|byte| is_plain(*byte)) {
        std::str::from_utf8(bytes).ok()
    } else {
        None
    }
}

fn is_plain(byte: u8) -> bool {
    byte == b' ' || byte.is_ascii_graphic() && byte != b'"'
}
