//! What a stop leaves where a write was not synced.
use crate::text::Text;
use crate::words::Fault;
use dd_disk::Fill;
use std::alloc::Global;

/// What stands after a stop where a write was not synced, and how a transcript calls it: what was there, what was written,
/// and the gates of each kind of cell.
pub const FILLS: [(&str, Fill); 7] = [
    ("old", Fill::Old),
    ("new", Fill::New),
    ("00", Fill::Byte(0)),
    ("a5", Fill::Byte(0xA5)),
    ("b5", Fill::Byte(0xB5)),
    ("c5", Fill::Byte(0xC5)),
    ("d5", Fill::Byte(0xD5)),
];

/// The fill of a name.
pub fn fill_of(name: &str) -> Result<Fill, Fault> {
    for (known, fill) in FILLS {
        if known == name {
            return Ok(fill);
        }
    }
    Err(Fault::Line)
}

/// The answers, one for each fill, each once, after the names of the fills that have it.
pub fn by_fill(alloc: Global, answers: &[String]) -> Result<String, Fault> {
    let mut text = Text::new(alloc);
    for (i, answer) in answers.iter().enumerate() {
        if first_of(answers, answer.as_str()) == i {
            text.part_by(" | ");
            add_fills(&mut text, answers, answer.as_str());
            text.add(answer.as_str());
        }
    }
    Ok(text.whole()?)
}

// Where an answer stands first.
fn first_of(answers: &[String], answer: &str) -> usize {
    for (i, other) in answers.iter().enumerate() {
        if other.as_str() == answer {
            return i;
        }
    }
    answers.len()
}

// The names of the fills that have an answer, or `each`.
fn add_fills(text: &mut Text, answers: &[String], answer: &str) {
    let mut names = Text::new(text.alloc());
    let mut is_each = true;
    for ((name, _fill), other) in FILLS.iter().zip(answers) {
        if other.as_str() == answer {
            names.part_by(" ");
            names.add(name);
        } else {
            is_each = false;
        }
    }
    text.add(if is_each { "each" } else { names.as_str() });
    text.add(": ");
}
