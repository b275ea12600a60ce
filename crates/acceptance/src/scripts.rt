//! Scripts as transcripts spell them, and the replies to them.
use std::alloc::Global;
use transcripts::{Fault, Text, number};

/// A reply of more bytes is shown by their number and digest.
const MOST_REPLY: usize = 200;

/// Of more replies all but the last few are shown by the number and digest of their bytes.
const MOST_REPLIES: usize = 40;

const LAST_REPLIES: usize = 4;

/// The words and the lines of `run WORD .. : LINES`, where an item is that.
pub(crate) fn script_in(item: &str) -> Option<(&str, &str)> {
    let (words, lines) = item.trim_start().split_once(": ")?;
    if words.starts_with("run") {
        Some((words, lines))
    } else {
        None
    }
}

/// The script of lines that ` / ` parts.
pub(crate) fn script_of(alloc: Global, parts: &str) -> Result<Vec<u8>, Fault> {
    let mut script = Vec::new(alloc);
    for part in parts.split(" / ") {
        add_part(alloc, part, &mut script)?;
    }
    Ok(script)
}

/// Adds a line; or, with ` *COUNT` after them, lines that ` & ` parts so many times, in which `#` is the number of the time, from 1.
fn add_part(alloc: Global, part: &str, script: &mut Vec<u8>) -> Result<(), Fault> {
    let Some((lines, count)) = part.split_once(" *") else {
        return add_line(part, script);
    };
    for time in 1..=number(count)? {
        let digits = format!(in alloc; "{time}")?;
        let lines = lines.replace(alloc, "#", digits.as_str())?;
        add_lines(lines.as_str(), script)?;
    }
    Ok(())
}

fn add_lines(lines: &str, script: &mut Vec<u8>) -> Result<(), Fault> {
    for line in lines.split(" & ") {
        add_line(line, script)?;
    }
    Ok(())
}

/// Adds a line and its LF.
fn add_line(line: &str, script: &mut Vec<u8>) -> Result<(), Fault> {
    let mut is_first = true;
    for word in line.split(' ') {
        if !is_first {
            script.push(b' ')?;
        }
        add_word(word, script)?;
        is_first = false;
    }
    Ok(script.push(b'\n')?)
}

/// Adds a word, or with `*COUNT` after it its characters so many times.
fn add_word(word: &str, script: &mut Vec<u8>) -> Result<(), Fault> {
    let (piece, count) = word.split_once('*').unwrap_or((word, "1"));
    for _ in 0..number(count)? {
        script.extend_from_slice(piece.as_bytes())?;
    }
    Ok(())
}

/// Shows the replies to a script, parted by ` / `, and then the note, after ` -- `.
pub(crate) fn add_replies(text: &mut Text, replies: &[u8], note: &[u8], is_done: bool) {
    add_replied(text, replies, is_done);
    if !note.is_empty() {
        text.add(" -- ");
        text.add_line(note);
    }
}

/// Shows the lines that were replied, parted by ` / `, where there are some or the command is done.
pub(crate) fn add_replied(text: &mut Text, replies: &[u8], is_done: bool) {
    if is_done || !replies.is_empty() {
        text.add(" ");
        add_shown(text, replies);
    }
}

fn add_shown(text: &mut Text, replies: &[u8]) {
    let count = replies.iter().filter(|byte| **byte == b'\n').count();
    if count <= MOST_REPLIES {
        return add_each(text, replies);
    }
    let hidden = count.saturating_sub(LAST_REPLIES);
    let (front, last) = parted(replies, hidden);
    text.add_number(hidden as u64);
    text.add(" lines, ");
    text.add_bytes(front);
    text.add(" / ");
    add_each(text, last);
}

/// So many lines, and what comes after them.
fn parted(replies: &[u8], lines: usize) -> (&[u8], &[u8]) {
    let mut size: usize = 0;
    for line in replies.split_inclusive(|byte| *byte == b'\n').take(lines) {
        size = size.saturating_add(line.len());
    }
    replies.split_at_checked(size).unwrap_or((replies, &[]))
}

fn add_each(text: &mut Text, replies: &[u8]) {
    if replies.is_empty() {
        return text.add_bytes(replies);
    }
    let mut is_first = true;
    for reply in replies.split_inclusive(|byte| *byte == b'\n') {
        text.add(if is_first { "" } else { " / " });
        add_reply(text, reply);
        is_first = false;
    }
}

fn add_reply(text: &mut Text, reply: &[u8]) {
    if reply.len() > MOST_REPLY {
        text.add_bytes(reply);
    } else {
        text.add_line(reply);
    }
}
