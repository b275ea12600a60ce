//! The texts of answers and refusals.
use actor_parts::Answer;
use dd_io::MemSink;
use namespace::Listing;
use refusals::Refusal;
use reply_text::{Ending, listing_text, phase_word, write_fault};
use std::alloc::{AllocError, Global};

/// What a step answered, with what the buffer then holds.
pub(crate) fn answer_text(
    alloc: Global,
    answer: &Result<Answer, Refusal>,
    buf: &[u8],
) -> Result<String, AllocError> {
    match answer {
        Ok(answer) => done_text(alloc, answer, buf),
        Err(refusal) => refusal_text(alloc, refusal),
    }
}

fn done_text(alloc: Global, answer: &Answer, buf: &[u8]) -> Result<String, AllocError> {
    match answer {
        Answer::Begun => "begun".to_string(alloc),
        Answer::Held => "held".to_string(alloc),
        Answer::Absent => "absent".to_string(alloc),
        Answer::Sealed { id, .. } => format!(in alloc; "sealed {id}"),
        Answer::Committed { sequence } => format!(in alloc; "committed {sequence}"),
        Answer::Aborted => "aborted".to_string(alloc),
        Answer::Opened { length } => format!(in alloc; "opened {length}"),
        Answer::Bytes { count } => {
            let digits = hex::encode(alloc, buf.get(..*count as usize).unwrap_or(&[]))?;
            format!(in alloc; "bytes {digits}")
        }
        Answer::End => "end".to_string(alloc),
        Answer::Dropped => "dropped".to_string(alloc),
        Answer::Deleted { sequence } => format!(in alloc; "deleted {sequence}"),
        Answer::Listed { files } => listed_text(alloc, files),
        Answer::Stat {
            files,
            segments,
            used,
            free,
            ..
        } => format!(in alloc; "stat files {files} segments {segments} used {used} free {free}"),
        Answer::Unique { segments, bytes } => {
            format!(in alloc; "unique segments {segments} bytes {bytes}")
        }
        Answer::Started { snapshot } => format!(in alloc; "collecting {snapshot}"),
        Answer::Did { phase } => {
            let word = std::str::from_utf8(phase_word(phase)).unwrap_or("?");
            format!(in alloc; "step {word}")
        }
        Answer::Done { freed, copied } => {
            format!(in alloc; "collected freed {freed} copied {copied}")
        }
    }
}

// The lines of a listing, parted by commas.
fn listed_text(alloc: Global, files: &Listing) -> Result<String, AllocError> {
    let lines = listing_text(alloc, files)?;
    let mut text = String::new(alloc);
    for line in std::str::from_utf8(&lines).unwrap_or("?").lines() {
        if !text.is_empty() {
            text.push_str(", ")?;
        }
        text.push_str(line)?;
    }
    Ok(text)
}

/// The text of a refusal, as docs/FORMAT.md, 'Refusals', has it.
pub(crate) fn refusal_text(alloc: Global, refusal: &Refusal) -> Result<String, AllocError> {
    let mut sink = MemSink::new(alloc, Vec::new(alloc));
    let _written = write_fault(&mut sink, &Ending::Refused(*refusal));
    let line = std::str::from_utf8(sink.bytes()).unwrap_or("fault ?");
    let text = line.strip_prefix("fault ").unwrap_or(line).trim();
    format!(in alloc; "refused {text}")
}
