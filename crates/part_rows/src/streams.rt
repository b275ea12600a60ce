//! Calls of `dd_io`.
use dd_io::{MemSink, MemSource, Sink, Source};
use std::alloc::Global;
use transcripts::{Fault, Text, bytes_of, numbers_of, words_of};

/// `BYTES reads COUNT .. fails CALL ..`: what reads of these sizes give, of which some calls fail.
pub(crate) fn source(alloc: Global, row: &str) -> Result<String, Fault> {
    let (row, fails) = row.split_once(" fails ").unwrap_or((row, ""));
    let (bytes, reads) = row.split_once(" reads ").unwrap_or((row, ""));
    let bytes = bytes_of(alloc, &words_of(alloc, bytes)?)?;
    let mut source = MemSource::new(bytes, numbers_of(alloc, &words_of(alloc, fails)?)?);
    let mut text = Text::new(alloc);
    for count in numbers_of(alloc, &words_of(alloc, reads)?)? {
        add_read(alloc, &mut source, count, &mut text)?;
    }
    text.add_number(source.faults());
    text.add(" failed");
    Ok(text.whole()?)
}

fn add_read(
    alloc: Global,
    source: &mut MemSource,
    count: u64,
    text: &mut Text,
) -> Result<(), Fault> {
    let mut into = vec![in alloc; 0u8; count.min(1_000) as usize]?;
    match source.read(&mut into) {
        Ok(count) => text.add_bytes(into.get(..count).unwrap_or(&[])),
        Err(_) => text.add("failed"),
    }
    text.add(" ; ");
    Ok(())
}

/// `PIECE .. fails CALL ..`: what a sink says of each piece, and what it has then.
pub(crate) fn sink(alloc: Global, row: &str) -> Result<String, Fault> {
    let (pieces, fails) = row.split_once(" fails ").unwrap_or((row, ""));
    let mut sink = MemSink::new(alloc, numbers_of(alloc, &words_of(alloc, fails)?)?);
    let mut text = Text::new(alloc);
    for piece in words_of(alloc, pieces)? {
        let bytes = bytes_of(alloc, &[piece])?;
        let done = sink.write_all(&bytes).is_ok();
        text.add(if done { "done ; " } else { "failed ; " });
    }
    text.add_bytes(sink.bytes());
    text.add(" ; ");
    text.add_number(sink.faults());
    text.add(" failed ");
    text.add_number(sink.missed());
    text.add(" missed");
    Ok(text.whole()?)
}
