//! Calls of `load_stream`.
use load_stream::LoadStream;
use std::alloc::Global;
use transcripts::{Fault, Text, numbers_of, words_of};

/// `SEED FILE LENGTH reads COUNT ..`: the bytes that reads of these sizes give of a generated file.
pub(crate) fn load(alloc: Global, row: &str) -> Result<String, Fault> {
    let (row, reads) = row.split_once(" reads ").unwrap_or((row, ""));
    let numbers = numbers_of(alloc, &words_of(alloc, row)?)?;
    let [seed, file, length] = numbers.as_slice() else {
        return Err(Fault::Line);
    };
    let mut stream = LoadStream::new(*seed, *file, *length);
    let mut text = Text::new(alloc);
    for count in numbers_of(alloc, &words_of(alloc, reads)?)? {
        add_piece(alloc, &mut stream, count, &mut text)?;
    }
    text.add("end");
    Ok(text.whole()?)
}

fn add_piece(
    alloc: Global,
    stream: &mut LoadStream,
    count: u64,
    text: &mut Text,
) -> Result<(), Fault> {
    let mut into = vec![in alloc; 0u8; count.min(1 << 20) as usize]?;
    let given = stream.next_bytes(&mut into);
    text.add_bytes(into.get(..given).unwrap_or(&[]));
    text.add(" ; ");
    Ok(())
}
