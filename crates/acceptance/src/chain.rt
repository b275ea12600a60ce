//! Commands, and calls of the disk, one after another on one disk.
use crate::headers::header_text;
use crate::scripts::{add_replied, add_replies, script_in, script_of};
use backup_engine::{backup, backup_alone};
use dd_disk::Disk;
use dd_io::{MemSink, MemSource};
use ingest_workers::OpenGate;
use std::alloc::Global;
use std::sync::Wait;
use std::thread::Threads;
use transcripts::{Fault, Text, add_piece, bytes_of, number, word_of, words_of};

/// What came of a chain: the answers of its items, parted as they are.
pub(crate) fn answers_of<D: Disk + Send, R: Threads + Wait + Sync>(
    rt: &R,
    alloc: Global,
    disk: &mut D,
    chain: &str,
) -> Result<String, Fault> {
    let mut text = Text::new(alloc);
    for item in chain.split(" ; ") {
        text.part_by(" ; ");
        answer(rt, alloc, disk, item, &mut text)?;
    }
    Ok(text.whole()?)
}

/// An item is a call of the disk, a script, or another command.
fn answer<D: Disk + Send, R: Threads + Wait + Sync>(
    rt: &R,
    alloc: Global,
    disk: &mut D,
    item: &str,
    text: &mut Text,
) -> Result<(), Fault> {
    if let Some((words, lines)) = script_in(item) {
        let run = script_run(alloc, words, lines)?;
        add_run(rt, alloc, disk, run, text);
        return Ok(());
    }
    let words = words_of(alloc, item)?;
    match words.as_slice() {
        ["@read", at, count] => {
            let found = read_part(alloc, disk, number(at)?, number(count)?)?;
            add_read(text, found);
        }
        ["@write", at, bytes @ ..] => {
            let done = write_part(disk, number(at)?, &bytes_of(alloc, bytes)?)?;
            text.add(word_for(done));
        }
        ["@sync"] => text.add(word_for(disk.sync().is_ok())),
        ["@calls"] => add_calls(text, disk.moment(), disk.faults()),
        ["@header", at] => {
            let found = read_part(alloc, disk, number(at)?, 49_664)?;
            text.add(header_text(alloc, found)?.as_str());
        }
        words => {
            let run = run_of(alloc, words)?;
            add_run(rt, alloc, disk, run, text);
        }
    }
    Ok(())
}

fn word_for(done: bool) -> &'static str {
    if done { "done" } else { "failed" }
}

/// How many calls a disk has had, and how many of them failed.
fn add_calls(text: &mut Text, calls: u64, failed: u64) {
    text.add_number(calls);
    text.add(" calls ");
    text.add_number(failed);
    text.add(" failed");
}

fn add_read(text: &mut Text, found: Option<Vec<u8>>) {
    match found {
        Some(bytes) => text.add_bytes(&bytes),
        None => text.add(word_for(false)),
    }
}

/// Reads bytes of a disk, if the read is done.
fn read_part<D: Disk>(
    alloc: Global,
    disk: &mut D,
    at: u64,
    count: u64,
) -> Result<Option<Vec<u8>>, Fault> {
    let size = disk.size();
    if at > size || count > size - at || count > 1_000_000 {
        return Err(Fault::Place);
    }
    let mut bytes = vec![in alloc; 0u8; count as usize]?;
    if disk.read(at, &mut bytes).is_ok() {
        Ok(Some(bytes))
    } else {
        Ok(None)
    }
}

/// Writes bytes to a disk, and says whether that is done.
fn write_part<D: Disk>(disk: &mut D, at: u64, bytes: &[u8]) -> Result<bool, Fault> {
    let size = disk.size();
    if at > size || bytes.len() as u64 > size - at {
        return Err(Fault::Place);
    }
    Ok(disk.write(at, bytes).is_ok())
}

/// A command with its source, the most bytes that a read of it gives, and the calls of its streams that fail.
#[derive(Drop)]
struct Run {
    words: Vec<String>,
    is_alone: bool,
    source: Vec<u8>,
    most: u64,
    source_fails: Vec<u64>,
    sink_fails: Vec<u64>,
    notes_fails: Vec<u64>,
}

/// The run that the words of a line stand for: those of the command, `< BYTES` of the source, and `!source=CALL`,
/// `!sink=CALL` and `!notes=CALL` for calls that fail, `!piece=COUNT` for a source no read of which gives more bytes, and
/// `!alone` for the top call of commands that start no workers.
fn run_of(alloc: Global, words: &[&str]) -> Result<Run, Fault> {
    let mut run = Run {
        words: Vec::new(alloc),
        is_alone: false,
        source: Vec::new(alloc),
        most: u64::MAX,
        source_fails: Vec::new(alloc),
        sink_fails: Vec::new(alloc),
        notes_fails: Vec::new(alloc),
    };
    let mut is_source = false;
    for word in words {
        if *word == "<" {
            is_source = true;
        } else if *word == "!alone" {
            run.is_alone = true;
        } else if let Some(script) = word.strip_prefix('!') {
            add_option(&mut run, script)?;
        } else if is_source {
            add_piece(alloc, word, &mut run.source)?;
        } else {
            run.words.push(word_of(alloc, word)?)?;
        }
    }
    Ok(run)
}

/// The run of a script of these lines.
fn script_run(alloc: Global, words: &str, lines: &str) -> Result<Run, Fault> {
    let mut run = run_of(alloc, &words_of(alloc, words)?)?;
    run.source = script_of(alloc, lines)?;
    Ok(run)
}

/// Takes a call that fails, or how many bytes a read gives at most.
fn add_option(run: &mut Run, script: &str) -> Result<(), Fault> {
    let (what, call) = script.split_once('=').ok_or(Fault::Line)?;
    let call = number(call)?;
    match what {
        "piece" => run.most = call,
        "source" => run.source_fails.push(call)?,
        "sink" => run.sink_fails.push(call)?,
        "notes" => run.notes_fails.push(call)?,
        _ => return Err(Fault::Line),
    }
    Ok(())
}

/// Runs the words over a disk. The answer is the status, then what went to the sink, then the notes; of scripts as `add_replies` has them,
/// and the lines of a list, a check or a generated load as those are.
fn add_run<D: Disk + Send, R: Threads + Wait + Sync>(
    rt: &R,
    alloc: Global,
    disk: &mut D,
    run: Run,
    text: &mut Text,
) {
    let mut source = MemSource::in_pieces(run.source, run.source_fails, (run.most as usize).max(1));
    let mut sink = MemSink::new(alloc, run.sink_fails);
    let mut notes = MemSink::new(alloc, run.notes_fails);
    let status = if run.is_alone {
        backup_alone(
            rt,
            alloc,
            &run.words,
            disk,
            &mut source,
            &mut sink,
            &mut notes,
        )
    } else {
        backup(
            rt,
            alloc,
            &run.words,
            disk,
            &mut source,
            &mut sink,
            &mut notes,
            &OpenGate,
        )
    };
    text.add_number(u64::from(status));
    let is_done = status == 0;
    match command_of(&run.words) {
        "run" => return add_replies(text, sink.bytes(), notes.bytes(), is_done),
        "list" | "check" | "work" => add_replied(text, sink.bytes(), is_done),
        _ => add_stream(text, sink.bytes(), is_done),
    }
    add_stream(text, notes.bytes(), false);
}

/// The first word; without one, the empty text.
fn command_of(words: &[String]) -> &str {
    match words {
        [command, ..] => command.as_str(),
        [] => "",
    }
}

fn add_stream(text: &mut Text, bytes: &[u8], is_always: bool) {
    if is_always || !bytes.is_empty() {
        text.add(" ");
        text.add_line(bytes);
    }
}
