//! Transcripts: their lines, and what is reported of them.
ghost use Rattle.std.specs.Thread.{IsSync};

use crate::words::{Fault, number};
use std::alloc::{AllocError, Global};
use std::sync::Wait;
use std::thread::Threads;
use std::{fs, io};

/// What the lines of transcripts work on.
pub trait Stage {
    /// Does what a line without an answer says.
    fn prepare(&mut self, alloc: Global, line: &str) -> Result<(), Fault>;

    /// What a row answers, of what stands before its ` => `. `threads` is the leave to start threads, and to wait.
    fn answer<R: Threads + Wait + Sync>(
        &mut self,
        rt: &HostRuntime,
        threads: &R,
        row: &str,
    ) -> Result<String, Fault>
        requires { IsSync R.row };
}

/// A text, and the mark `{NAME}` that stands for it.
#[derive(Drop)]
struct Name {
    mark: String,
    text: String,
}

/// Transcripts that are run one after another, on one stage. It counts the rows that were run, and what failed.
#[derive(Drop)]
pub struct Suite<S> {
    stage: S,
    names: Vec<Name>,
    rows: u64,
    failed: u64,
}

impl<S: Stage> Suite<S> {
    /// No rows were run on the stage yet.
    pub fn new(alloc: Global, stage: S) -> Suite<S> {
        Suite {
            stage,
            names: Vec::new(alloc),
            rows: 0,
            failed: 0,
        }
    }

    /// Runs the transcripts whose names standard input has, one a line, reports each row, and says how many failed.
    pub fn run_all<R: Threads + Wait + Sync>(
        &mut self,
        rt: &HostRuntime,
        threads: &R,
    ) -> io::Result<u64> {
        for name in rt.lines(rt.alloc()) {
            let name = name?;
            let text = fs::read_to_string(rt, name.as_str())?;
            println!(rt; "\n# {name}")?;
            self.run(rt, threads, text.as_str())?;
        }
        println!(rt; "\n{} rows, {} failed", self.rows, self.failed)?;
        Ok(self.failed)
    }

    // Goes through a transcript. A line that begins with a space goes on with the one before it.
    fn run<R: Threads + Wait + Sync>(
        &mut self,
        rt: &HostRuntime,
        threads: &R,
        text: &str,
    ) -> io::Result<()> {
        let mut line = String::new(rt.alloc());
        for next in text.lines() {
            if next.starts_with(' ') {
                line.push_str(" ")?;
                line.push_str(next.trim())?;
            } else {
                self.run_line(rt, threads, line.as_str())?;
                line.clear();
                line.push_str(next)?;
            }
        }
        self.run_line(rt, threads, line.as_str())
    }

    fn run_line<R: Threads + Wait + Sync>(
        &mut self,
        rt: &HostRuntime,
        threads: &R,
        line: &str,
    ) -> io::Result<()> {
        if let Some(title) = line.strip_prefix("## ") {
            return println!(rt; "\n{title}");
        }
        if line.is_empty() || line.starts_with('#') {
            return Ok(());
        }
        let line = expanded(rt.alloc(), line, &self.names)?;
        self.follow(rt, threads, line.as_str())
    }

    // Does what a line says: a name, a row, or what is to be done before rows.
    fn follow<R: Threads + Wait + Sync>(
        &mut self,
        rt: &HostRuntime,
        threads: &R,
        line: &str,
    ) -> io::Result<()> {
        if let Some(words) = line.strip_prefix("let ") {
            return self.follow_name(rt, threads, line, words);
        }
        if let Some((row, wanted)) = line.split_once(" => ") {
            return self.run_rows(rt, threads, row, wanted);
        }
        match self.stage.prepare(rt.alloc(), line) {
            Ok(()) => Ok(()),
            Err(fault) => {
                self.failed = self.failed.saturating_add(1);
                println!(rt; "FAILED {line}\n  {}", fault.text())
            }
        }
    }

    // A name that cannot be taken fails.
    fn follow_name<R: Threads + Wait + Sync>(
        &mut self,
        rt: &HostRuntime,
        threads: &R,
        line: &str,
        words: &str,
    ) -> io::Result<()> {
        match self.add_name(rt.alloc(), words) {
            Ok(()) => Ok(()),
            Err(fault) => {
                self.failed = self.failed.saturating_add(1);
                println!(rt; "FAILED {line}\n  {}", fault.text())
            }
        }
    }

    // `NAME TEXT`, or `NAME TEXT*COUNT` for a text so many times. All transcripts share their names, so none may stand already.
    fn add_name(&mut self, alloc: Global, words: &str) -> Result<(), Fault> {
        let (name, value) = words.split_once(' ').unwrap_or((words, ""));
        let (piece, count) = times_of(value);
        let mark = format!(in alloc; "{{{name}}}")?;
        if stands(&self.names, mark.as_str()) {
            return Err(Fault::Taken);
        }
        let mut text = String::new(alloc);
        for _ in 0..count {
            text.push_str(piece)?;
        }
        self.names.push(Name { mark, text })?;
        Ok(())
    }

    // A row, or with `many FROM TO` before it a row for each number, which stands where `#` is.
    fn run_rows<R: Threads + Wait + Sync>(
        &mut self,
        rt: &HostRuntime,
        threads: &R,
        row: &str,
        wanted: &str,
    ) -> io::Result<()> {
        let failed = self.failed;
        match span_of(row) {
            Some((from, to, each)) => {
                for number in from..=to {
                    self.run_numbered(rt, threads, number, each, wanted)?;
                }
            }
            None => self.run_row(rt, threads, row, wanted)?,
        }
        if self.failed == failed {
            println!(rt; "ok {}", front_of(row))?;
        }
        Ok(())
    }

    fn run_numbered<R: Threads + Wait + Sync>(
        &mut self,
        rt: &HostRuntime,
        threads: &R,
        number: u64,
        row: &str,
        wanted: &str,
    ) -> io::Result<()> {
        let alloc = rt.alloc();
        let digits = format!(in alloc; "{number}")?;
        let row = row.replace(alloc, "#", digits.as_str())?;
        let wanted = wanted.replace(alloc, "#", digits.as_str())?;
        self.run_row(rt, threads, row.as_str(), wanted.as_str())
    }

    // Runs a row. One of stops is a row for each of the seven fills.
    fn run_row<R: Threads + Wait + Sync>(
        &mut self,
        rt: &HostRuntime,
        threads: &R,
        row: &str,
        wanted: &str,
    ) -> io::Result<()> {
        let count = if row.starts_with("crash ") { 7 } else { 1 };
        self.rows = self.rows.saturating_add(count);
        let found = match self.stage.answer(rt, threads, row) {
            Ok(found) => found,
            Err(fault) => fault.text().to_string(rt.alloc())?,
        };
        if found.as_str() != wanted {
            self.failed = self.failed.saturating_add(1);
            println!(rt; "FAILED {row}\n  wanted {wanted}\n  found  {found}")?;
        }
        Ok(())
    }
}

// `TEXT*COUNT`, or a text that has no number after its last star.
fn times_of(value: &str) -> (&str, u64) {
    if let Some((piece, count)) = value.rsplit_once('*') {
        if let Ok(count) = number(count) {
            return (piece, count);
        }
    }
    (value, 1)
}

// One of the names has this mark.
fn stands(names: &[Name], mark: &str) -> bool {
    for name in names {
        if name.mark.as_str() == mark {
            return true;
        }
    }
    false
}

// A line, with `{NAME}` replaced by what the name stands for.
fn expanded(alloc: Global, line: &str, names: &[Name]) -> Result<String, AllocError> {
    let mut line = line.to_string(alloc)?;
    for name in names {
        if line.contains('{') {
            line = line.replace(alloc, name.mark.as_str(), name.text.as_str())?;
        }
    }
    Ok(line)
}

// The numbers of `many FROM TO`, and the row after them.
fn span_of(row: &str) -> Option<(u64, u64, &str)> {
    let (from, rest) = row.strip_prefix("many ")?.split_once(' ')?;
    let (to, each) = rest.split_once(' ')?;
    match (number(from), number(to)) {
        (Ok(from), Ok(to)) => Some((from, to, each)),
        _ => None,
    }
}

// The front of a row, as much as the report shows.
fn front_of(row: &str) -> &str {
    match row.char_indices().nth(100) {
        Some((end, _)) => row.get(..end).unwrap_or(row),
        None => row,
    }
}
