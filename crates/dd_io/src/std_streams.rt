// Readers and writers of the standard library as sources and sinks.
ghost use Rattle.std.specs.Prelude.{◌≡◌};

use crate::{Sink, SinkFault, Source, SourceFault};
use std::io::{self, ErrorKind, Read, Write};

/// A source over a reader. It tells what the reader tells, which of a file or a terminal is nothing.
#[derive(Drop)]
pub struct StdSource<R> {
    reader: R,
    faults: u64,
}

impl<R: Read> StdSource<R> {
    pub fn new(reader: R) -> StdSource<R>
        ensures { ⟦<StdSource<R> as Source>⟧.view result ≡ record { left = R.remaining reader; faults = 0 } }
    {
        StdSource { reader, faults: 0 }
    }
}

fn is_interrupted(error: &io::Error) -> bool {
    error.kind() == ErrorKind::Interrupted
}

impl<R: Read> Source for StdSource<R> {
    ghost view = { λ s. record { left = R.remaining s.reader; faults = s.faults } };

    // A read that a signal interrupted has read nothing, and is made again.
    fn read(&mut self, into: &mut [u8]) -> Result<usize, SourceFault> {
        for _ in 0..u64::MAX {
            match self.reader.read(into) {
                Ok(count) => return Ok(count),
                Err(error) if is_interrupted(&error) => {}
                Err(_) => break,
            }
        }
        self.faults = self.faults.saturating_add(1);
        Err(SourceFault)
    }

    fn faults(&self) -> u64 {
        self.faults
    }
}

/// A sink over a writer. It tells what the writer tells, which of a file or a terminal is nothing.
#[derive(Drop)]
pub struct StdSink<W> {
    writer: W,
    faults: u64,
}

impl<W: Write> StdSink<W> {
    pub fn new(writer: W) -> StdSink<W>
        ensures { ⟦<StdSink<W> as Sink>⟧.view result ≡ record { written = W.contents writer; faults = 0 } }
    {
        StdSink { writer, faults: 0 }
    }
}

impl<W: Write> Sink for StdSink<W> {
    ghost view = { λ k. record { written = W.contents k.writer; faults = k.faults } };

    // A writer that takes nothing of bytes that are left is a fault: it would never take them.
    fn write_all(&mut self, from: &[u8]) -> Result<(), SinkFault> {
        let mut done = 0;
        for _ in 0..u64::MAX {
            if done == from.len() {
                return Ok(());
            }
            match self.writer.write(&from[done..]) {
                Ok(0) => break,
                Ok(count) => done += count,
                Err(error) if is_interrupted(&error) => {}
                Err(_) => break,
            }
        }
        self.faults = self.faults.saturating_add(1);
        Err(SinkFault)
    }

    fn faults(&self) -> u64 {
        self.faults
    }
}
