//! Sources and sinks over readers and writers of the standard library.
use dd_io::{MemSink, Sink, Source, StdSink, StdSource};
use std::fs::File;
use std::io::{self, Cursor, ErrorKind, Read, Write};
use std::test::Fail;

// Copies through the bounds, so that the impls for what is lent are used too.
fn copy<S: Source + Drop, K: Sink + Drop>(mut from: S, mut to: K) -> Result<(), Fail> {
    let mut into = [0u8; 8];
    for _ in 0..8 {
        let Ok(count) = from.read(&mut into) else {
            return Err("the source failed".into());
        };
        if to.write_all(&into[..count]).is_err() {
            return Err("the sink failed".into());
        }
    }
    Ok(())
}

#[test]
fn readers_and_writers_are_sources_and_sinks(rt: HostRuntime) -> Result<(), Fail> {
    let alloc = rt.alloc();
    let text = b"a text that is longer than one buffer".as_slice();
    let mut bytes = Vec::new(alloc);
    let mut source = StdSource::new(Cursor::new(text));
    let mut sink = StdSink::new(&mut bytes);
    copy(&mut source, &mut sink)?;
    assert!(rt; source.faults() == 0);
    assert!(rt; sink.faults() == 0);
    assert!(rt; bytes.as_slice() == text);
    Ok(())
}

#[test]
fn a_file_is_a_sink_and_a_source(rt: HostRuntime) -> Result<(), Fail> {
    let alloc = rt.alloc();
    let text = b"what a file holds".as_slice();
    copy(
        StdSource::new(text),
        StdSink::new(File::create(&rt, "copy.txt")?),
    )?;
    let mut sink = MemSink::new(alloc, Vec::new(alloc));
    copy(StdSource::new(File::open(&rt, "copy.txt")?), &mut sink)?;
    assert!(rt; sink.bytes() == text);
    Ok(())
}

// A writer that takes three bytes, and then nothing.
#[derive(Drop)]
struct Full {
    room: usize,
}

impl Write for Full {
    fn write(&mut self, buf: &[u8]) -> io::Result<usize> {
        let count = buf.len().min(self.room);
        self.room -= count;
        Ok(count)
    }

    fn flush(&mut self) -> io::Result<()> {
        Ok(())
    }
}

// A reader that is interrupted, and then fails.
#[derive(Drop)]
struct Broken {
    calls: u8,
}

impl Read for Broken {
    fn read(&mut self, buf: &mut [u8]) -> io::Result<usize> {
        self.calls = self.calls.saturating_add(1);
        match self.calls {
            1 => Err(ErrorKind::Interrupted.into()),
            2 => Ok(buf.len().min(1)),
            _ => Err(ErrorKind::Other.into()),
        }
    }
}

#[test]
fn a_writer_that_takes_nothing_is_a_fault(rt: HostRuntime) -> Result<(), Fail> {
    let mut sink = StdSink::new(Full { room: 3 });
    assert!(rt; sink.write_all(b"ab").is_ok());
    assert!(rt; sink.write_all(b"").is_ok());
    assert!(rt; sink.write_all(b"cd").is_err());
    assert!(rt; sink.faults() == 1);
    assert!(rt; sink.write_all(b"").is_ok());
    Ok(())
}

#[test]
fn an_interrupted_read_is_made_again_and_a_broken_one_is_a_fault(
    rt: HostRuntime,
) -> Result<(), Fail> {
    let mut source = StdSource::new(Broken { calls: 0 });
    let mut into = [0u8; 2];
    assert!(rt; matches!(source.read(&mut into), Ok(1)));
    assert!(rt; source.faults() == 0);
    assert!(rt; source.read(&mut into).is_err());
    assert!(rt; source.faults() == 1);
    Ok(())
}
