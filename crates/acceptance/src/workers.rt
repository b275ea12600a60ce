//! Two workers of the top call, whose jobs wait for one another.
use backup_engine::backup;
use dd_disk::MemDisk;
use dd_io::{MemSink, MemSource};
use ingest_workers::Gate;
use std::alloc::Global;
use std::sync::Wait;
use std::thread::Threads;
use transcripts::{Fault, Meeting, words_of};

/// Before a job it meets the other one.
#[derive(Drop)]
struct Meets {
    meeting: Meeting,
}

impl Gate for Meets {
    fn before<R: Wait>(&self, _rt: &R, job: u64) {
        self.meeting.meet(job);
    }

    fn after<R: Wait>(&self, _rt: &R, _job: u64) {}
}

/// Two workers store a file of no bytes each, in a store of 8 slots. Says how many of them saw the other, with the status, and what is
/// printed.
pub(crate) fn two_workers<R: Threads + Wait + Sync>(
    rt: &R,
    alloc: Global,
) -> Result<String, Fault> {
    let gate = Meets {
        meeting: Meeting::new(),
    };
    let mut disk = MemDisk::new(vec![in alloc; 0u8; 4_195_840]?, Vec::new(alloc));
    let mut sink = MemSink::new(alloc, Vec::new(alloc));
    let formatted = call(rt, alloc, &mut disk, &mut sink, &gate, "format 8")?;
    let status = call(rt, alloc, &mut disk, &mut sink, &gate, "work 2 7 2 0 100")?;
    let met = gate.meeting.met();
    let printed = std::str::from_utf8(sink.bytes()).unwrap_or("?");
    Ok(format!(in alloc; "two workers: {met} met, status {formatted} and {status}\n{printed}")?)
}

/// The status of a command.
fn call<R: Threads + Wait + Sync>(
    rt: &R,
    alloc: Global,
    disk: &mut MemDisk,
    sink: &mut MemSink,
    gate: &Meets,
    line: &str,
) -> Result<u8, Fault> {
    let mut words = Vec::new(alloc);
    for word in words_of(alloc, line)? {
        words.push(word.to_string(alloc)?)?;
    }
    let mut source = MemSource::new(Vec::new(alloc), Vec::new(alloc));
    let mut notes = MemSink::new(alloc, Vec::new(alloc));
    Ok(backup(rt, alloc, &words, disk, &mut source, sink, &mut notes, gate))
}
