// A source and a sink in memory, whose calls fail by their numbers.
ghost use Rattle.std.specs.Prelude.{◌≡◌, ◌<◌, ◌≤◌, [], Some, length, min, IfOk, OnErr};
ghost use Rattle.base_model.specs.Fault.{HasCause};
ghost use Rattle.base_model.specs.Known.{Known};
ghost use Rattle.dd_io.specs.Flow.{Takes, Sends};
ghost use Rattle.dd_io.specs.Script.{missed_count, IsFresh, FollowsScript, FollowsWithoutMemory};

use crate::script::Script;
use crate::{Sink, SinkFault, Source, SourceFault};
use std::alloc::Global;

/// A source of these bytes, which it tells.
#[derive(Drop)]
pub struct MemSource {
    bytes: Vec<u8>,
    place: usize,
    // No read gives more bytes than these.
    most: usize,
    faults: u64,
    script: Script,
    ghost within: { place ≤ length bytes.items },
    ghost some: { 1 ≤ most },
}

impl MemSource {
    ghost use Rattle.dd_io.specs.Scripted.{source_script, most_read};

    /// Its calls of these numbers fail. The first call has the number 1.
    pub fn new(bytes: Vec<u8>, fails: Vec<u64>) -> MemSource
        ensures left { (⟦<MemSource as Source>⟧.view result).left ≡ Some bytes.items }
        ensures faults { (⟦<MemSource as Source>⟧.view result).faults ≡ 0 }
        ensures script { IsFresh (source_script result) fails.items }
    {
        MemSource::in_pieces(bytes, fails, usize::MAX)
    }

    /// The same, where no read gives more bytes than these.
    pub fn in_pieces(bytes: Vec<u8>, fails: Vec<u64>, most: usize) -> MemSource
        requires { 1 ≤ most }
        ensures left { (⟦<MemSource as Source>⟧.view result).left ≡ Some bytes.items }
        ensures faults { (⟦<MemSource as Source>⟧.view result).faults ≡ 0 }
        ensures script { IsFresh (source_script result) fails.items }
        ensures most { most_read result ≡ most }
    {
        MemSource {
            bytes,
            place: 0,
            most,
            faults: 0,
            script: Script::new(fails),
        }
    }
}

impl Source for MemSource {
    ghost use Rattle.dd_io.specs.Scripted.{source_script, most_read};
    ghost use Rattle.std.specs.Prelude.{drop};

    ghost view = { λ s. record { left = Some (drop s.place s.bytes.items); faults = s.faults } };

    fn read(&mut self, into: &mut [u8]) -> Result<usize, SourceFault>
        ensures count { IfOk result (λ n. n ≤ length into.old) }
        ensures piece { IfOk result (λ n. Known (⟦<MemSource as Source>⟧.view self.old).left
            (λ bytes. n ≡ min (min (length bytes) (length into.old)) (most_read self.old))) }
        ensures pieces { most_read self.new ≡ most_read self.old }
        ensures bytes { IfOk result (λ n. Known (⟦<MemSource as Source>⟧.view self.old).left
            (λ bytes. Takes n bytes into.new (⟦<MemSource as Source>⟧.view self.new).left)) }
        ensures end { IfOk result (λ n. n ≡ 0 → 0 < length into.old
            → Known (⟦<MemSource as Source>⟧.view self.old).left (λ bytes. bytes ≡ [])) }
        ensures err { OnErr result (Known (⟦<MemSource as Source>⟧.view self.old).left
            (λ bytes. (⟦<MemSource as Source>⟧.view self.new).left ≡ Some bytes)) }
        ensures cause { HasCause (⟦<MemSource as Source>⟧.view self.old).faults
            (⟦<MemSource as Source>⟧.view self.new).faults result }
        ensures script { FollowsWithoutMemory (source_script self.old) (source_script self.new) result }
    {
        if self.script.next_fails() {
            self.faults = self.faults.saturating_add(1);
            return Err(SourceFault);
        }
        let left = &self.bytes[self.place..];
        let count = left.len().min(into.len()).min(self.most);
        into[..count].copy_from_slice(&left[..count]);
        self.place += count;
        Ok(count)
    }

    fn faults(&self) -> u64 {
        self.faults
    }
}

/// A sink that keeps what is written to it, and tells it. A call that is to fail writes half of its piece.
#[derive(Drop)]
pub struct MemSink {
    bytes: Vec<u8>,
    faults: u64,
    script: Script,
}

impl MemSink {
    ghost use Rattle.dd_io.specs.Scripted.{sink_script};

    /// An empty sink, whose calls of these numbers fail. The first call has the number 1.
    pub fn new(alloc: Global, fails: Vec<u64>) -> MemSink
        ensures written { (⟦<MemSink as Sink>⟧.view result).written ≡ Some [] }
        ensures faults { (⟦<MemSink as Sink>⟧.view result).faults ≡ 0 }
        ensures script { IsFresh (sink_script result) fails.items }
    {
        MemSink {
            bytes: Vec::new(alloc),
            faults: 0,
            script: Script::new(fails),
        }
    }

    /// How many calls failed for want of memory.
    pub fn missed(&self) -> u64
        ensures { result ≡ missed_count (sink_script self.now) }
    {
        self.script.missed
    }

    pub fn bytes(&self) -> &[u8]
        ensures { (⟦<MemSink as Sink>⟧.view self.now).written ≡ Some result.now }
    {
        &self.bytes
    }
}

impl Sink for MemSink {
    ghost use Rattle.dd_io.specs.Scripted.{sink_script};

    ghost view = { λ k. record { written = Some k.bytes.items; faults = k.faults } };

    fn write_all(&mut self, from: &[u8]) -> Result<(), SinkFault>
        ensures sends { Sends from.now result (⟦<MemSink as Sink>⟧.view self.old) (⟦<MemSink as Sink>⟧.view self.new) }
        ensures script { FollowsScript (sink_script self.old) (sink_script self.new) result }
    {
        let fails = self.script.next_fails();
        let count = if fails { from.len() / 2 } else { from.len() };
        if self.bytes.extend_from_slice(&from[..count]).is_err() {
            self.script.miss();
            self.faults = self.faults.saturating_add(1);
            return Err(SinkFault);
        }
        if fails {
            self.faults = self.faults.saturating_add(1);
            return Err(SinkFault);
        }
        Ok(())
    }

    fn faults(&self) -> u64 {
        self.faults
    }
}
