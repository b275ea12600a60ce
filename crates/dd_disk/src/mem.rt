// A disk in memory. It keeps what it held at first and each call, so that it knows what a crash may leave.
ghost use Rattle.std.specs.Prelude.{◌≡◌, ◌+◌, ◌-◌, ◌≤◌, ℕ, List, length, IfOk, OnOk, OnErr};
ghost use Rattle.base_model.specs.Bytes.{range, written};
ghost use Rattle.base_model.specs.Fault.{Rose};
ghost use Rattle.dd_disk.specs.View.{IsDurable, IsLater, CrashLeaves, SteppedFrom};
ghost use Rattle.dd_disk.specs.Ending.{ReadCall, WriteCall, ending, CountsFault, Reads};
ghost use Rattle.dd_disk.specs.Writes.{Torn};
ghost use Rattle.dd_disk.specs.Calls.{first_of, shown_after, IsReadOf, IsWriteOf, IsSync, IsPast, IsPast-prop, stop_image};

use crate::bytes::{copy_part, get, put};
use crate::call::{Asked, Call, Fill, Log, Noted};
use crate::crash::image_inside;
use crate::{Disk, DiskFault};
use std::alloc::{AllocError, Global};

/// A disk in memory. It tells its content, and fails the calls that it was made to fail.
/// A call that there is no memory to note fails too.
#[derive(Drop)]
pub struct MemDisk {
    // What it held at first, from the first write on.
    first: Option<Vec<u8>>,
    bytes: Vec<u8>,
    log: Log,
    ghost replayed: { shown_after (first_of first bytes.items) log.calls.items ≡ bytes.items },
    ghost past: { IsPast (length (first_of first bytes.items)) log.count log.calls.items } by { IsPast-prop _ _ _ },
}

impl MemDisk {
    ghost use Rattle.std.specs.Prelude.{Some, []};
    ghost use Rattle.dd_disk.specs.Memory.{calls_of, failing, first_held, missed_count};

    /// A disk of these bytes, whose calls of these numbers fail. The first call has the number 1.
    pub fn new(bytes: Vec<u8>, fails: Vec<u64>) -> MemDisk
        ensures content { (⟦<MemDisk as Disk>⟧.view result).content ≡ Some bytes.items }
        ensures images { (c : List ℕ) → (⟦<MemDisk as Disk>⟧.view result).images c → c ≡ bytes.items }
        ensures clock { (⟦<MemDisk as Disk>⟧.view result).clock ≡ 0 }
        ensures faults { (⟦<MemDisk as Disk>⟧.view result).faults ≡ 0 }
        ensures script { failing result ≡ fails.items }
        ensures calls { calls_of result ≡ [] }
        ensures first { first_held result ≡ bytes.items }
        ensures missed { missed_count result ≡ 0 }
    {
        MemDisk {
            first: None,
            bytes,
            log: Log::new(fails),
        }
    }

    pub fn bytes(&self) -> &[u8]
        ensures { Some result.now ≡ (⟦<MemDisk as Disk>⟧.view self.now).content }
    {
        &self.bytes
    }

    /// The calls so far, but for those that there was no memory to note.
    pub fn calls(&self) -> &[Call]
        ensures { result.now ≡ calls_of self.now }
    {
        &self.log.calls
    }

    /// How many calls failed because there was no memory to note them.
    pub fn missed(&self) -> u64
        ensures { result ≡ missed_count self.now }
    {
        self.log.missed
    }

    /// What a crash inside the call of this number leaves, where the ranges that aren't synced by then are filled.
    pub fn crash_image(&self, alloc: Global, call: u64, fill: Fill) -> Result<Vec<u8>, AllocError>
        requires { 1 ≤ call }
        ensures image { IfOk result (λ image. image.items ≡ stop_image (first_held self.now) (calls_of self.now) call fill) }
        // It is one of those that a crash might have left.
        ensures left { IfOk result (λ image. (⟦<MemDisk as Disk>⟧.view self.now).images_since (call - 1) image.items) }
    {
        let first = first_content(&self.first, &self.bytes);
        image_inside(alloc, first, &self.log.calls, call, fill)
    }
}

fn first_content<'a>(first: &'a Option<Vec<u8>>, bytes: &'a Vec<u8>) -> &'a [u8]
    ensures { result.now ≡ first_of first.now bytes.now.items }
{
    match first {
        Some(first) => first,
        None => bytes,
    }
}

// Copies what a write has to keep: what the disk held at first, and what is written.
fn keep(first: &mut Option<Vec<u8>>, bytes: &Vec<u8>, from: &[u8]) -> Result<Vec<u8>, AllocError>
    ensures same { first_of first.new bytes.now.items ≡ first_of first.old bytes.now.items }
    ensures kept { OnOk result ((later : List ℕ) → first_of first.new later ≡ first_of first.old bytes.now.items) }
    ensures copy { IfOk result (λ copy. copy.items ≡ from.now) }
{
    let alloc = *bytes.allocator();
    if first.is_none() {
        *first = Some(bytes.as_slice().to_vec(alloc)?);
    }
    from.to_vec(alloc)
}

impl Disk for MemDisk {
    ghost use Rattle.dd_disk.specs.Memory.{shown, mem_view, FollowsScript};

    ghost view = { mem_view };

    fn size(&self) -> u64 {
        self.bytes.len() as u64
    }

    fn read(&mut self, at: u64, into: &mut [u8]) -> Result<(), DiskFault>
        requires { at + length into.old ≤ length (shown self.old) }
        ensures bytes { OnOk result (into.new ≡ range at (length into.old) (shown self.old)) }
        ensures rises { Rose (mem_view self.old).clock (mem_view self.new).clock }
        ensures reads { Reads (ending (λ _. ReadCall) result) (mem_view self.old) (mem_view self.new) }
        ensures script { FollowsScript (IsReadOf at (length into.old)) self.old self.new result }
    {
        match self.log.note(Asked::Read(at, into.len() as u64)) {
            Noted::Done => {
                get(&self.bytes, at as usize, into);
                Ok(())
            }
            Noted::Failed => Err(DiskFault),
            Noted::Missed => Err(DiskFault),
        }
    }

    fn read_ahead(&self, at: u64, into: &mut [u8]) -> bool {
        copy_part(&self.bytes, at as usize, into)
    }

    fn write(&mut self, at: u64, from: &[u8]) -> Result<(), DiskFault>
        requires { at + length from.now ≤ length (shown self.old) }
        ensures ok { OnOk result (shown self.new ≡ written at from.now (shown self.old)) }
        ensures torn { Torn at (length from.now) (shown self.old) (shown self.new) }
        ensures leaves { CrashLeaves (SteppedFrom (Torn at (length from.now)) (mem_view self.old)) (mem_view self.old) (mem_view self.new) }
        ensures tears { OnOk result ((d c : List ℕ) → (mem_view self.old).images d → Torn at (length from.now) d c
            → (mem_view self.new).images c) }
        ensures later { IsLater (mem_view self.old) (mem_view self.new) }
        ensures rises { Rose (mem_view self.old).clock (mem_view self.new).clock }
        ensures count { CountsFault (ending (λ _. WriteCall) result) (mem_view self.old).faults (mem_view self.new).faults }
        ensures script { FollowsScript (IsWriteOf at from.now) self.old self.new result }
    {
        let Ok(copy) = keep(&mut self.first, &self.bytes, from) else {
            self.log.miss();
            return Err(DiskFault);
        };
        match self.log.note(Asked::Write(at, copy)) {
            Noted::Done => {
                put(&mut self.bytes, at as usize, from);
                Ok(())
            }
            Noted::Failed => {
                put(&mut self.bytes, at as usize, from);
                Err(DiskFault)
            }
            Noted::Missed => Err(DiskFault),
        }
    }

    fn sync(&mut self) -> Result<(), DiskFault>
        ensures ok { OnOk result (IsDurable (mem_view self.new)) }
        ensures kept { OnErr result ((c : List ℕ) → (mem_view self.old).images c → (mem_view self.new).images c) }
        ensures rises { Rose (mem_view self.old).clock (mem_view self.new).clock }
        ensures reads { Reads (ending (λ _. WriteCall) result) (mem_view self.old) (mem_view self.new) }
        ensures script { FollowsScript IsSync self.old self.new result }
    {
        match self.log.note(Asked::Sync) {
            Noted::Done => Ok(()),
            Noted::Failed => Err(DiskFault),
            Noted::Missed => Err(DiskFault),
        }
    }

    fn faults(&self) -> u64 {
        self.log.faults
    }

    fn moment(&self) -> u64 {
        self.log.count
    }
}
