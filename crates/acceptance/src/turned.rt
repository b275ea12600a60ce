//! A disk that is another one from a call on.
ghost use Rattle.std.specs.Prelude.{◌≡◌, ◌+◌, ◌-◌, ◌^◌, ◌≤◌, min, length};

use dd_disk::{Disk, DiskFault};

/// A disk that gives these bytes, and from the call of a number on those of another image. No call of it fails, and it tells
/// nothing of its content.
#[derive(Drop)]
pub(crate) struct TurnedDisk {
    bytes: Vec<u8>,
    other: Vec<u8>,
    turn: u64,
    moment: u64,
}

// Puts bytes at a place.
fn put(bytes: &mut Vec<u8>, at: usize, from: &[u8])
    requires { at + length from.now ≤ length bytes.old.items }
    ensures { length bytes.new.items ≡ length bytes.old.items }
{
    bytes[at..at + from.len()].copy_from_slice(from);
}

impl TurnedDisk {
    /// Where the other image has another size, it is never given.
    pub(crate) fn new(bytes: Vec<u8>, other: Vec<u8>, turn: u64) -> TurnedDisk {
        TurnedDisk {
            bytes,
            other,
            turn,
            moment: 0,
        }
    }

    /// Whether it has just these bytes.
    pub(crate) fn has(&self, image: &[u8]) -> bool {
        self.bytes.as_slice() == image
    }

    // One more call.
    fn count_call(&mut self)
        ensures size { length self.new.bytes.items ≡ length self.old.bytes.items }
        ensures time { self.new.moment ≡ min (self.old.moment + 1) (2 ^ 64 - 1) }
        ensures later { self.old.moment ≤ self.new.moment }
    {
        self.moment = self.moment.saturating_add(1);
        if self.moment == self.turn && self.other.len() == self.bytes.len() {
            self.bytes.as_mut_slice().copy_from_slice(&self.other);
        }
    }
}

impl Disk for TurnedDisk {
    ghost use Rattle.acceptance.specs.Turned.{turned_view};

    ghost view = { turned_view };

    fn size(&self) -> u64 {
        self.bytes.len() as u64
    }

    fn read(&mut self, at: u64, into: &mut [u8]) -> Result<(), DiskFault> {
        self.count_call();
        let place = at as usize;
        into.copy_from_slice(&self.bytes[place..place + into.len()]);
        Ok(())
    }

    fn write(&mut self, at: u64, from: &[u8]) -> Result<(), DiskFault> {
        self.count_call();
        put(&mut self.bytes, at as usize, from);
        Ok(())
    }

    fn sync(&mut self) -> Result<(), DiskFault> {
        self.count_call();
        Ok(())
    }

    fn faults(&self) -> u64 {
        0
    }

    fn moment(&self) -> u64 {
        self.moment
    }
}
