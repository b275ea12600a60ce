// A disk in memory that tells nothing of its content, and may lie.
ghost use Rattle.std.specs.Prelude.{◌≡◌, ◌+◌, ◌-◌, ◌^◌, ◌≤◌, min, List, ℕ, [], ◌∷◌, length, IsOk, OnOk};
ghost use Rattle.base_model.specs.Bytes.{range, written};
ghost use Rattle.base_model.specs.Fault.{Rose};
ghost use Rattle.dd_disk.specs.View.{IsLater, CrashLeaves, SteppedFrom};
ghost use Rattle.dd_disk.specs.Ending.{Done, Reads};
ghost use Rattle.dd_disk.specs.Writes.{Torn};
ghost use Rattle.dd_disk.specs.Lies.{TellsLies};

use crate::bytes::{copy_part, get, put};
use crate::{Disk, DiskFault};

/// A disk that gives these bytes, but other ones at the places of its lies. It never fails, and tells no content; what a
/// read of it returned is known while nothing was written since.
#[derive(Drop)]
pub struct BlindDisk {
    bytes: Vec<u8>,
    lies: Vec<(u64, u8)>,
    moment: u64,
    // The moment of the last write.
    written: u64,
}

impl BlindDisk {
    ghost use Rattle.dd_disk.specs.Blind.{held, lies_of, moment_of, last_write_of};

    /// A lie is a place and the byte that reads give there. Of two at one place the later one is given.
    pub fn new(bytes: Vec<u8>, lies: Vec<(u64, u8)>) -> BlindDisk
        ensures size { (⟦<BlindDisk as Disk>⟧.view result).size ≡ length bytes.items }
        ensures held { held result ≡ bytes.items }
        ensures lies { lies_of result ≡ lies.items }
        ensures time { (moment_of result ≡ 0) × (last_write_of result ≡ 0) }
    {
        BlindDisk {
            bytes,
            lies,
            moment: 0,
            written: 0,
        }
    }

    pub fn bytes(&self) -> &[u8]
        ensures { result.now ≡ held self.now }
    {
        &self.bytes
    }
}

// Puts the lies over what was read at a place.
fn tell_lies(lies: &[(u64, u8)], at: u64, into: &mut [u8])
    ensures { TellsLies lies.now at into.old into.new }
{
    for lie in lies {
        tell_lie(*lie, at, into);
    }
}

fn tell_lie(lie: (u64, u8), at: u64, into: &mut [u8])
    ensures { TellsLies (lie ∷ []) at into.old into.new }
{
    let (place, byte) = lie;
    if place >= at && place - at < into.len() as u64 {
        into[(place - at) as usize] = byte;
    }
}

impl Disk for BlindDisk {
    ghost use Rattle.dd_disk.specs.Blind.{held, lies_of, moment_of, last_write_of, blind_view};

    ghost view = { blind_view };

    fn size(&self) -> u64 {
        self.bytes.len() as u64
    }

    fn read(&mut self, at: u64, into: &mut [u8]) -> Result<(), DiskFault>
        requires { at + length into.old ≤ length (held self.old) }
        ensures gives { TellsLies (lies_of self.old) at (range at (length into.old) (held self.old)) into.new }
        ensures done { IsOk result }
        ensures held { (held self.new ≡ held self.old) × (lies_of self.new ≡ lies_of self.old) }
        ensures time { (moment_of self.new ≡ min (moment_of self.old + 1) (2 ^ 64 - 1))
            × (last_write_of self.new ≡ last_write_of self.old) }
        ensures returned { (blind_view self.new).read_returned (blind_view self.old).clock at into.new }
        ensures rises { Rose (blind_view self.old).clock (blind_view self.new).clock }
        ensures reads { Reads Done (blind_view self.old) (blind_view self.new) }
    {
        self.moment = self.moment.saturating_add(1);
        get(&self.bytes, at as usize, into);
        tell_lies(&self.lies, at, into);
        Ok(())
    }

    fn read_ahead(&self, at: u64, into: &mut [u8]) -> bool {
        copy_part(&self.bytes, at as usize, into)
    }

    fn write(&mut self, at: u64, from: &[u8]) -> Result<(), DiskFault>
        requires { at + length from.now ≤ length (held self.old) }
        ensures held { (held self.new ≡ written at from.now (held self.old)) × (lies_of self.new ≡ lies_of self.old) }
        ensures time { (moment_of self.new ≡ min (moment_of self.old + 1) (2 ^ 64 - 1))
            × (last_write_of self.new ≡ moment_of self.new) }
        ensures done { IsOk result }
        ensures leaves { CrashLeaves (SteppedFrom (Torn at (length from.now)) (blind_view self.old))
            (blind_view self.old) (blind_view self.new) }
        ensures tears { OnOk result ((d c : List ℕ) → (blind_view self.old).images d → Torn at (length from.now) d c
            → (blind_view self.new).images c) }
        ensures later { IsLater (blind_view self.old) (blind_view self.new) }
        ensures rises { Rose (blind_view self.old).clock (blind_view self.new).clock }
    {
        self.moment = self.moment.saturating_add(1);
        self.written = self.moment;
        put(&mut self.bytes, at as usize, from);
        Ok(())
    }

    fn sync(&mut self) -> Result<(), DiskFault>
        ensures done { IsOk result }
        ensures held { (held self.new ≡ held self.old) × (lies_of self.new ≡ lies_of self.old) }
        ensures time { (moment_of self.new ≡ min (moment_of self.old + 1) (2 ^ 64 - 1))
            × (last_write_of self.new ≡ last_write_of self.old) }
        ensures rises { Rose (blind_view self.old).clock (blind_view self.new).clock }
        ensures reads { Reads Done (blind_view self.old) (blind_view self.new) }
    {
        self.moment = self.moment.saturating_add(1);
        Ok(())
    }

    fn faults(&self) -> u64 {
        0
    }

    fn moment(&self) -> u64 {
        self.moment
    }
}
