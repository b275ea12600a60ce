// A disk as the store sees it.
ghost use Rattle.std.specs.Prelude.{◌≡◌, ◌+◌, ◌-◌, ◌^◌, ◌<◌, ◌≤◌, List, ℕ, min, length, option_map, OnOk, OnErr};
ghost use Rattle.base_model.specs.Bytes.{range, written};
ghost use Rattle.base_model.specs.Fault.{Rose};
ghost use Rattle.base_model.specs.Known.{Known};
ghost use Rattle.dd_disk.specs.View.{DiskView, IsLater, IsDurable, CrashLeaves, SteppedFrom};
ghost use Rattle.dd_disk.specs.Ending.{ReadCall, WriteCall, ending, CountsFault, Reads};
ghost use Rattle.dd_disk.specs.Writes.{Both, Torn};

/// A call of a disk failed.
#[derive(Clone, Copy, Debug, PartialEq, Eq)]
pub struct DiskFault;

/// Bytes that outlive the process. Its size never changes, and each call's range lies in it.
/// What a crash may leave of it is stated in docs/MODEL.md, 'The disk'.
pub trait Disk {
    /// The disk as it is.
    ghost view: { Self → DiskView };

    fn size(&self) -> u64
        ensures { result ≡ (view self.now).size };

    /// Reads the bytes from `at` on, as many as `into` has. A read that fails leaves any bytes in `into`.
    fn read(&mut self, at: u64, into: &mut [u8]) -> Result<(), DiskFault>
        requires { at + length into.old ≤ (view self.old).size }
        ensures bytes { OnOk result (Known (view self.old).content (λ bytes. into.new ≡ range at (length into.old) bytes)) }
        ensures returned { OnOk result ((view self.new).read_returned (view self.old).clock at into.new) }
        ensures rises { Rose (view self.old).clock (view self.new).clock }
        ensures reads { Reads (ending (λ _. ReadCall) result) (view self.old) (view self.new) };

    /// Puts the bytes from `at` on into `into` before they are read, if it can, and answers whether it did. It is none of the calls that
    /// are told of: it takes no moment, counts no fault, and shows nothing of the disk. So whoever calls it reads again what it needs.
    fn read_ahead(&self, _at: u64, _into: &mut [u8]) -> bool {
        false
    }

    /// Writes these bytes from `at` on. Until a sync, a crash may leave any bytes in the range, and so does a write
    /// that fails.
    fn write(&mut self, at: u64, from: &[u8]) -> Result<(), DiskFault>
        requires { at + length from.now ≤ (view self.old).size }
        ensures ok { OnOk result ((view self.new).content ≡ option_map (written at from.now) (view self.old).content) }
        ensures torn { Both (Torn at (length from.now)) (view self.old).content (view self.new).content }
        ensures leaves { CrashLeaves (SteppedFrom (Torn at (length from.now)) (view self.old)) (view self.old) (view self.new) }
        // A crash may indeed leave any bytes there.
        ensures tears { OnOk result ((d c : List ℕ) → (view self.old).images d → Torn at (length from.now) d c
            → (view self.new).images c) }
        ensures later { IsLater (view self.old) (view self.new) }
        ensures rises { Rose (view self.old).clock (view self.new).clock }
        ensures count { CountsFault (ending (λ _. WriteCall) result) (view self.old).faults (view self.new).faults };

    /// Has all that was written outlive a crash: after it, a crash leaves what reads give. A sync that fails changes
    /// nothing, and nothing of what a crash may leave.
    fn sync(&mut self) -> Result<(), DiskFault>
        ensures ok { OnOk result (IsDurable (view self.new)) }
        ensures kept { OnErr result ((c : List ℕ) → (view self.old).images c → (view self.new).images c) }
        ensures rises { Rose (view self.old).clock (view self.new).clock }
        ensures reads { Reads (ending (λ _. WriteCall) result) (view self.old) (view self.new) };

    /// How many calls failed, or 2^64 - 1 from there on.
    fn faults(&self) -> u64
        ensures { result ≡ (view self.now).faults };

    /// The moment, or 2^64 - 1 from there on.
    fn moment(&self) -> u64
        ensures { result ≡ min (view self.now).clock (2 ^ 64 - 1) };
}
