// Where bytes are read from.
ghost use Rattle.std.specs.Prelude.{◌≡◌, ◌<◌, ◌≤◌, [], ℕ, Some, length, IfOk, OnErr};
ghost use Rattle.base_model.specs.Fault.{HasCause};
ghost use Rattle.base_model.specs.Known.{Known};
ghost use Rattle.dd_io.specs.Flow.{SourceView, Takes};

/// A call of a source failed.
#[derive(Clone, Copy)]
pub struct SourceFault;

/// Bytes that are read once, in pieces. A source that fails may be read again, and gives what it would have given.
/// What is known of it is stated in docs/MODEL.md, 'Sources and sinks'.
pub trait Source {
    /// The source as it is.
    ghost view: { Self → SourceView };

    /// Puts some bytes at the start of `into`, and says how many. None in a buffer that isn't empty is the end.
    fn read(&mut self, into: &mut [u8]) -> Result<usize, SourceFault>
        ensures count { IfOk result (λ n. n ≤ length into.old) }
        ensures bytes { IfOk result (λ n. Known (view self.old).left (λ bytes. Takes n bytes into.new (view self.new).left)) }
        ensures end { IfOk result (λ n. n ≡ 0 → 0 < length into.old → Known (view self.old).left (λ bytes. bytes ≡ [])) }
        ensures err { OnErr result (Known (view self.old).left (λ bytes. (view self.new).left ≡ Some bytes)) }
        ensures cause { HasCause (view self.old).faults (view self.new).faults result };

    /// How many calls failed, or 2^64 - 1 from there on.
    fn faults(&self) -> u64
        ensures { result ≡ (view self.now).faults };
}

impl<S: Source> Source for &mut S {
    ghost view = { λ s. S.view s.now };

    fn read(&mut self, into: &mut [u8]) -> Result<usize, SourceFault> {
        Source::read(&mut **self, into)
    }

    fn faults(&self) -> u64 {
        Source::faults(&**self)
    }
}
