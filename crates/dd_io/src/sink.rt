// Where bytes are written to.
ghost use Rattle.std.specs.Prelude.{◌≡◌, ℕ};
ghost use Rattle.dd_io.specs.Flow.{SinkView, Sends};

/// A call of a sink failed.
#[derive(Clone, Copy)]
pub struct SinkFault;

/// Where bytes go, in order, in pieces. What is known of it is stated in docs/MODEL.md, 'Sources and sinks'.
pub trait Sink {
    /// The sink as it is.
    ghost view: { Self → SinkView };

    /// Writes a whole piece. A call that fails may have written a first part of it.
    fn write_all(&mut self, from: &[u8]) -> Result<(), SinkFault>
        ensures { Sends from.now result (view self.old) (view self.new) };

    /// How many calls failed, or 2^64 - 1 from there on.
    fn faults(&self) -> u64
        ensures { result ≡ (view self.now).faults };
}

impl<K: Sink> Sink for &mut K {
    ghost view = { λ k. K.view k.now };

    fn write_all(&mut self, from: &[u8]) -> Result<(), SinkFault> {
        Sink::write_all(&mut **self, from)
    }

    fn faults(&self) -> u64 {
        Sink::faults(&**self)
    }
}
