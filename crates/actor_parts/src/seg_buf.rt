//! Room for the bytes of one segment.
ghost use Rattle.std.specs.Prelude.{◌≡◌, length, IfOk};
ghost use Rattle.std.specs.Borrow.{sem};
ghost use Rattle.base_model.specs.Bytes.{zeros};

use disk_format::MOST_SEGMENT;
use std::alloc::{AllocError, Global};
use std::marker::Model;

/// Room for the bytes of one segment, `disk_format::MOST_SEGMENT` of them, taken once.
#[derive(Drop)]
pub struct SegBuf {
    bytes: Vec<u8>,
}

impl Model for SegBuf {
    ghost use Rattle.std.specs.Prelude.{◌≡◌, ℕ, List, length};
    ghost use Rattle.disk_format.specs.declared.numbers.TheConstants.{MOST_SEGMENT};

    ghost Value = { List ℕ };

    ghost view = { λ b. b.bytes.items };

    ghost invariant = { λ b. length b.bytes.items ≡ MOST_SEGMENT };
}

impl SegBuf {
    ghost use Rattle.actor_parts.specs.Buffer.{LendsBytes};

    /// Zeros. It fails for want of memory alone.
    pub fn new(alloc: Global) -> Result<SegBuf, AllocError>
        ensures { IfOk result (λ b. b ≡ zeros MOST_SEGMENT) }
    {
        Ok(SegBuf {
            bytes: base_model::zeros(alloc, MOST_SEGMENT as usize)?,
        })
    }

    /// Its bytes.
    pub fn bytes(&self) -> &[u8]
        ensures value { result.now ≡ self.now }
        ensures length { length result.now ≡ MOST_SEGMENT }
    {
        self.bytes.as_slice()
    }

    /// Its bytes, to be written.
    pub fn bytes_mut(&mut self) -> &mut [u8]
        ensures* writes_back { sem 𝓛 (LendsBytes self.entry result) }
        ensures value { result.now ≡ self.old }
        ensures length { length result.now ≡ MOST_SEGMENT }
    {
        self.bytes.as_mut_slice()
    }
}
