//! Why a header could not be read.

ghost use Rattle.std.specs.Prelude.{◌≡◌};
ghost use Rattle.container_meta.specs.declared.fault.MetaFault.TheVariants.{Memory};

use std::alloc::{AllocError, AllocFailed};

/// Why a header could not be read: the first check that failed (docs/FORMAT.md, 'Container slot'), or want of memory.
#[derive(Clone, Copy)]
pub enum MetaFault {
    /// The gate isn't `disk_format::CONTAINER_GATE`, so no container stands here.
    Gate(u8),
    /// The magic isn't `DDFSCON`.
    Magic,
    /// A field breaks its rule.
    Field {
        /// The field's first byte, from the slot's first byte on; of the zeros after the entries the first that is none.
        offset: u32,
        /// The field as a number. Where it has more than eight bytes, one of them: of a digest the first, of zeros the
        /// first that is none.
        got: u64,
    },
    /// The header and its entries have another digest than the header says.
    Digest {
        /// As stored.
        want: [u8; 32],
        /// As computed.
        got: [u8; 32],
    },
    /// Memory ran out.
    Memory,
}

impl From<AllocError> for MetaFault {
    ghost from_gives = { λ _ e. e ≡ Memory };

    fn from(_e: AllocError) -> MetaFault {
        MetaFault::Memory
    }
}

impl<T: Drop> From<AllocFailed<T>> for MetaFault {
    ghost from_gives = { λ _ e. e ≡ Memory };

    fn from(_e: AllocFailed<T>) -> MetaFault {
        MetaFault::Memory
    }
}
