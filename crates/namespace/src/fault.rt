//! Why a name is refused.

ghost use Rattle.std.specs.Prelude.{◌≡◌};
ghost use Rattle.namespace.specs.declared.fault.NameFault.TheVariants.{Memory};

use std::alloc::{AllocError, AllocFailed};

/// Why a record or a name is refused, or want of memory.
#[derive(Clone, Copy)]
pub enum NameFault {
    /// No file has this name.
    NoFile,
    /// The bytes are no name: a name is 1 to 255 bytes from 0x21 to 0x7E.
    BadName,
    /// The name is new, and as many names are there as there may be: `disk_format::MOST_NAMES`.
    TooMany,
    /// Memory ran out.
    Memory,
}

impl From<AllocError> for NameFault {
    ghost from_gives = { λ _ e. e ≡ Memory };

    fn from(_e: AllocError) -> NameFault {
        NameFault::Memory
    }
}

impl<T: Drop> From<AllocFailed<T>> for NameFault {
    ghost from_gives = { λ _ e. e ≡ Memory };

    fn from(_e: AllocFailed<T>) -> NameFault {
        NameFault::Memory
    }
}
