//! Why an inspection came to no end.
ghost use Rattle.std.specs.Prelude.{◌≡◌};
ghost use Rattle.inspection.specs.declared.halt.Halt.TheVariants.{Memory};

use std::alloc::{AllocError, AllocFailed};

/// Why an inspection was not gone on with.
#[derive(Clone, Copy)]
pub enum Halt {
    /// There was no memory.
    Memory,
    /// A read of the disk failed.
    DiskRead,
    /// What was found was not taken.
    Untaken,
}

impl From<AllocError> for Halt {
    ghost from_gives = { λ _ e. e ≡ Memory };

    fn from(_error: AllocError) -> Halt {
        Halt::Memory
    }
}

impl<T: Drop> From<AllocFailed<T>> for Halt {
    ghost from_gives = { λ _ e. e ≡ Memory };

    fn from(_error: AllocFailed<T>) -> Halt {
        Halt::Memory
    }
}
