//! Why a call of an index was not done.
ghost use Rattle.std.specs.Prelude.{◌≡◌};
ghost use Rattle.segment_index.specs.declared.fault.IndexFault.TheVariants.{Memory};

use disk_format::Why;
use std::alloc::{AllocError, AllocFailed};

/// Why a call of an index was not done.
#[derive(Clone, Copy)]
pub enum IndexFault {
    /// There was no memory.
    Memory,
    /// A read of the disk failed, in a look-up.
    DiskRead,
    /// A write or a sync of the disk failed, or a read inside a change.
    DiskWrite,
    /// What the index keeps at a byte of the disk breaks its form.
    Damaged {
        /// The byte of the disk that the fault is named by.
        at: u64,
        why: Why,
    },
}

impl From<AllocError> for IndexFault {
    ghost from_gives = { λ _ e. e ≡ Memory };

    fn from(_error: AllocError) -> IndexFault {
        IndexFault::Memory
    }
}

impl<T: Drop> From<AllocFailed<T>> for IndexFault {
    ghost from_gives = { λ _ e. e ≡ Memory };

    fn from(_error: AllocFailed<T>) -> IndexFault {
        IndexFault::Memory
    }
}
