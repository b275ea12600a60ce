//! Why a container is not scanned.
ghost use Rattle.std.specs.Prelude.{◌≡◌};
ghost use Rattle.gc_enumerate.specs.declared.fault.ScanFault.TheVariants.{Memory};

use container_meta::Key;
use disk_format::Why;
use std::alloc::{AllocError, AllocFailed};

/// Why a container is not scanned, or a call that the scan makes is not answered.
#[derive(Clone, Copy)]
pub enum ScanFault {
    /// A read of the disk failed.
    DiskRead,
    /// The bytes read at a place have another digest than the one wanted.
    Corrupt {
        slot: u32,
        /// The first byte, counted from the slot's data section.
        offset: u32,
        /// How many bytes.
        length: u32,
        want: [u8; 32],
        got: [u8; 32],
    },
    /// The index has no such key, and a node with the right digest names it.
    Missing {
        key: Key,
    },
    /// What stands at a byte of the disk is damaged: bytes of the index, or a node.
    Damaged {
        at: u64,
        why: Why,
    },
    /// Memory ran out.
    Memory,
}

impl From<AllocError> for ScanFault {
    ghost from_gives = { λ _ e. e ≡ Memory };

    fn from(_error: AllocError) -> ScanFault {
        ScanFault::Memory
    }
}

impl<T: Drop> From<AllocFailed<T>> for ScanFault {
    ghost from_gives = { λ _ e. e ≡ Memory };

    fn from(_error: AllocFailed<T>) -> ScanFault {
        ScanFault::Memory
    }
}
