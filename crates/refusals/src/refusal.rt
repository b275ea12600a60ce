//! The refusals, in one table.
ghost use Rattle.std.specs.Prelude.{◌≡◌};
ghost use Rattle.refusals.specs.declared.refusal.Refusal.TheVariants.{Memory};

use disk_format::Why;
use std::alloc::{AllocError, AllocFailed};

/// How two segments of one key differ.
#[derive(Clone, Copy)]
pub enum Difference {
    /// Their lengths in bytes.
    Length { offered: u64, held: u64 },
    /// The first byte at which they differ: its place, counted from 0, and both bytes.
    Byte { place: u64, offered: u8, held: u8 },
}

/// What an actor is at, as a refusal names it.
#[derive(Clone, Copy)]
pub enum PartKind {
    /// Nothing.
    Idle,
    /// It gives the bytes of a file.
    Writing,
    /// It has given all bytes of a file, whose name is to come.
    Finished,
    /// It takes the bytes of a file.
    Reading,
}

/// What the next step of a collection does (docs/MODEL.md, 'Collection').
#[derive(Clone, Copy)]
pub enum Phase {
    /// It scans a container for nodes that are live.
    Mark,
    /// It records how much of a container is live.
    Filter,
    /// It chooses the sources.
    Select,
    /// It copies what is live of a source.
    Copy,
    /// It writes what was copied.
    Flush,
    /// It gives back all sources that are ready.
    Release,
    /// It ends the collection.
    End,
}

/// Why a step or a command was refused, with what it carries. docs/FORMAT.md, 'Refusals', has their texts and statuses.
#[derive(Clone, Copy)]
pub enum Refusal {
    /// 1: there was no memory.
    Memory,
    /// 2: no file has the name.
    NoFile,
    /// 3: the name isn't 1 to 255 bytes from 0x21 to 0x7E.
    BadName,
    /// 4: there is no room for one more name.
    TooMany,
    /// 5: the file is longer than the store takes.
    TooLong,
    /// 6: too few container slots are free.
    Full {
        free: u32,
    },
    /// 7: a segment that is held and one that was offered have one key, and differ.
    Clash {
        key: [u8; 33],
        at: Difference,
    },
    /// 8: the actor's part is none that the step takes.
    WrongPart {
        part: PartKind,
    },
    /// 9: a collection runs, and its next step does this.
    Collecting {
        phase: Phase,
    },
    /// 9: no collection runs.
    NotCollecting,
    /// 10: a read of the disk failed.
    DiskRead,
    /// 11: a write or a sync of the disk failed.
    DiskWrite,
    /// 12: an earlier step failed in mid-write, and the store takes no more steps until it is opened again.
    Stopped {
        /// How many puts and deletes had been acknowledged since the opening.
        at: u64,
    },
    /// 13: the bytes read at a place have another digest than the one wanted.
    Corrupt {
        slot: u32,
        /// The first byte, counted from the slot's data section.
        offset: u32,
        /// How many bytes.
        length: u32,
        want: [u8; 32],
        got: [u8; 32],
    },
    /// 14: no segment with this key is held, and a root names it.
    Missing {
        key: [u8; 33],
    },
    /// 15: a number that has to rise is at its end.
    Numbers,
    /// 16: the image is no store; the format cell's gate and magic, as read.
    NotAStore {
        gate: u8,
        magic: [u8; 7],
    },
    /// 17: a layout or form that is not known.
    Version {
        n: u32,
    },
    /// 18: what stands at a byte of the disk is damaged.
    Damaged {
        at: u64,
        why: Why,
    },
    /// 19: a child of an offered node, or the root of a name, isn't among the actor's pins.
    Unpinned {
        key: [u8; 33],
    },
    /// 20: the disk has a store already.
    AlreadyStore,
    /// 21: the disk has another size, in bytes, than the one wanted.
    WrongSize {
        want: u64,
        got: u64,
    },
    /// 22: all numbers of actors were given out to passes of a shared store.
    NoActor,
    /// 23: generated files are stored only where no name has a file.
    NotEmpty {
        /// How many names have one.
        files: u64,
    },
}

impl From<AllocError> for Refusal {
    ghost from_gives = { λ _ e. e ≡ Memory };

    fn from(_error: AllocError) -> Refusal {
        Refusal::Memory
    }
}

impl<T: Drop> From<AllocFailed<T>> for Refusal {
    ghost from_gives = { λ _ e. e ≡ Memory };

    fn from(_error: AllocFailed<T>) -> Refusal {
        Refusal::Memory
    }
}
