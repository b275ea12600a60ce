//! The numbers of the format (docs/FORMAT.md). Each stands here and nowhere else.
ghost use Rattle.std.specs.Prelude.{◌≡◌, ◌-◌, ◌^◌};
ghost use Rattle.disk_format.specs.Numbers.{HasNumbersOfCells, HasNumbersOfSlots, HasNumbersOfFiles};

/// The bytes of a cell: the format cell, a selector or a record.
pub const CELL_BYTES: u64 = 512;
/// Where selector 0 begins.
pub const FIRST_SELECTOR: u64 = 512;
/// Where half 0 of the journal begins.
pub const FIRST_HALF: u64 = 1_536;
/// How many records a half of the journal has room for.
pub const HALF_CELLS: u32 = 1_024;
/// The bytes of a half.
pub const HALF_BYTES: u64 = 524_288;
/// Where container slot 0 begins.
pub const FIRST_SLOT: u64 = 1_050_112;
/// The bytes of a container slot.
pub const SLOT_BYTES: u64 = 262_144;
/// The bytes of a slot's header and entries.
pub const HEADER_BYTES: u64 = 49_664;
/// The bytes of a slot's data section that a container may use.
pub const DATA_BYTES: u64 = 212_480;
/// The scratch bytes for each slot, after the last slot.
pub const SCRATCH_BYTES: u64 = 131_072;
/// The fewest slots of a disk.
pub const LEAST_SLOTS: u32 = 4;
/// The most slots of a disk.
pub const MOST_SLOTS: u32 = 65_536;
/// The bytes of a disk of the fewest slots.
pub const LEAST_SIZE: u64 = 2_622_976;
/// The slots that are kept back for collection.
pub const RESERVE: u32 = 2;

/// The first byte of an open format cell.
pub const FORMAT_GATE: u8 = 0xD5;
/// The first byte of an open selector.
pub const SELECTOR_GATE: u8 = 0xB5;
/// The first byte of an open record.
pub const RECORD_GATE: u8 = 0xA5;
/// The first byte of an open container slot.
pub const CONTAINER_GATE: u8 = 0xC5;
/// The only layout of a disk, and the only form of a selector.
pub const VERSION: u32 = 1;

/// The most entries of a container.
pub const MOST_ENTRIES: usize = 1_024;
/// The greatest id of a container.
pub const LAST_ID: u64 = 18_446_744_073_709_551_614;

/// The most names of a store.
pub const MOST_NAMES: usize = 512;
/// The most bytes of a name.
pub const MOST_NAME: usize = 255;

/// The least bytes of a segment that is not the last of its file.
pub const LEAST_SEGMENT: usize = 2_048;
/// The most bytes of a segment.
pub const MOST_SEGMENT: u64 = 16_384;
/// The most bytes of a file.
pub const MOST_FILE: u64 = 1_099_511_627_776;
/// The most children of a node.
pub const MOST_CHILDREN: usize = 64;
/// The most levels of nodes above the data.
pub const MOST_LEVEL: u8 = 6;
/// The form byte of a node.
pub const NODE_FORM: u8 = 1;

/// That the numbers are those of docs/FORMAT.md, whose literals stand in `specs/Numbers.antt`.
pub fn numbers_of_the_format()
    ensures cells { HasNumbersOfCells }
    ensures slots { HasNumbersOfSlots }
    ensures files { HasNumbersOfFiles }
{}
