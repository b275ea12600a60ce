//! Where the parts of a disk image lie (docs/FORMAT.md, 'The disk').
ghost use Rattle.std.specs.Prelude.{◌≡◌, ◌<◌, ◌≤◌};
ghost use Rattle.disk_format.specs.Layout.{
  size_of as size_of_disk,
  slot_at as place_of_slot,
  data_at as place_of_data,
  cell_at as place_of_cell,
  selector_at as place_of_selector,
  is_slot_count as is_count_of_slots,
};

use crate::numbers::{
    CELL_BYTES, FIRST_HALF, FIRST_SELECTOR, FIRST_SLOT, HALF_BYTES, HEADER_BYTES, LEAST_SLOTS,
    MOST_SLOTS, SCRATCH_BYTES, SLOT_BYTES,
};

/// Whether a disk may have so many container slots.
pub fn is_slot_count(slots: u32) -> bool
    ensures { result ≡ is_count_of_slots slots }
{
    LEAST_SLOTS <= slots && slots <= MOST_SLOTS
}

/// The bytes of a disk of so many slots.
pub fn size_of(slots: u32) -> u64
    ensures { result ≡ size_of_disk slots }
{
    FIRST_SLOT + (SLOT_BYTES + SCRATCH_BYTES) * u64::from(slots)
}

/// The first byte of a container slot.
pub fn slot_at(slot: u32) -> u64
    ensures { result ≡ place_of_slot slot }
{
    FIRST_SLOT + SLOT_BYTES * u64::from(slot)
}

/// The first byte of the data section of a slot.
pub fn data_at(slot: u32) -> u64
    ensures { result ≡ place_of_data slot }
{
    slot_at(slot) + HEADER_BYTES
}

/// The first byte of a selector, 0 or 1.
pub fn selector_at(half: u8) -> u64
    ensures { result ≡ place_of_selector half }
{
    FIRST_SELECTOR + CELL_BYTES * u64::from(half)
}

/// The first byte of a record's cell, by its half, 0 or 1, and its number there.
pub fn cell_at(half: u8, cell: u32) -> u64
    ensures { result ≡ place_of_cell half cell }
{
    FIRST_HALF + HALF_BYTES * u64::from(half) + CELL_BYTES * u64::from(cell)
}
