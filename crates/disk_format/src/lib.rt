//! The numbers of a disk image, where its parts lie and how its cells are spelled, as `docs/FORMAT.md` states them.
#![tactic(auto)]

mod numbers;
mod places;
mod why;

pub use numbers::{
    CELL_BYTES, CONTAINER_GATE, DATA_BYTES, FIRST_HALF, FIRST_SELECTOR, FIRST_SLOT, FORMAT_GATE,
    HALF_BYTES, HALF_CELLS, HEADER_BYTES, LAST_ID, LEAST_SEGMENT, LEAST_SIZE, LEAST_SLOTS,
    MOST_CHILDREN, MOST_ENTRIES, MOST_FILE, MOST_LEVEL, MOST_NAME, MOST_NAMES, MOST_SEGMENT,
    MOST_SLOTS, NODE_FORM, RECORD_GATE, RESERVE, SCRATCH_BYTES, SELECTOR_GATE, SLOT_BYTES, VERSION,
    numbers_of_the_format,
};
pub use places::{cell_at, data_at, is_slot_count, selector_at, size_of, slot_at};
pub use why::Why;
