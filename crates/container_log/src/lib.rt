//! Containers in their slots on a disk: written, freed and read again.
//!
//! The format is docs/FORMAT.md, 'The disk' and 'Container slot'.
#![tactic(auto)]

mod ahead;
mod fault;
mod inspecting;
mod reading;
mod slot;
mod writing;

pub use fault::LogFault;
pub use inspecting::inspect_slots;
pub use reading::{Spot, read_meta, read_segment};
pub use slot::read_slot;
pub use writing::{free, free_all, freed_one_by_one, seal, seal_all, sealed_one_by_one};
