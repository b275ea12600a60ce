//! The index: from the key of a segment to the place of its copy.
//!
//! The rules are docs/MODEL.md, 'The index'.
#![tactic(auto)]

mod fault;
mod index;
mod map_index;

pub use container_meta::{Key, Place};
pub use fault::IndexFault;
pub use index::Index;
pub use map_index::MapIndex;

/// The index of a store.
pub type StoreIndex = MapIndex;
