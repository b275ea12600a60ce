//! The entries of a container, for a collection: which are live, which are the copies that the index has, and what is planned of
//! them where live ones are copied (docs/MODEL.md, 'Collection').
#![tactic(auto)]

mod again;
mod copying;
mod entries;
mod flushing;
mod header;
mod laws;
mod plan;
mod planning;

pub use copying::{copy_entries, same_kind};
pub use entries::{live_bytes, same_place};
pub use flushing::flush;
pub use header::read_header;
pub use laws::a_header_of_the_tables_is_the_stores;
pub use plan::Plan;
