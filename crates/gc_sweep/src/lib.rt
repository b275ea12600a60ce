//! The sweep of a collection: the live copies of its sources are put into new containers, and the sources are given back
//! (docs/MODEL.md, 'Sweeping').
#![tactic(auto)]

mod beginning;
mod copying;
mod flushing;
mod giving_back;
mod laws;
mod next;
mod releasing;
mod sweep;

pub use beginning::begin;
pub use copying::copy_source;
pub use flushing::flush_copies;
pub use laws::sealing_keeps_it_sweeping;
pub use releasing::release_ready;
pub use sweep::{Next, Sweep};
