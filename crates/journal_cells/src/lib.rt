//! The cells of a disk image: the format cell, the selectors, and the records of the journal.
//!
//! The format is docs/FORMAT.md, 'Cells'.
#![tactic(auto)]

mod checkpoint;
mod checks;
mod device;
mod fault;
mod heads;
mod inspecting;
mod journal;
mod opening;
mod record;
mod scanning;
mod spelling;

pub use checkpoint::FreshHalf;
pub use fault::CellFault;
pub use heads::Selector;
pub use inspecting::inspect_journal;
pub use journal::Journal;
pub use opening::slots_of;
pub use scanning::scan;
pub use spelling::{encode_format, encode_record, encode_selector};
