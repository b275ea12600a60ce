//! The running store: its tables in memory, and which store they represent (docs/MODEL.md, 'The running store').
#![tactic(auto)]

mod comparing;
mod containers;
mod indexing;
mod indexing_all;
mod open_store;
mod slot_table;
mod tables;

pub use comparing::{compare_all, compare_one, read_copy, read_same};
pub use containers::Containers;
pub use indexing::{find, put_entries, remove_key};
pub use indexing_all::put_each;
pub use open_store::OpenStore;
pub use slot_table::{SlotCount, SlotTable};
pub use tables::Tables;
