//! The names of a store: which root each of them has. They are the replay of records, the first of them first
//! (docs/MODEL.md, 'Names'). Where the records' numbers rise, each name has a number of its own, and the puts of the
//! names by rising numbers replay to the same names (`specs/Numbers.antt`, `proofs/InOrder.antt`).
#![tactic(auto)]

mod fault;
mod listing;
mod name;
mod names;
mod record;

pub use fault::NameFault;
pub use listing::{ListedName, Listing};
pub use names::Names;
pub use record::{Change, Named, Record, Root};
