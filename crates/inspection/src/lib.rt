//! What an inspection of a disk finds, and how it is handed on: docs/FORMAT.md, 'Check'.
#![tactic(auto)]

mod damage;
mod halt;
mod report;
mod tally;

pub use damage::{Damage, SpellsDamage};
pub use halt::Halt;
pub use report::{add_cell, add_copy, hand_on};
pub use tally::Tally;
