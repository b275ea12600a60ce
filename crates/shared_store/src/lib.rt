//! A store that threads share: each has a pass, and makes steps of the one core in turns (docs/MODEL.md, 'Shared stores').
//!
//! A step waits for its turn, and nothing else does: what a caller makes of bytes before it asks for a step, as cutting and hashing
//! them, waits for nobody. Nothing is promised of waiting itself; a call promises what it promises if it returns.
#![tactic(auto)]

mod caller;
mod held;
mod laws;
mod pass;
mod store;

pub use crate::caller::Caller;
pub use crate::held::Held;
pub use crate::laws::{
    a_history_is_legal, a_history_is_what_was_asked, a_history_keeps_files, the_names_are_the_book,
};
pub use crate::pass::Pass;
pub use crate::store::{SharedStore, StillShared};
