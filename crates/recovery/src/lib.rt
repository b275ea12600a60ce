//! Making an empty store, and opening a store: what is on its disk, in the order in which it is looked at, and what is given
//! back of it where too few slots are closed.
//!
//! The rules are docs/MODEL.md, 'Opening' and 'The reserve'.
#![tactic(auto)]

mod formatting;
mod freeing;
mod inspecting;
mod marks;
mod opening;
mod room;
mod slots;
mod unopened;

pub use formatting::format;
pub use inspecting::{Uninspected, inspect};
pub use opening::open;
pub use unopened::Unopened;
