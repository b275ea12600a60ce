//! The steps of an actor that is given a file: the root of its name, and then its segments in order; and a store's counts and names.
#![tactic(auto)]

mod ahead;
mod counting;
mod distinct;
mod laws;
mod noting;
mod opening;
mod passed;
mod readers;
mod sizes;
mod trees;
mod visiting;
mod walking;

pub use ahead::ReadAhead;
pub use counting::{list, stat};
pub use distinct::unique;
pub use laws::readers_go_on;
pub use noting::NotesKeys;
pub use opening::begin_walk;
pub use readers::{end_read, open_read, read_next};
pub use trees::walk_trees;
pub use visiting::visit;
pub use walking::next_segment;
