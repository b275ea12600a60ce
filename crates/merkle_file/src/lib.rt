//! Merkle trees of segments: nodes of at most `disk_format::MOST_CHILDREN` children, as bytes and back, the tree over a list of
//! segments, built as they come, and a walk down a tree that is fed its nodes. `docs/FORMAT.md`, "Nodes",
//! has the format.
#![tactic(auto)]

mod builder;
mod cursor;
mod fault;
mod in_place;
mod laws;
mod node;
mod reading;
mod rows;
mod stack;
mod top;
mod want;
mod writing;

pub use builder::TreeBuilder;
pub use cursor::Cursor;
pub use fault::{FieldFault, NodeFault};
pub use in_place::{child_at, count_in, length_in, nodes_are_read_again};
pub use laws::{groups_of_a_level, nodes_in_order, spellings_of_nodes, tree_of_segments};
pub use node::{Child, Hash, Node};
pub use top::Top;
pub use want::Want;
