//! Which containers a collection rewrites, and in which order (docs/MODEL.md, 'Selection').
#![tactic(auto)]

mod liveness;
mod selection;

pub use liveness::{ContainerLiveness, Liveness};
pub use selection::select;
