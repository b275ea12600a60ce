//! The refusals of the store, in one table: what a step may be refused by, and what each refusal carries.
#![tactic(auto)]

mod refusal;

pub use refusal::{Difference, PartKind, Phase, Refusal};
