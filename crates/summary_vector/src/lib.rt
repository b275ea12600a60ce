//! What the store's writer tells a summary of the keys that are stored (docs/MODEL.md, 'The summary'). There is no summary
//! yet but the one that is none.
#![tactic(auto)]

mod summary;

pub use summary::{NoSummary, Summary};
