//! What the store promises, in plain terms: files, commands, and what a disk image stands for.
//! Definitions and their laws; nothing here runs. `docs/MODEL.md` states them in words.
#![tactic(auto)]

mod laws;

pub use laws::{an_image_holds_one_store, sealed_together_keeps_files};
