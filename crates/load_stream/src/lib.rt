//! Large inputs from a few numbers: the bytes of generated files, of which half is common to all files of one seed.
#![tactic(auto)]

mod stream;

pub use stream::LoadStream;
