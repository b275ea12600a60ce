//! Streams of bytes that are read and written, with a count of their faults (docs/MODEL.md, 'Sources and sinks').
#![tactic(auto)]

mod mem;
mod script;
mod sink;
mod source;
mod std_streams;

pub use mem::{MemSink, MemSource};
pub use sink::{Sink, SinkFault};
pub use source::{Source, SourceFault};
pub use std_streams::{StdSink, StdSource};
