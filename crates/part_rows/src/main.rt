//! Runs rows of calls of the parts that need no disk: cutters, containers, nodes, names, sessions, an index, streams
//! and generated files. Each row has after
//! ` => ` what is to come of it. Standard input names the transcripts, one a line; docs/FORMAT.md is what the rows are written from.
#![tactic(auto)]

mod codecs;
mod containers;
mod cutting;
mod loads;
mod nodes;
mod places;
mod registry;
mod sessions;
mod streams;

use codecs::Codecs;
use std::io;
use std::process::ExitCode;
use transcripts::Suite;

fn main(rt: HostRuntime) -> io::Result<ExitCode> {
    let mut suite = Suite::new(rt.alloc(), Codecs);
    let failed = suite.run_all(&rt, &rt)?;
    Ok(ExitCode::from(if failed == 0 { 0 } else { 1 }))
}
