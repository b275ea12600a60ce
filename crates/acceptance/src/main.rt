//! Runs transcripts: lines that make disks, break them and run commands over them. Each row has what is to come of it after
//! ` => `. Standard input names the files, one a line; docs/FORMAT.md is what the rows are written from. Behind them stands what
//! two workers come to whose jobs wait for one another.
#![tactic(auto)]

mod cells;
mod chain;
mod headers;
mod scripts;
mod sizes;
mod stage;
mod turned;
mod workers;

use crate::workers::two_workers;
use stage::Disks;
use std::io;
use std::process::ExitCode;
use transcripts::Suite;

fn main(rt: HostRuntime) -> io::Result<ExitCode> {
    let mut suite = Suite::new(rt.alloc(), Disks::new(rt.alloc()));
    let failed = suite.run_all(&rt, &rt)?;
    match two_workers(&rt, rt.alloc()) {
        Ok(text) => print!(rt; "{text}")?,
        Err(_) => println!(rt; "two workers: no end")?,
    }
    Ok(ExitCode::from(if failed == 0 { 0 } else { 1 }))
}
