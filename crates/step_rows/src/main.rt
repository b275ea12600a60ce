//! Runs rows of steps of a store's core. Standard input names the transcripts, one a line; each row has after `=>` what is to
//! come of it, written from docs/FORMAT.md and docs/MODEL.md.
//!
//! A transcript has a line for each of these; one that begins with a space goes on with the line before it.
//!
//!     # WORDS                       nothing; `## TITLE` is printed
//!     leaf NAME BYTES               a segment of data, called NAME from here on
//!     node NAME LEVEL NAME..        a node of this level over what these names have
//!     root NAME LENGTH LEVEL HEX    a root, or a child of nodes, of no segment that is there
//!     disk N                        a fresh disk of N slots, formatted and opened
//!     put PLACE BYTES               changes bytes of the closed disk
//!     mark                          from here on the calls of the disk are counted anew
//!     fail K                        the K-th call of the disk from here on fails. The steps since the opening are made once
//!                                   more for it, over what the disk held then
//!     STEP ; STEP .. => ANSWER ; ANSWER ..         a row
//!     crash K STEP ; .. => FILL ..: ANSWER ; .. | FILL ..: ..
//!                                   seven rows: the steps over each image that a stop inside the K-th call since the mark
//!                                   leaves of the closed disk, opened; `each` stands for all seven fills
//!     many FROM TO ROW              a row for each number, which stands where `#` is
//!
//! BYTES are pieces, each hex digits, or text in quotes, or `@NAME` for the bytes of a segment, with `*COUNT` after it so many
//! times. A is an actor, FILE the one piece that a file's name is.
//!
//!     begin A        claim A NAME        seal A NAME..        commit A FILE NAME        abort A
//!     read A FILE    next A              drop A               stat                      kind A
//!     delete FILE    list
//!     reopen         close               lie PLACE BYTE (opens over a disk that reads so)
//!     calls (how many there were since the mark)
#![tactic(auto)]

mod answers;
mod filled;
mod named;
mod pieces;
mod running;
mod stage;
mod steps;
mod words;

use stage::Stores;
use std::io;
use std::process::ExitCode;
use std::sync::Wait;
use std::thread::Threads;
use transcripts::Suite;

// How many rows failed. The suite is let go at one place: its proof costs most there.
fn failures<R: Threads + Wait + Sync>(rt: &HostRuntime, threads: &R) -> io::Result<u64> {
    let mut suite = Suite::new(rt.alloc(), Stores::new(rt.alloc()));
    let failed = suite.run_all(rt, threads);
    drop(suite);
    failed
}

fn main(rt: HostRuntime) -> io::Result<ExitCode> {
    let failed = failures(&rt, &rt)?;
    Ok(ExitCode::from(if failed == 0 { 0 } else { 1 }))
}
