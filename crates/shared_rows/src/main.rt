//! Runs rows of steps by passes of a shared store. Standard input names the transcripts, one a line; each row has after `=>` what is
//! to come of it, written from docs/FORMAT.md and docs/MODEL.md, 'Shared stores'.
//!
//! A transcript has a line for each of these; one that begins with a space goes on with the line before it.
//!
//!     # WORDS                       nothing; `## TITLE` is printed
//!     disk N P                      a fresh disk of N slots, formatted and opened; P is the store's first pass
//!     disk N P fail K               likewise, and the K-th call of the disk after the opening fails
//!     STEP ; STEP .. => ANSWER ; ANSWER ..         a row
//!     many FROM TO ROW              a row for each number, which stands where `#` is
//!
//! P and Q are passes. BYTES are one piece: text in quotes, or hex digits. A file is one segment, which its bytes stand for.
//!
//!     begin P        claim P BYTES        seal P BYTES        commit P NAME BYTES        abort P
//!     read P NAME    next P               drop P              delete P NAME              list P
//!     gc P PERCENT   step P               stat P
//!     split P Q (Q is new)                join P Q (P takes Q in)               seen P
//!     close P                             open P (on the disk that was closed)
//!
//! Behind the rows stands what two threads with a pass each come to, whatever comes first, two workers whose first jobs wait for one
//! another, and two whose callers do so at their first commits.
#![tactic(auto)]

mod answers;
mod both;
mod commits;
mod shared;
mod stage;
mod steps;
mod threads;
mod workers;

use crate::commits::two_callers;
use crate::threads::two_threads;
use crate::workers::two_workers;
use stage::Stores;
use std::io;
use std::process::ExitCode;
use transcripts::Suite;

fn main(rt: HostRuntime) -> io::Result<ExitCode> {
    let mut suite = Suite::new(rt.alloc(), Stores::new(&rt, rt.alloc()));
    let failed = suite.run_all(&rt, &rt)?;
    drop(suite);
    match two_threads(&rt, rt.alloc()) {
        Ok(text) => println!(rt; "{text}")?,
        Err(_) => println!(rt; "two threads: no end")?,
    }
    match two_workers(&rt, rt.alloc()) {
        Ok(text) => print!(rt; "{text}")?,
        Err(_) => println!(rt; "two workers: no end")?,
    }
    match two_callers(&rt, rt.alloc()) {
        Ok(text) => print!(rt; "{text}")?,
        Err(_) => println!(rt; "two callers: no end")?,
    }
    Ok(ExitCode::from(if failed == 0 { 0 } else { 1 }))
}
