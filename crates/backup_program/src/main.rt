//! The program `ddfs PATH COMMAND ..`: the top call over a file and the standard streams.
#![tactic(auto)]

use backup_engine::{backup, size_of_format};
use dd_disk::FileDisk;
use dd_io::{Source, StdSink, StdSource};
use ingest_workers::OpenGate;
use std::env;
use std::fs::{self, File, OpenOptions};
use std::io::{self, BufReader, ErrorKind, Write};
use std::process::ExitCode;
use std::sync::Wait;
use std::thread::Threads;
use thiserror::Error;

/// How many bytes are read of standard input at once, where it has as many: a file is given to a session in pieces of 4,096 bytes.
const READ_AHEAD: usize = 65_536;

/// Why the program ends before a command runs. The texts are lines of the notes.
#[derive(Clone, Copy, Debug, Error)]
enum Failure {
    /// The words of the command line have no file, or can't be read.
    #[error("fault words")]
    Words,
    /// The file can't be opened, made or locked: another run may have it.
    #[error("fault file")]
    File,
    #[error("fault 1 memory")]
    Memory,
}

impl Failure {
    fn status(&self) -> u8 {
        match self {
            Failure::Words => 2,
            Failure::File => 9,
            Failure::Memory => 1,
        }
    }
}

fn main(rt: HostRuntime) -> ExitCode {
    let status = match run(&rt, &rt) {
        Ok(status) => status,
        Err(failure) => {
            // A failure of standard error changes no status.
            let _written = eprintln!(rt; "{failure}");
            failure.status()
        }
    };
    ExitCode::from(status)
}

// `threads` is the leave to start them, and to wait, which the runtime has in `main` alone.
fn run<R: Threads + Wait + Sync>(rt: &HostRuntime, threads: &R) -> Result<u8, Failure> {
    let words = read_words(rt)?;
    let (_program, words) = words.split_first().ok_or(Failure::Words)?;
    let (path, command) = words.split_first().ok_or(Failure::Words)?;
    let _held = hold_streams(rt)?;
    let input = BufReader::with_capacity(rt.alloc(), READ_AHEAD, rt.stdin()).map_err(failure_of)?;
    let mut disk = open_disk(rt, path.as_str(), command)?;
    let mut source = StdSource::new(input);
    Ok(run_command(rt, threads, command, &mut disk, &mut source))
}

// The words of the command line, the program's name first. Where they can't be had they are faulty.
fn read_words(rt: &HostRuntime) -> Result<Vec<String>, Failure> {
    let mut words = Vec::new(rt.alloc());
    let args = env::args(rt).map_err(|error| match error.kind() {
        ErrorKind::OutOfMemory => Failure::Memory,
        _ => Failure::Words,
    })?;
    for word in args {
        words.push(word).map_err(|_| Failure::Memory)?;
    }
    Ok(words)
}

// Takes the numbers of the standard streams that the caller closed. The image would get them else, and what is printed
// would be written into it. A directory can be neither read nor written.
fn hold_streams(rt: &HostRuntime) -> Result<[File; 3], Failure> {
    let hold = || File::open(rt, "/").map_err(failure_of);
    Ok([hold()?, hold()?, hold()?])
}

// The disk's file, which no other run has from here to its end. One that is missing is made for a `format` alone, with
// the size that it wants.
fn open_disk(rt: &HostRuntime, path: &str, command: &[String]) -> Result<FileDisk, Failure> {
    let made = size_of_format(rt.alloc(), command).map_err(|_| Failure::Memory)?;
    match OpenOptions::new().read(true).write(true).open(rt, path) {
        Ok(file) => {
            lock(&file)?;
            let size = file.metadata().map_err(failure_of)?.len();
            Ok(FileDisk::new(file, size))
        }
        Err(error) => match (error.kind(), made) {
            (ErrorKind::NotFound, Some(size)) => make_disk(rt, path, size),
            _ => Err(failure_of(error)),
        },
    }
}

// A new file of so many zero bytes. One that can't be locked and sized is removed again: of another size it would never
// become a store.
fn make_disk(rt: &HostRuntime, path: &str, size: u64) -> Result<FileDisk, Failure> {
    let file = OpenOptions::new()
        .read(true)
        .write(true)
        .create_new(true)
        .open(rt, path)
        .map_err(failure_of)?;
    match lock_and_size(&file, size) {
        Ok(()) => Ok(FileDisk::new(file, size)),
        Err(failure) => {
            let _removed = fs::remove_file(rt, path);
            Err(failure)
        }
    }
}

fn lock_and_size(file: &File, size: u64) -> Result<(), Failure> {
    lock(file)?;
    file.set_len(size).map_err(failure_of)
}

// Two runs on one image would overwrite each other's work. The lock goes with the open file, so no run leaves one
// behind, however it ends. It is not waited for: the run that has it may wait for its source.
fn lock(file: &File) -> Result<(), Failure> {
    file.try_lock()
        .map_err(|error| failure_of(io::Error::from(error)))
}

fn failure_of(error: io::Error) -> Failure {
    match error.kind() {
        ErrorKind::OutOfMemory => Failure::Memory,
        _ => Failure::File,
    }
}

fn run_command<S: Source, R: Threads + Wait + Sync>(
    rt: &HostRuntime,
    threads: &R,
    command: &[String],
    disk: &mut FileDisk,
    source: &mut S,
) -> u8 {
    let mut sink = StdSink::new(rt.stdout());
    let mut notes = StdSink::new(rt.stderr());
    let status = backup(
        threads,
        rt.alloc(),
        command,
        disk,
        source,
        &mut sink,
        &mut notes,
        &OpenGate,
    );
    // What the streams hold back is written here: a reply that is lost now is a fault of the sink too.
    if rt.stdout().flush().is_err() && has_replied(command, status) {
        let _written = eprintln!(rt; "fault sink");
        return 6;
    }
    status
}

// A command that was done has replied, and so has a `check` that found damage.
fn has_replied(command: &[String], status: u8) -> bool {
    let is_check = command.first().is_some_and(|word| word.as_str() == "check");
    status == 0 || (is_check && status == 7)
}
