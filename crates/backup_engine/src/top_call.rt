//! The top call.
ghost use Rattle.std.specs.Prelude.{◌≡◌, Some, map, string_bytes, IfOk, List, ℕ};
ghost use Rattle.dd_disk.specs.View.{IsLater};
ghost use Rattle.dd_io.specs.Flow.{SourceView};
ghost use Rattle.store_machine.specs.Commands.{Replied};
ghost use Rattle.reply_text.specs.Table.{status_of as table_status};
ghost use Rattle.backup_engine.specs.Checking.{ChecksDisk};
ghost use Rattle.backup_engine.specs.Line.{Single, alone_line, line_of};
ghost use Rattle.backup_engine.specs.LineValue.{command_value, line_value, IsRightCommand, IsRightLine, size_made};
ghost use Rattle.backup_engine.specs.Noted.{AreNoted, IsNoted, status_by};
ghost use Rattle.backup_engine.specs.TopCall.{Promise, Does, ending_in};
ghost use Rattle.backup_engine.specs.Seen.{devices};

use crate::checking::check;
use crate::collecting::collect;
use crate::deleting::delete;
use crate::format::format;
use crate::ingest::ingest;
use crate::listing::list;
use crate::restore::restore;
use crate::script::run;
use crate::words::{Command, Line, read_words};
use crate::working::work;
use dd_disk::Disk;
use dd_io::{Sink, Source};
use disk_format::size_of;
use ingest_workers::Gate;
use refusals::Refusal;
use reply_text::{Ending, status_of, write_fault};
use script_lines::reads_tell_scripts;
use std::alloc::{AllocError, Global};
use std::sync::Wait;
use std::thread::Threads;

/// Runs one command, by its words, over a disk, and gives the exit status (docs/FORMAT.md, 'Commands').
///
/// `ingest` reads `source`, to its end where it is done; the reply, or the bytes of the file that is restored, goes to `sink`. `run` reads
/// a script from `source`, and replies to each line as it ends (docs/FORMAT.md, 'Scripts'). Words that are no line of the table are 2, and
/// so is a script that is none; a fault of the source is 5, of the sink 6; a refusal has its own status, and so has want of memory, also
/// for the words. `work` runs workers in threads of their own, each of whose jobs stands between the two calls of `gate`, and promises what
/// it promises if it returns. `check` writes a line for each damage as it is found, and is 7 where there is one. `notes` get a line where
/// the status isn't 0, but for that; a failure of theirs changes no status.
pub fn backup<
    D: Disk + Send,
    S: Source,
    K: Sink,
    Q: Sink,
    G: Gate + Sync,
    R: Threads + Wait + Sync,
>(
    rt: &R,
    alloc: Global,
    words: &[String],
    disk: &mut D,
    source: &mut S,
    sink: &mut K,
    notes: &mut Q,
    gate: &G,
) -> u8
    ensures promise { Promise D D.view (line_of (map string_bytes words.now)) result (record {
      disk = D.view disk.old;
      disk_now = D.view disk.new;
      source = S.view source.old;
      source_now = S.view source.new;
      sink = K.view sink.old;
      sink_now = K.view sink.new;
      notes = Q.view notes.old;
      notes_now = Q.view notes.new;
    }) }
    ensures later { IsLater (D.view disk.old) (D.view disk.new) }
{
    reads_tell_scripts();
    let line = match read_words(alloc, words) {
        Ok(Some(line)) => line,
        Ok(None) => return give_up(notes, &Ending::Words),
        Err(_) => return give_up(notes, &Ending::Refused(Refusal::Memory)),
    };
    match line {
        Line::Work(load) => conclude(notes, work(rt, alloc, disk, sink, &load, gate)),
        line => run_alone(rt, alloc, &line, disk, source, sink, notes),
    }
}

/// `backup` for the commands that wait for nothing but threads that take digests, so that it always returns: the words of `work` are no
/// line of the table here. These threads, of `ingest`, `restore` and `check`, have ended before it returns.
pub fn backup_alone<R: Threads + Sync, D: Disk + Send, S: Source, K: Sink, Q: Sink>(
    rt: &R,
    alloc: Global,
    words: &[String],
    disk: &mut D,
    source: &mut S,
    sink: &mut K,
    notes: &mut Q,
) -> u8
    ensures promise { Promise D D.view (alone_line (line_of (map string_bytes words.now))) result (record {
      disk = D.view disk.old;
      disk_now = D.view disk.new;
      source = S.view source.old;
      source_now = S.view source.new;
      sink = K.view sink.old;
      sink_now = K.view sink.new;
      notes = Q.view notes.old;
      notes_now = Q.view notes.new;
    }) }
    ensures later { IsLater (D.view disk.old) (D.view disk.new) }
{
    reads_tell_scripts();
    let found = match read_words(alloc, words) {
        Ok(Some(line)) => line,
        Ok(None) => return give_up(notes, &Ending::Words),
        Err(_error) => return give_up(notes, &Ending::Refused(Refusal::Memory)),
    };
    run_alone(rt, alloc, &found, disk, source, sink, notes)
}

/// The size in bytes of the disk that `format N` makes a store on, where the words are such a line of the table.
pub fn size_of_format(alloc: Global, words: &[String]) -> Result<Option<u64>, AllocError>
    ensures { IfOk result (λ size. size ≡ size_made (line_of (map string_bytes words.now))) }
{
    match read_words(alloc, words) {
        Ok(Some(Line::Single(Command::Format(slots)))) => Ok(Some(size_of(slots))),
        Ok(_) => Ok(None),
        Err(error) => Err(error),
    }
}

// Does what a line says that starts no workers, and gives the exit status. The words of another are no line of the table here.
fn run_alone<D: Disk + Send, S: Source, K: Sink, Q: Sink, R: Threads + Sync>(
    rt: &R,
    alloc: Global,
    line: &Line<'_>,
    disk: &mut D,
    source: &mut S,
    sink: &mut K,
    notes: &mut Q,
) -> u8
    requires { IsRightLine line.now }
    ensures promise { Promise D D.view (alone_line (Some (line_value line.now))) result (record {
      disk = D.view disk.old;
      disk_now = D.view disk.new;
      source = S.view source.old;
      source_now = S.view source.new;
      sink = K.view sink.old;
      sink_now = K.view sink.new;
      notes = Q.view notes.old;
      notes_now = Q.view notes.new;
    }) }
    ensures later { IsLater (D.view disk.old) (D.view disk.new) }
{
    match line {
        Line::Single(command) => conclude(
            notes,
            run_command(rt, alloc, command, disk, source, sink),
        ),
        Line::Run => conclude(notes, run(alloc, disk, source, sink)),
        Line::Check => check_disk(rt, alloc, disk, sink, notes),
        Line::Work(_) => give_up(notes, &Ending::Words),
    }
}

// Does what a command says.
fn run_command<D: Disk, S: Source, K: Sink, R: Threads + Sync>(
    rt: &R,
    alloc: Global,
    command: &Command<'_>,
    disk: &mut D,
    source: &mut S,
    sink: &mut K,
) -> Result<(), Ending>
    requires { IsRightCommand command.now }
    ensures does { (given : List ℕ)
        × ((rs : List Replied) × Does D D.view (Some (Single (command_value command.now))) given rs (ending_in result)
        (devices (D.view disk.old) (D.view disk.new) (S.view source.old) (S.view source.new) (K.view sink.old) (K.view sink.new))) }
    ensures later { IsLater (D.view disk.old) (D.view disk.new) }
{
    match command {
        Command::Format(slots) => format(alloc, disk, sink, *slots),
        Command::Ingest(name) => ingest(rt, alloc, disk, source, sink, name),
        Command::Restore(name) => restore(rt, alloc, disk, sink, name),
        Command::Delete(name) => delete(alloc, disk, sink, name),
        Command::List => list(alloc, disk, sink),
        Command::Collect(percent) => collect(alloc, disk, sink, *percent),
    }
}

// Inspects the disk.
fn check_disk<D: Disk, K: Sink, Q: Sink, R: Threads + Sync>(
    rt: &R,
    alloc: Global,
    disk: &mut D,
    sink: &mut K,
    notes: &mut Q,
) -> u8
    ensures checks { (source : SourceView) → ChecksDisk result (record {
      disk = D.view disk.old;
      disk_now = D.view disk.new;
      source = source;
      source_now = source;
      sink = K.view sink.old;
      sink_now = K.view sink.new;
      notes = Q.view notes.old;
      notes_now = Q.view notes.new;
    }) }
    ensures later { IsLater (D.view disk.old) (D.view disk.new) }
{
    match check(rt, alloc, disk, sink) {
        Ok(status) => status,
        Err(ending) => give_up(notes, &ending),
    }
}

// The status of a command; where it was not done, that is noted.
fn conclude<Q: Sink>(notes: &mut Q, ended: Result<(), Ending>) -> u8
    ensures status { result ≡ status_by (ending_in ended) }
    ensures noted { AreNoted (Q.view notes.old) (Q.view notes.new) (ending_in ended) }
{
    match ended {
        Ok(()) => 0,
        Err(ending) => give_up(notes, &ending),
    }
}

// Notes why a command was not done, and gives its status.
fn give_up<Q: Sink>(notes: &mut Q, ending: &Ending) -> u8
    ensures status { result ≡ table_status ending.now }
    ensures noted { IsNoted (Q.view notes.old) (Q.view notes.new) ending.now }
{
    let _noted = write_fault(notes, ending);
    status_of(ending)
}
