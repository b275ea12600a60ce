//! Running a script.
ghost use Rattle.std.specs.Prelude.{◌≡◌, ◌≤◌, List};
ghost use Rattle.dd_disk.specs.View.{IsLater};
ghost use Rattle.store_machine.specs.Commands.{Replied};
ghost use Rattle.script_lines.specs.declared.script.TheConstants.{MOST_SCRIPT};
ghost use Rattle.backup_engine.specs.ScriptRuns.{RunsNext, ScriptRun};
ghost use Rattle.backup_engine.specs.TopCall.{RunsScript, ending_in};
ghost use Rattle.backup_engine.specs.Seen.{devices, streaming};

use crate::by_files::calls_run_by_files;
use crate::lent::handed_back;
use actor_parts::SegBuf;
use core_machine::an_opening_finds_its_files;
use dd_disk::Disk;
use dd_io::{Sink, Source};
use reply_text::Ending;
use script_lines::{NextLine, ScriptReader, reads_tell_scripts};
use script_runner::{
    Halt, Runner, Sessions, lines_are_runs, lines_go_on, lines_keep_what_is_written,
};
use std::alloc::Global;
use store_core::{Core, HasState};
use summary_vector::NoSummary;

// Runs the next line of a script, which has this number, and replies. It answers false where the script has ended.
fn run_next<C: HasState, S: Source, K: Sink>(
    runner: &mut Runner<C>,
    reader: &mut ScriptReader,
    number: u64,
    source: &mut S,
    sink: &mut K,
) -> Result<bool, Ending>
    ensures { RunsNext C C.state number result reader.old reader.new (streaming runner.old (S.view source.old) (K.view sink.old))
        (streaming runner.new (S.view source.new) (K.view sink.new)) }
{
    match reader.next(source) {
        Ok(NextLine::Line) => {}
        Ok(NextLine::End) => return Ok(false),
        Ok(NextLine::Wrong) => return Err(Ending::Line { number }),
        Ok(NextLine::TooMany) => return Err(Ending::Script),
        Err(_) => return Err(Ending::Source),
    }
    match runner.run(reader.line(), sink) {
        Ok(()) => Ok(true),
        Err(Halt::NoLine) => Err(Ending::Line { number }),
        Err(Halt::Ended(ending)) => Err(ending),
    }
}

// Runs the lines that a source has left, one after the other.
fn run_lines<C: HasState, S: Source, K: Sink>(
    runner: &mut Runner<C>,
    source: &mut S,
    sink: &mut K,
) -> Result<(), Ending>
    ensures { ScriptRun C C.state result (streaming runner.old (S.view source.old) (K.view sink.old))
        (streaming runner.new (S.view source.new) (K.view sink.new)) }
{
    reads_tell_scripts();
    let mut reader = ScriptReader::new();
    let mut number: u64 = 1;
    while run_next(runner, &mut reader, number, source, sink)? {
        number += 1;
    }
    Ok(())
}

/// Runs the script that the source has left, and writes the reply to each line as it ends.
pub(crate) fn run<D: Disk, S: Source, K: Sink>(
    alloc: Global,
    disk: &mut D,
    source: &mut S,
    sink: &mut K,
) -> Result<(), Ending>
    ensures runs { (rs : List Replied) × RunsScript D D.view rs (ending_in result)
        (devices (D.view disk.old) (D.view disk.new) (S.view source.old) (S.view source.new) (K.view sink.old) (K.view sink.new)) }
    ensures later { IsLater (D.view disk.old) (D.view disk.new) }
{
    reads_tell_scripts();
    calls_run_by_files::<&mut D, Core<&mut D, NoSummary>>();
    an_opening_finds_its_files::<D, Core<&mut D, NoSummary>>();
    lines_go_on::<Core<&mut D, NoSummary>>();
    lines_are_runs::<&mut D, Core<&mut D, NoSummary>>();
    lines_keep_what_is_written::<&mut D, Core<&mut D, NoSummary>>();
    let sessions = Sessions::new(alloc)?;
    let buf = SegBuf::new(alloc)?;
    let core = match Core::open(alloc, disk, NoSummary) {
        Ok(core) => core,
        Err(refused) => {
            let refusal = refused.1;
            let _disk = handed_back(refused);
            return Err(Ending::Refused(refusal));
        }
    };
    let mut runner = Runner::new(alloc, core, sessions, buf);
    let ran = run_lines(&mut runner, source, sink);
    let _disk = runner.into_core().close();
    ran
}
