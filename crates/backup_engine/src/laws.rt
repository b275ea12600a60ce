//! Laws of calls of `backup`, one after the other (docs/MODEL.md, 'Lists of commands').
ghost use Rattle.std.specs.Prelude.{List, ℕ};
ghost use Rattle.backup_engine.specs.AnswersByMap.{AnswersEachCall};
ghost use Rattle.backup_engine.specs.Line.{Ingest, Restore, Delete, Collect};
ghost use Rattle.backup_engine.specs.Line as table;
ghost use Rattle.backup_engine.specs.Lists.{IsPromised, StandsEmpty, FormatBegins, LeavesPossible, AnswersByTheMap, RunsByTheMap, SurvivesACrash};

use dd_disk::Disk;
use store_machine::{
    a_collect_keeps_the_names, a_delete_takes_its_name, a_list_tells_the_names,
    a_restore_gives_its_file, an_ingest_puts_its_file,
};

/// A single command answers by the map: from each machine at rest for which the content of the disk may stand, its lines, the opening
/// first, come to what the laws of store_machine say of them. It ended as they did, or there was no memory, or a call of the disk failed;
/// what they print was written, or a first part of it; at its end the disk stands for the last machine, and at each moment a crash leaves
/// the map as it was, or what may be found at the last machine. The function does nothing.
pub fn a_command_answers_by_the_map<D: Disk>()
    ensures list { AnswersEachCall D D.view table.List }
    ensures restore { (name : List ℕ) → AnswersEachCall D D.view (Restore name) }
    ensures delete { (name : List ℕ) → AnswersEachCall D D.view (Delete name) }
    ensures ingest { (name : List ℕ) → AnswersEachCall D D.view (Ingest name) }
    ensures collect { (percent : ℕ) → AnswersEachCall D D.view (Collect percent) }
{
    a_list_tells_the_names();
    a_restore_gives_its_file();
    a_delete_takes_its_name();
    an_ingest_puts_its_file();
    a_collect_keeps_the_names();
}

/// What `backup` promises of each call is what a list of calls is made of. A `format` that was done leaves a disk that stands for
/// the empty map.
///
/// Over a disk that tells its content and stands for a map, content and images after a list of calls are those of maps that the list may
/// lead to; each command answers by the one that it finds, each script is a run of the machine from it, and a crash meanwhile leaves a map
/// of the calls before it, or one to which it may have come: so each that was done before is there. The function does nothing.
pub fn commands_follow_the_map<D: Disk>()
    ensures promised { IsPromised D D.view }
    ensures begins { StandsEmpty D D.view }
    ensures formatted { FormatBegins D D.view }
    ensures left { LeavesPossible D D.view }
    ensures answers { AnswersByTheMap D D.view }
    ensures scripts { RunsByTheMap D D.view }
    ensures crash { SurvivesACrash D D.view }
{
    a_command_answers_by_the_map::<D>();
}
