//! Lines over a core that was opened, as lines of the machine of files.
ghost use Rattle.backup_engine.specs.CallsByFiles.{CallsRunByFiles};

use core_machine::a_core_is_the_machine_of_files;
use dd_disk::Disk;
use script_runner::{an_opened_core_is_at_a_desk, lines_are_file_runs, lines_go_on};
use store_core::HasState;

/// Lines over a core that was opened, and closed then, are lines of the machine of files over all of the call, its opening first. The
/// function does nothing.
pub(crate) fn calls_run_by_files<D: Disk, C: HasState>()
    ensures { CallsRunByFiles D D.view C C.state }
{
    an_opened_core_is_at_a_desk::<D, C>();
    lines_are_file_runs::<C>();
    lines_go_on::<C>();
    a_core_is_the_machine_of_files::<C>();
}
