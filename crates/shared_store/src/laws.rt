//! Laws of histories (docs/MODEL.md, 'Shared stores').
ghost use Rattle.store_machine.specs.Values.{of_files, of_roots};
ghost use Rattle.shared_store.specs.Book.{BooksReplay};
ghost use Rattle.shared_store.specs.Histories.{AreFileCalls, AreFileRuns, AreRootCalls, AreRootRuns, AreSteps, AreToldRight, EndsStand};
ghost use Rattle.shared_store.specs.Made.{MakesStep, actor_in};
ghost use Rattle.shared_store.specs.Telling.{AreTold, AsksAreTold, TellsNone, TellsOn};

use core_machine::{a_core_is_the_machine, a_core_is_the_machine_of_files};
use dd_disk::Disk;
use store_core::{HasState, a_core_runs_on};

/// What a caller has asked for are the turns of its pass, each once, in their order; it stays so as the history goes on, and of a
/// number that has made no turn it is nothing. Where the turns of each number are told, the history is just these steps; and these are
/// a run of the core, one for each turn, by its actor. The function does nothing.
pub fn a_history_is_what_was_asked<C: HasState>()
    ensures asked { AsksAreTold C.state }
    ensures stays { TellsOn actor_in (MakesStep C.state) }
    ensures none { TellsNone actor_in (MakesStep C.state) }
    ensures told { AreTold actor_in (MakesStep C.state) }
    ensures steps { AreSteps C.state }
{}

/// On any disk a history is a run of the machine of roots, and a call is a step of it, made of what all turns before it have left. The
/// function does nothing.
pub fn a_history_is_legal<C: HasState>()
    ensures runs { AreRootRuns C.state }
    ensures calls { AreRootCalls C.state }
{
    a_core_runs_on::<C>();
    a_core_is_the_machine::<C>();
}

/// Over data without collisions, where the disk tells its content and each step is given what is right: a history is a run of the
/// machine of files, and a call is a step of it; at any moment, also inside a write, a crash leaves files that the run comes by; and a
/// disk that comes back at the end stands for the files of all turns. Where the right steps of each number are told the history is just
/// these. The function does nothing.
pub fn a_history_keeps_files<D: Disk, C: HasState>()
    ensures runs { AreFileRuns C.state }
    ensures calls { AreFileCalls C.state }
    ensures ends { EndsStand C.state D D.view }
    ensures told { AreToldRight C.state }
{
    a_core_runs_on::<C>();
    a_core_is_the_machine_of_files::<C>();
}

/// What names have at the end of a run of the machine, of files and of roots, is what its book makes of those at its beginning; the numbers
/// of its lines count on by one, and so many are counted as acknowledged. The function does nothing.
pub fn the_names_are_the_book()
    ensures files { BooksReplay of_files }
    ensures roots { BooksReplay of_roots }
{}
