//! Laws of passes that workers have, of the files that they leave, and of what is done of what they ask for (docs/MODEL.md, 'Workers').
ghost use Rattle.shared_work.specs.Clashing.{NoneClashes};
ghost use Rattle.shared_work.specs.Complete.{CollectionsAreBeside, WhatWorkersAskIsDone};
ghost use Rattle.shared_work.specs.Completing.{WorksAreComplete};
ghost use Rattle.shared_work.specs.Freed.{FirstIsFresh, SplitIsFresh, SplitStaysFresh, StoresStay, WorkersComeFree};
ghost use Rattle.shared_work.specs.Left.{WorksAreRuns, WorksLeaveFiles};
ghost use Rattle.shared_work.specs.Pinning.{NoneLacksPin};
ghost use Rattle.shared_work.specs.Streams.{WorkLeavesStreams};

use core_machine::{a_core_is_the_machine, a_core_is_the_machine_of_files};
use ingest_workers::{
    a_worker_leaves_its_actor, done_jobs_have_names, what_is_owed_is_right,
    what_jobs_ask_for_is_owed,
};
use session_turns::an_actor_is_at_what_it_did;
use shared_store::{a_history_is_what_was_asked, the_names_are_the_book};
use store_core::{HasState, a_core_runs_on};

/// The first pass of a store, and each that is split off, has made no step and is at nothing then; splitting leaves the first so. Where the
/// store was made over a core that runs, is the machine of some roots and whose actors are idle: a worker that does its jobs by such a pass
/// leaves it so that another pass of the store takes it in, since its actor is idle, or its last step found the store stopped; whatever the
/// disk holds, whatever others did between, and also where jobs were refused. The function does nothing.
pub fn a_workers_pass_comes_free<C: HasState>()
    ensures first { FirstIsFresh C.state }
    ensures split { SplitIsFresh C.state }
    ensures stays { SplitStaysFresh C.state }
    ensures store { StoresStay C.state }
    ensures free { WorkersComeFree C.state }
{
    a_core_runs_on::<C>();
    a_core_is_the_machine::<C>();
    a_worker_leaves_its_actor::<C>();
    a_history_is_what_was_asked::<C>();
}

/// Over data without collisions, where the disk tells its content: of a core that runs, at files of which each is one of the actors', under
/// one of its two names. Where what each actor asks for is due so, steps by any actors, whatever collections come between, are a run of the
/// machine of files, at whose end the names are those that the commits and deletes make. Each name that has a file then is one of the two
/// of some actor's file, and has all of its bytes, also where a write failed; and at any moment, also inside a write, a crash leaves an
/// image that can be opened as such files, or one that it might have left before. The function does nothing.
pub fn work_leaves_streams<C: HasState>()
    ensures { WorkLeavesStreams C C.state }
{
    what_is_owed_is_right::<C>();
    a_core_is_the_machine_of_files::<C>();
    the_names_are_the_book();
    done_jobs_have_names();
}

/// What workers ask for, beside counts, lists and collections of the actor 0, is done, of a core that runs and is at no files, over data
/// without collisions that has all segments of the jobs' files; or it is refused for want of memory, of a slot or of a number, by a call of
/// the disk that failed, or since a node clashes or lacks a pin; and so is each job. No name is missing, bad or one too many, none is at
/// another thing than its step takes, a collection is refused to none, and nothing that is read is damaged. Collections one after the other
/// may be asked for so. The function does nothing.
pub fn what_workers_ask_is_done<C: HasState>()
    ensures done { WhatWorkersAskIsDone C C.state }
    ensures beside { CollectionsAreBeside }
{
    a_core_runs_on::<C>();
    a_core_is_the_machine_of_files::<C>();
    an_actor_is_at_what_it_did::<C>();
    what_jobs_ask_for_is_owed();
    what_is_owed_is_right::<C>();
    done_jobs_have_names();
}

/// Over data without collisions, of a core that runs and is at files, on a disk that tells its content: where what each actor asks for is
/// due so, and no two different nodes, of the trees of the files or held on the way, have one digest, no step is answered that a segment
/// clashes with one that is held. The function does nothing.
pub fn nothing_clashes<C: HasState>()
    ensures { NoneClashes C C.state }
{
    a_core_runs_on::<C>();
    a_core_is_the_machine_of_files::<C>();
    what_is_owed_is_right::<C>();
}

/// Of a whole load, over data without collisions that has all segments of the jobs' files, where no two jobs have one number, each number
/// is below 2^64, and there is a worker: of a core that runs, and is a machine of files that runs, so that the disk tells its content. All
/// steps are a run of the machine of files, and the core is the machine at its end. If no name had a file before, each that may have one
/// then is one of the two names of a job, and has all bytes of the job's file, also where jobs were refused or a write failed; and where a
/// summary is told, the core runs, each job's second name has its file, no other name has one, and the summary has just these names, with
/// the roots of their files, and how many segments and nodes their trees have, each counted once, of how many bytes. At any moment, also
/// inside a write, a crash leaves an image that can be opened as such files, if there were none before, or as those that were there, or one
/// that it might have left before. The function does nothing.
pub fn a_work_leaves_its_files<C: HasState>()
    ensures { WorksLeaveFiles C.state }
{
    work_leaves_streams::<C>();
    a_core_is_the_machine_of_files::<C>();
    what_jobs_ask_for_is_owed();
    done_jobs_have_names();
}

/// What a whole load makes, on any disk: its steps are a run of the machine of roots, and what names are told stand at its end; the disk is
/// the same, later, and its count of faults rises by the steps that blame a call of it, and by no others. Where the last that is told is
/// that the store is stopped, a step was answered the refusal that stopped it. It begins with a core that runs and is the machine of some
/// roots, and there is a worker. The function does nothing.
pub fn a_work_is_a_run<C: HasState>()
    ensures { WorksAreRuns C.state }
{
    a_core_runs_on::<C>();
    a_core_is_the_machine::<C>();
}

/// Over data without collisions, of a core that runs and is at files: where what each actor asks for is due so, and no two different nodes
/// of the trees of the files have one digest, no step is answered that it lacks a pin. The function does nothing.
pub fn nothing_lacks_a_pin<C: HasState>()
    ensures { NoneLacksPin C C.state }
{
    a_core_runs_on::<C>();
    a_core_is_the_machine_of_files::<C>();
    an_actor_is_at_what_it_did::<C>();
    what_is_owed_is_right::<C>();
}

/// A whole load of small jobs, of a core that runs and is at no files, over data without collisions that has all segments of the jobs'
/// files, ends with a summary; or for want of memory; of a slot or of a number, as an image shows that a crash might have left meanwhile;
/// by a call of the disk that failed; or since a node clashes or lacks a pin, but for these two only where two different nodes have one
/// digest, of the trees of these files or held on the way. So it is of each step. The function does nothing.
pub fn a_work_is_complete<C: HasState>()
    ensures { WorksAreComplete C C.state }
{
    a_core_runs_on::<C>();
    a_core_is_the_machine_of_files::<C>();
    what_is_owed_is_right::<C>();
    what_workers_ask_is_done::<C>();
    nothing_clashes::<C>();
    nothing_lacks_a_pin::<C>();
    what_jobs_ask_for_is_owed();
}
