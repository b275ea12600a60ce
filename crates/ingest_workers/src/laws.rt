//! Laws of files that callers give (docs/MODEL.md, 'Workers').
ghost use Rattle.ingest_workers.specs.Ingesting.{GivesAreIngests};
ghost use Rattle.ingest_workers.specs.Leaving.{WorkersLeave};
ghost use Rattle.ingest_workers.specs.Named.{JobsHaveNames, StreamsStay};
ghost use Rattle.ingest_workers.specs.Owing.{JobsAreOwed, OwedRunsAreRight};

use store_core::HasState;

/// What a caller asks for to store a file are, among the steps of others, steps of its actor by which its session is given the file: so a
/// commit of the root that it is ready with is right, under the premises of `session_turns::a_ready_root_is_right`. The function does
/// nothing.
pub fn what_is_given_is_ingested()
    ensures { GivesAreIngests }
{}

/// What a worker asks for is due by what it asked for before: a claim or a seal by the session of a job's file, a commit of the root that
/// it is ready with, under one of its names, and a delete of the first of these. The function does nothing.
pub fn what_jobs_ask_for_is_owed()
    ensures { JobsAreOwed }
{}

/// Of a core that is at a store of files, on a settled disk, over data without collisions that has all segments of the files: where
/// what each actor asks for is due so, steps by any actors are right, whatever collections come between. Data that is claimed or
/// sealed is among the data, and a commit is of all bytes of a file, whose tree is held as it is done. The function does nothing.
pub fn what_is_owed_is_right<C: HasState>()
    ensures { OwedRunsAreRight C C.state }
{}

/// As steps of jobs' files are made by their workers, each name that has a file stays one of the two of a job, with all bytes of its
/// file. Where all jobs of different numbers are done and stored, the second name of each has its file, and the first has none. The
/// function does nothing.
pub fn done_jobs_have_names()
    ensures stay { StreamsStay }
    ensures names { JobsHaveNames }
{}

/// In a run of a core that answers 12 only once it is stopped, a worker whose actor was idle leaves it idle, or its last step found
/// the store stopped. The function does nothing.
pub fn a_worker_leaves_its_actor<C: HasState>()
    ensures { WorkersLeave C C.state }
{}
