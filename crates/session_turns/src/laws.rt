//! Laws of turns beside the steps of others (docs/MODEL.md, 'Turns').
ghost use Rattle.session_turns.specs.Kinds.{GivingUpIsDone, KindsFollow, OthersStay};
ghost use Rattle.session_turns.specs.Owning.{HoldsBegun, HoldsBeside, HoldsIngested, HoldsTurned, IngestedCommitIsRight, IngestedRootIsRight, IngestsBeside, ReadyRootIsRight, StoppedTurnsAreSteps, TurnsAreSteps};

use store_core::HasState;

/// Over data without collisions, and of a core at a store of files that isn't stopped: what an actor holds of the file that it stores it
/// holds after each step of another, be that one of a collection. One that begins a file holds nothing of it yet, and one that made a turn
/// of its session holds what the session keeps then. The function does nothing.
pub fn an_actor_holds_what_is_kept<C: HasState>()
    ensures beside { HoldsBeside C C.state }
    ensures begun { HoldsBegun C C.state }
    ensures turned { HoldsTurned C C.state }
    ensures ingested { HoldsIngested C C.state }
{}

/// Where an actor holds what its session keeps, and that is ready, its root is right. So it is at the end of steps by any actors, whatever
/// others did among them, collections too, where the actor's own since it began its file are the turns of this session: a commit of the
/// root is given right then. The function does nothing.
pub fn a_ready_root_is_right<C: HasState>()
    ensures ready { ReadyRootIsRight C C.state }
    ensures ingested { IngestedRootIsRight C C.state }
    ensures committed { IngestedCommitIsRight C C.state }
{}

/// Turns that a core made of a session are such steps, given right where what is cut of the file by now is among the data; also where the
/// last of them was refused. Steps of others may come between. The function does nothing.
pub fn turns_are_given_right<C: HasState>()
    ensures turns { TurnsAreSteps C C.state }
    ensures stopped { StoppedTurnsAreSteps C C.state }
    ensures beside { IngestsBeside }
{}

/// What an actor is at changes by its own steps alone, and by each as `kind_after` says; and what it stores or reads it can give up, unless
/// the store is stopped. The function does nothing.
pub fn an_actor_is_at_what_it_did<C: HasState>()
    ensures others { OthersStay C C.state }
    ensures own { KindsFollow C C.state }
    ensures given_up { GivingUpIsDone C C.state }
{}
