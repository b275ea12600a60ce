//! Laws of steps of a core, one after the other (docs/MODEL.md, 'The core').
ghost use Rattle.store_core.specs.Bounds.{BoundsSteps};
ghost use Rattle.store_core.specs.Core.{AnswersFit};
ghost use Rattle.store_core.specs.Finding.{FindsKeys, FindsKeysMeanwhile, OnlyReadsBeforeSweep};
ghost use Rattle.store_core.specs.Frame.{AddsAlone, ReserveStays, WrittenStays};
ghost use Rattle.store_core.specs.Keeping.{KeepsSegments, StaysHeld};
ghost use Rattle.store_core.specs.Runs.{RunsOn};

use crate::state::HasState;

/// A core that runs runs on, or is stopped, whatever steps are made. The function does nothing.
pub fn a_core_runs_on<C: HasState>()
    ensures { RunsOn C C.state }
{}

/// Whatever the disk of a core holds and whatever others do: of a collection that began and has not ended so many steps at most were made.
/// The function does nothing.
pub fn a_core_bounds_collections<C: HasState>()
    ensures { BoundsSteps C C.state }
{}

/// Whatever the disk of a core holds, of one whose tables and index are those of a store: a collection that has marked, with no steps of
/// others between, found each key of the trees of all names, readers and pins in the index as it began; and whatever steps others make
/// between, once it has marked, and until it begins to sweep, the index has each key of the trees of all that there are at that moment,
/// too. No header but the store's was shown in a slot with its digest. A step of one that has not begun to sweep only reads, and so frees
/// and copies nothing. The function does nothing.
pub fn a_core_finds_all_keys<C: HasState>()
    ensures alone { FindsKeys C C.state }
    ensures meanwhile { FindsKeysMeanwhile C C.state }
    ensures reads { OnlyReadsBeforeSweep C C.state }
{}

/// Over data without collisions, and of a core that began settled at a store and isn't stopped at the end, where no step is one of a
/// collection: the segments that the steps of a run kept, claimed and held or sealed, are held then, bytes and all, in each image; and so
/// is what each image held before them. Also of nodes no other one of the same SHA-256 has come in their place. The function does nothing.
pub fn a_core_keeps_segments<C: HasState>()
    ensures kept { KeepsSegments C C.state }
    ensures held { StaysHeld C C.state }
{}

/// Whatever the disk of a core holds, a run without steps of a collection adds records and containers to it: no other byte before the end
/// of the slots changes, but those of the journal where a checkpoint is made. At any moment of a run, also where a write fails, what was
/// written before it stays: the containers, and the journal where its half has a cell for each command. Where two slots were closed, two
/// are at its end. The function does nothing.
pub fn a_core_keeps_what_is_written<C: HasState>()
    ensures added { AddsAlone C C.state }
    ensures moments { WrittenStays C C.state }
    ensures reserve { ReserveStays C C.state }
{}

/// What a core answers is of the step that was asked for. The function does nothing.
pub fn an_answer_fits_its_step<C: HasState>()
    ensures { AnswersFit C C.state }
{}
