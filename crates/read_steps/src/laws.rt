//! Laws of readers, for proofs that stand on them.
ghost use Rattle.std.specs.Prelude.{List, ℕ};
ghost use Rattle.merkle_file.specs.declared.top.Top.{Top};
ghost use Rattle.store_model.specs.Collisions.{ByteSet, IsIn};
ghost use Rattle.store_model.specs.Image.{Store};
ghost use Rattle.store_model.specs.Steps.{KeepsCopies};
ghost use Rattle.read_steps.specs.Walking.{SegmentsAhead, ReadsAreWhole};

/// A reader that has come to the end was given as many bytes as the root says, and what is to come of a walk stays while
/// others change the store, as long as the newest copies of its keys stay. The function does nothing.
pub fn readers_go_on()
    ensures whole { ReadsAreWhole }
    ensures stays { (counts : ByteSet) (s t : Store) (old new : List ℕ) (ahead : List Top) (segments : List (List ℕ))
        → KeepsCopies (IsIn counts) s old t new
        → SegmentsAhead counts s.held old ahead segments → SegmentsAhead counts t.held new ahead segments }
{}
