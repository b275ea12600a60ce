//! What a walk notes of each key that it comes to.
ghost use Rattle.std.specs.Prelude.{ℕ, List, OnOk};
ghost use Rattle.container_meta.specs.declared.place.Place.{Place as PlaceValue};

use container_meta::{Key, Place};
use std::alloc::AllocError;

/// What a walk notes of each key that it comes to, with the place that the index has for it.
pub trait NotesKeys {
    /// A key with its place was noted.
    ghost notes: { Self → List ℕ → PlaceValue → Self → Type 0 };

    /// It may be given such a place.
    ghost takes: { Self → PlaceValue → Type 0 };

    /// Notes a key, which may have been noted before. It fails for want of memory alone.
    fn note(&mut self, key: &Key, place: &Place) -> Result<(), AllocError>
        requires takes { takes self.old place.now }
        ensures noted { OnOk result (notes self.old key.now place.now self.new) }
        ensures stays { (p : PlaceValue) → takes self.old p → takes self.new p };
}
