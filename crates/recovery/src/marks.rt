//! Slots that are marked as a walk comes to keys.
ghost use Rattle.std.specs.Prelude.{◌≡◌, IfOk, false, replicate};

use container_meta::{Key, Place};
use read_steps::NotesKeys;
use std::alloc::{AllocError, Global};
use std::marker::Model;

/// Marks of slots. A walk marks the slot of each key that it comes to.
#[derive(Drop)]
pub(crate) struct Marks {
    used: Vec<bool>,
}

impl Model for Marks {
    ghost use Rattle.std.specs.Prelude.{Bool, List};

    ghost Value = { List Bool };

    ghost view = { λ m. m.used.items };
}

impl NotesKeys for Marks {
    ghost use Rattle.recovery.specs.Marking.{HasSlot, MarksSlot};

    ghost notes = { MarksSlot };

    ghost takes = { HasSlot };

    fn note(&mut self, _key: &Key, place: &Place) -> Result<(), AllocError> {
        self.used[place.slot as usize] = true;
        Ok(())
    }
}

impl Marks {
    /// None of so many slots is marked. It fails for want of memory alone.
    pub(crate) fn new(alloc: Global, slots: u32) -> Result<Marks, AllocError>
        ensures { IfOk result (λ marks. marks ≡ replicate slots false) }
    {
        Ok(Marks {
            used: vec![in alloc; false; slots as usize]?,
        })
    }

    /// The marks, by slot.
    pub(crate) fn into_slots(self) -> Vec<bool>
        ensures { result.items ≡ self }
    {
        self.used
    }
}
