//! Which keys are live.
ghost use Rattle.std.specs.Prelude.{◌≡◌, ◌⊎◌, ◌↔◌, ℕ, List, IsTrue, OnOk, OnErr};
ghost use Rattle.container_meta.specs.declared.place.Place.{Place as PlaceValue};
ghost use Rattle.gc_enumerate.specs.Live.{IsLiveAt, SharesMark};

use crate::layer::KeyPlace;
use container_meta::{Key, KeyMap, Place};
use std::alloc::{AllocError, Global};
use std::marker::Model;

/// Which keys are live. Each key comes with the place that the index has for it.
#[derive(Drop)]
pub struct Live {
    keys: KeyMap<()>,
}

impl Model for Live {
    ghost use Rattle.gc_enumerate.specs.Live.{LiveKeys, coded_live};

    ghost Value = { LiveKeys };

    ghost coded = { coded_live };

    ghost view = { λ l. l.keys };
}

impl Live {
    ghost use Rattle.gc_enumerate.specs.Marking.{AddsMarks, AddsSome};

    /// No key is live. The allocator is kept, so that `mark` takes none.
    pub fn new(alloc: Global) -> Live
        ensures { (key : List ℕ) (place : PlaceValue) → IsLiveAt result key place → ⊥ }
    {
        Live {
            keys: KeyMap::new(alloc),
        }
    }

    /// Whether a key is live.
    #[tactic(auto, unfolding(crate::specs::Live::IsLiveAt))]
    pub fn is_live(&self, key: &Key, place: &Place) -> bool
        ensures { IsTrue result ↔ IsLiveAt self.now key.now place.now }
    {
        self.keys.get(key).is_some()
    }

    /// Makes a key live, and with it only what shares its mark. It fails for want of memory alone, never where the key is live
    /// already, and leaves all as it was then.
    pub fn mark(&mut self, key: &Key, place: &Place) -> Result<(), AllocError>
        ensures marked { OnOk result (IsLiveAt self.new key.now place.now) }
        ensures ok { OnOk result ((other : List ℕ) (there : PlaceValue)
            → IsLiveAt self.new other there ↔ (IsLiveAt self.old other there ⊎ SharesMark other there key.now place.now)) }
        ensures err { OnErr result (self.new ≡ self.old) }
        ensures absent { OnErr result (IsLiveAt self.old key.now place.now → ⊥) }
    {
        self.keys.insert(key, ())
    }

    /// Takes the mark of a key away: what shares it is live no more, and all else is as it was. It takes no memory.
    pub fn unmark(&mut self, key: &Key, place: &Place)
        ensures { (other : List ℕ) (there : PlaceValue)
            → IsLiveAt self.new other there ↔ (IsLiveAt self.old other there × (SharesMark other there key.now place.now → ⊥)) }
    {
        self.keys.remove(key);
    }

    /// Makes these keys live, one after the other. Where it fails, for want of memory, some of them may be live.
    pub(crate) fn mark_all(&mut self, found: &[KeyPlace]) -> Result<(), AllocError>
        ensures ok { OnOk result (AddsMarks found.now self.old self.new) }
        ensures err { OnErr result (AddsSome found.now self.old self.new) }
    {
        for one in found {
            self.mark(&one.key, &one.place)?;
        }
        Ok(())
    }
}
