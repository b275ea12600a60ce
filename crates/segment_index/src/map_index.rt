//! An index in memory.
ghost use Rattle.std.specs.Prelude.{◌≡◌, Some, None, refl, OnOk, OnErr};
ghost use Rattle.std.specs.FinMap as finite;
ghost use Rattle.segment_index.specs.Places.{coded_places, HasPlaces};
ghost use Rattle.container_meta.specs.Places.{PlaceMap};

use crate::fault::IndexFault;
use crate::index::Index;
use container_meta::{Key, KeyMap, Place};
use dd_disk::Disk;
use std::alloc::{AllocError, Global};
use std::marker::Model;

/// An index in memory. It calls the disk for nothing.
#[derive(Drop)]
pub struct MapIndex {
    entries: KeyMap<Place>,
}

impl Model for MapIndex {
    ghost use Rattle.segment_index.specs.Places.{coded_places};
    ghost use Rattle.container_meta.specs.Places.{PlaceMap};

    ghost Value = { PlaceMap };

    ghost coded = { coded_places };

    ghost view = { λ i. i.entries };
}

impl MapIndex {
    /// No keys. The allocator is kept, so that `put` takes none.
    pub fn new(alloc: Global) -> MapIndex
        ensures { result ≡ finite.empty }
    {
        MapIndex {
            entries: KeyMap::new(alloc),
        }
    }

    /// The place of a key.
    pub fn find(&self, key: &Key) -> Option<Place>
        ensures { result ≡ finite.get self.now key.now }
    {
        self.entries.get(key)
    }

    /// Gives a key a place, instead of the one that it had. An error comes only where it had none, and leaves the map as
    /// it was.
    pub fn set(&mut self, key: &Key, place: Place) -> Result<(), AllocError>
        ensures ok { OnOk result (self.new ≡ finite.insert self.old key.now place) }
        ensures err { OnErr result (self.new ≡ self.old) }
        ensures absent { OnErr result (finite.get self.old key.now ≡ None) }
    {
        self.entries.insert(key, place)
    }

    /// Takes a key away, if it is there.
    pub fn forget(&mut self, key: &Key)
        ensures { self.new ≡ finite.remove self.old key.now }
    {
        self.entries.remove(key);
    }
}

impl Index for MapIndex {
    ghost use Rattle.std.proofs.Common.{inl};
    ghost use Rattle.segment_index.specs.Laws.{slots_end};

    ghost places = { λ i _. Some i };

    ghost serves = { λ i size. HasPlaces size i };

    ghost owned_from = { λ _ size. size };

    ghost breaks = { λ _ _ _ _. ⊥ };

    ghost is_known = { λ _ _ _. inl refl };

    ghost places_stay = { λ _ _ _ _. refl };

    ghost owns_no_slot = { λ _ slots _. slots_end slots };

    fn get<D: Disk>(&mut self, _disk: &mut D, key: &Key) -> Result<Option<Place>, IndexFault> {
        Ok(self.find(key))
    }

    fn put<D: Disk>(&mut self, _disk: &mut D, key: &Key, place: Place) -> Result<(), IndexFault> {
        self.set(key, place)?;
        Ok(())
    }

    fn remove<D: Disk>(&mut self, _disk: &mut D, key: &Key) -> Result<(), IndexFault> {
        self.forget(key);
        Ok(())
    }
}
