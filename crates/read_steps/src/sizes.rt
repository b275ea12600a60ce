//! Keys, each with how many bytes it has.
ghost use Rattle.std.specs.Prelude.{◌≡◌, IfSome};
ghost use Rattle.std.specs.FinMap as finite;
ghost use Rattle.store_model.specs.Unique.{bytes_in};

use crate::noting::NotesKeys;
use container_meta::{Key, Place};
use std::alloc::{AllocError, Global};
use std::collections::BTreeMap;
use std::marker::Model;

/// Keys, each with how many bytes it has.
#[derive(Drop)]
pub(crate) struct Sizes {
    keys: BTreeMap<Key, u32>,
}

impl Model for Sizes {
    ghost use Rattle.std.specs.Coded.{coded_list, coded_ℕ};
    ghost use Rattle.std.specs.FinMap as finite;
    ghost use Rattle.store_model.specs.Unique.{KeySizes};

    ghost Value = { KeySizes };

    ghost coded = { finite.code (coded_list coded_ℕ) coded_ℕ };

    ghost view = { λ s. finite.from_entries s.keys.entries };
}

impl NotesKeys for Sizes {
    ghost use Rattle.std.specs.Prelude.{◌≡◌};
    ghost use Rattle.std.specs.FinMap as finite;

    ghost notes = { λ old key place new. new ≡ finite.insert old key place.length };

    ghost takes = { λ s place. Unit {0} };

    fn note(&mut self, key: &Key, place: &Place) -> Result<(), AllocError> {
        self.keys.insert(*key, place.length)?;
        Ok(())
    }
}

impl Sizes {
    /// No key. The allocator is kept, so that `note` takes none.
    pub(crate) fn new(alloc: Global) -> Sizes
        ensures { result ≡ finite.empty }
    {
        Sizes {
            keys: BTreeMap::new(alloc),
        }
    }

    /// How many keys there are.
    pub(crate) fn count(&self) -> u64
        ensures { result ≡ finite.len self.now }
    {
        self.keys.len() as u64
    }

    /// How many bytes they have together, where a number of 64 bits says it.
    pub(crate) fn bytes(&self) -> Option<u64>
        ensures { IfSome result (λ bytes. bytes ≡ bytes_in self.now) }
    {
        let mut bytes = 0u64;
        for size in self.keys.values() {
            bytes = bytes.checked_add(u64::from(*size))?;
        }
        Some(bytes)
    }
}
