//! Maps from keys, in memory.
ghost use Rattle.std.specs.Prelude.{◌≡◌, None, OnOk, OnErr, IfOk};
ghost use Rattle.std.specs.FinMap as finite;

use crate::place::Key;
use std::alloc::{AllocError, Global};
use std::collections::BTreeMap;
use std::marker::Model;

/// A map from the keys of segments, in memory.
#[derive(Drop)]
pub struct KeyMap<V> {
    entries: BTreeMap<Key, V>,
}

impl<V> Model for KeyMap<V> {
    ghost use Rattle.std.specs.FinMap as finite;
    ghost use Rattle.std.specs.Ordering.{nat_cmp};
    ghost use Rattle.std.specs.Cmp.Lexicographic.{slice_cmp};
    ghost use Rattle.std.specs.Coded.{coded_list, coded_ℕ};

    ghost Value = { finite.FinMap (slice_cmp nat_cmp) V };

    ghost coded = { finite.code (coded_list coded_ℕ) V.code };

    ghost view = { λ m. finite.from_entries m.entries.entries };
}

impl<V: Copy> KeyMap<V> {
    /// No keys. The allocator is kept, so that `insert` takes none.
    pub fn new(alloc: Global) -> KeyMap<V>
        ensures { result ≡ finite.empty }
    {
        KeyMap {
            entries: BTreeMap::new(alloc),
        }
    }

    /// The value of a key.
    pub fn get(&self, key: &Key) -> Option<V>
        ensures { result ≡ finite.get self.now key.now }
    {
        self.entries.get(key).copied()
    }

    /// Gives a key a value, instead of the one that it had. It fails for want of memory alone, leaves the map then as it
    /// was, and never fails where the key is there.
    pub fn insert(&mut self, key: &Key, value: V) -> Result<(), AllocError>
        ensures ok { OnOk result (self.new ≡ finite.insert self.old key.now value) }
        ensures err { OnErr result (self.new ≡ self.old) }
        ensures absent { OnErr result (finite.get self.old key.now ≡ None) }
    {
        self.entries.insert(*key, value)?;
        Ok(())
    }

    /// Takes a key away, if it is there.
    pub fn remove(&mut self, key: &Key)
        ensures { self.new ≡ finite.remove self.old key.now }
    {
        self.entries.remove(key);
    }

    /// The keys that are there, in the order of their bytes. It fails for want of memory alone.
    pub fn keys(&self, alloc: Global) -> Result<Vec<Key>, AllocError>
        ensures { IfOk result (λ keys. keys.items ≡ finite.keys self.now) }
    {
        let mut keys = Vec::with_capacity(alloc, self.entries.len())?;
        for (key, _) in &self.entries {
            keys.push(*key)?;
        }
        Ok(keys)
    }
}
