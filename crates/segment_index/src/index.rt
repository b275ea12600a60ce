//! An index as the store sees it.
ghost use Rattle.std.specs.Prelude.{◌≡◌, ◌⊎◌, ℕ, ◌≤◌, List, length, Option, Some, None, Err, IsSome, OnOk, OnErr, IfOk, IfErr, IfSome};
ghost use Rattle.std.specs.FinMap as finite;
ghost use Rattle.dd_disk.specs.Ending.{ending, Reads};
ghost use Rattle.dd_disk.specs.Shows.{Shows};
ghost use Rattle.disk_format.specs.Layout.{size_of, slot_at};
ghost use Rattle.disk_format.specs.declared.why.Why.{Why};
ghost use Rattle.container_meta.specs.Places.{PlaceMap};
ghost use Rattle.segment_index.specs.Places.{KnownMap, HasKind, IsPlace};
ghost use Rattle.segment_index.specs.Changes.{SameFrom, Changes};
ghost use Rattle.segment_index.specs.Faults.{blames, IsGetFault, IsPutFault, IsRemoveFault};
ghost use Rattle.segment_index.specs.declared.fault.IndexFault.TheVariants.{Memory};

use crate::fault::IndexFault;
use container_meta::{Key, Place};
use dd_disk::Disk;

/// From keys to places. Each call is lent the disk, the same one each time, and an index may keep its map there, after
/// the last container slot, or in memory. The rules are docs/MODEL.md, 'The index'.
pub trait Index {
    /// The map, as the index and what reads of the disk give spell it; some indexes spell one only where the disk tells
    /// its content.
    ghost places: { Self → Option (List ℕ) → Option PlaceMap };

    /// It can be kept on a disk of this size.
    ghost serves: { Self → ℕ → Type 0 };

    /// The first byte that is the index's own on a disk of this size.
    ghost owned_from: { Self → ℕ → ℕ };

    /// Bytes of a disk break the form of the index, at this byte and for this reason.
    ghost breaks: { Self → ℕ → Why → List ℕ → Type 0 };

    /// The place of a key, on the disk. It takes no memory.
    fn get<D: Disk>(&mut self, disk: &mut D, key: &Key) -> Result<Option<Place>, IndexFault>
        requires serves { serves self.old (D.view disk.old).size }
        ensures found { IfOk result (λ found. KnownMap (places self.old (D.view disk.old).content)
            (λ m. found ≡ finite.get m key.now)) }
        ensures place { IfOk result (λ found. IfSome found (IsPlace (D.view disk.old).size)) }
        ensures map { places self.new (D.view disk.new).content ≡ places self.old (D.view disk.old).content }
        ensures form { (at : ℕ) (why : Why) (bytes : List ℕ) → breaks self.new at why bytes → breaks self.old at why bytes }
        ensures fault { IfErr result (IsGetFault (λ at why. (places self.old (D.view disk.old).content ≡ None)
            × Shows (D.view disk.old) (D.view disk.new) (breaks self.old at why))) }
        // What is known of the map by itself, with no disk, stays; and where it is known the call asks the disk for nothing.
        ensures alone { (places self.new None ≡ places self.old None) × OnErr result (places self.old None ≡ None) }
        ensures reads { Reads (ending blames result) (D.view disk.old) (D.view disk.new) }
        ensures served { serves self.new (D.view disk.new).size };

    /// Gives a key a place, instead of the one that it had; a map that isn't known stays so. Memory runs out only where the
    /// key had none, and leaves the map as it was; where the disk fails, or damage is found, it may have changed. No room is
    /// asked for: an index in memory takes any number of keys, and one in pages of the disk is to answer damage where these
    /// are full.
    fn put<D: Disk>(&mut self, disk: &mut D, key: &Key, place: Place) -> Result<(), IndexFault>
        requires serves { serves self.old (D.view disk.old).size }
        requires kind { HasKind key.now }
        requires place { IsPlace (D.view disk.old).size place }
        ensures ok { OnOk result (KnownMap (places self.old (D.view disk.old).content)
            (λ m. places self.new (D.view disk.new).content ≡ Some (finite.insert m key.now place))) }
        ensures unknown { OnOk result (places self.old (D.view disk.old).content ≡ None
            → places self.new (D.view disk.new).content ≡ None) }
        ensures memory { result ≡ Err Memory
            → places self.new (D.view disk.new).content ≡ places self.old (D.view disk.old).content }
        ensures absent { result ≡ Err Memory → KnownMap (places self.old (D.view disk.old).content)
            (λ m. finite.get m key.now ≡ None) }
        ensures fault { IfErr result (IsPutFault (λ at why. (places self.old (D.view disk.old).content ≡ None)
            × Shows (D.view disk.old) (D.view disk.new) (breaks self.old at why))) }
        ensures changes { Changes (owned_from self.old (D.view disk.old).size) (ending blames result) (D.view disk.old) (D.view disk.new) }
        ensures served { serves self.new (D.view disk.new).size };

    /// Takes a key away, if it is there. It takes no memory. Where the disk fails, or damage is found, the map may have
    /// changed.
    fn remove<D: Disk>(&mut self, disk: &mut D, key: &Key) -> Result<(), IndexFault>
        requires serves { serves self.old (D.view disk.old).size }
        ensures ok { OnOk result (KnownMap (places self.old (D.view disk.old).content)
            (λ m. places self.new (D.view disk.new).content ≡ Some (finite.remove m key.now))) }
        ensures unknown { OnOk result (places self.old (D.view disk.old).content ≡ None
            → places self.new (D.view disk.new).content ≡ None) }
        ensures fault { IfErr result (IsRemoveFault (λ at why. (places self.old (D.view disk.old).content ≡ None)
            × Shows (D.view disk.old) (D.view disk.new) (breaks self.old at why))) }
        ensures changes { Changes (owned_from self.old (D.view disk.old).size) (ending blames result) (D.view disk.old) (D.view disk.new) }
        ensures served { serves self.new (D.view disk.new).size };

    /// Where the disk tells its content, the map is known, or the content breaks the form of the index.
    ghost is_known: { (i : Self) (bytes : List ℕ) → serves i (length bytes)
        → IsSome (places i (Some bytes)) ⊎ ((at : ℕ) × ((why : Why) × breaks i at why bytes)) };

    /// What is written before its own bytes doesn't change the map.
    ghost places_stay: { (i : Self) (old new : List ℕ) → SameFrom (owned_from i (length old)) old new
        → places i (Some new) ≡ places i (Some old) };

    /// No byte of a container slot is its own.
    ghost owns_no_slot: { (i : Self) (slots : ℕ) → serves i (size_of slots) → slot_at slots ≤ owned_from i (size_of slots) };
}
