//! The index and the disk, as a scan sees them.
ghost use Rattle.std.specs.Prelude.{◌≡◌, ◌↔◌, ◌≤◌, ℕ, List, length, take, Option, IsTrue, OnOk, IfOk, IfErr, IfSome};
ghost use Rattle.std.specs.FinMap as finite;
ghost use Rattle.sha2.specs.Sha256.{sha256};
ghost use Rattle.disk_format.specs.declared.numbers.TheConstants.{MOST_SEGMENT};
ghost use Rattle.disk_format.specs.declared.why.Why.{Why};
ghost use Rattle.container_meta.specs.declared.place.Place.{Place as PlaceValue};
ghost use Rattle.container_meta.specs.Places.{PlaceMap};
ghost use Rattle.gc_enumerate.specs.Copies.{KnownMap, CountsReads};
ghost use Rattle.gc_enumerate.specs.Faults.{IsLookupFault, IsReadFault};

use crate::fault::ScanFault;
use container_meta::{Key, Place};

/// The index, and the copies of segments that lie on the disk, as a scan asks for them. No call takes memory, and none changes
/// the map of the index. What lies at a place may change, but something lies there still. The rules are docs/MODEL.md, 'Marking'.
pub trait Copies {
    /// The map of the index, where it is known.
    ghost places: { Self → Option PlaceMap };

    /// It may be asked: the index serves the disk.
    ghost serves: { Self → Type 0 };

    /// A segment may lie at this place: it is on the disk.
    ghost lies: { Self → PlaceValue → Type 0 };

    /// How many calls of the disk failed, or 2^64 - 1 from there on.
    ghost failures: { Self → ℕ };

    /// Calls led from one moment to the other.
    ghost later: { Self → Self → Type 0 };

    /// Calls between two moments showed these bytes at this place.
    ghost shows: { Self → Self → PlaceValue → List ℕ → Type 0 };

    /// Calls between two moments showed damage at this byte of the disk, for which the place of a key is not told: reads showed
    /// bytes there that break the form of the index. An implementor owes that meaning; the trait can't force it.
    ghost damaged: { Self → Self → ℕ → Why → Type 0 };

    /// Whether the index has this place for the key. Refused by `DiskRead`, or by `Damaged` for bytes of the index
    /// that break its form.
    fn is_copy(&mut self, key: &Key, place: &Place) -> Result<bool, ScanFault>
        requires { serves self.old }
        ensures copy { IfOk result (λ yes. KnownMap (places self.old) (λ m. IsTrue yes ↔ (finite.get m key.now ≡ Some place.now))) }
        ensures lies { IfOk result (λ yes. IsTrue yes → lies self.new place.now) }
        ensures refused { IfErr result (IsLookupFault (damaged self.old self.new)) }
        ensures later { later self.old self.new }
        ensures served { serves self.new }
        ensures counts { CountsReads result (failures self.old) (failures self.new) };

    /// The place that the index has for a key. Refused by `DiskRead`, or by `Damaged` for bytes of the index
    /// that break its form.
    fn place_of(&mut self, key: &Key) -> Result<Option<Place>, ScanFault>
        requires { serves self.old }
        ensures found { IfOk result (λ found. KnownMap (places self.old) (λ m. found ≡ finite.get m key.now)) }
        ensures lies { IfOk result (λ found. IfSome found (lies self.new)) }
        ensures refused { IfErr result (IsLookupFault (damaged self.old self.new)) }
        ensures later { later self.old self.new }
        ensures served { serves self.new }
        ensures counts { CountsReads result (failures self.old) (failures self.new) };

    /// Reads the bytes at a place, as many as it says, into the front of `buf`. Refused by `DiskRead`, or by `Corrupt` where they
    /// have another digest than this one.
    fn read(&mut self, place: &Place, digest: &[u8; 32], buf: &mut [u8]) -> Result<(), ScanFault>
        requires serves { serves self.old }
        requires place { lies self.old place.now }
        requires room { place.now.length ≤ length buf.old }
        ensures digest { OnOk result (sha256 (take place.now.length buf.new) ≡ digest.now) }
        ensures shown { OnOk result (shows self.old self.new place.now (take place.now.length buf.new)) }
        ensures refused { IfErr result (IsReadFault (shows self.old self.new) place.now digest.now) }
        ensures later { later self.old self.new }
        ensures served { serves self.new }
        ensures counts { CountsReads result (failures self.old) (failures self.new) }
        ensures size { length buf.new ≡ length buf.old };

    /// How many calls of the disk failed, or 2^64 - 1 from there on.
    fn faults(&self) -> u64
        ensures { result ≡ failures self.now };

    /// No call leaves all as it was.
    ghost later_at_once: { (c : Self) → later c c };

    /// Calls go on from where others ended.
    ghost later_on: { (old mid new : Self) → later old mid → later mid new → later old new };

    /// The map stays.
    ghost places_stay: { (old new : Self) → later old new → places new ≡ places old };

    /// A place that lies on the disk does so still. What its bytes are is not said.
    ghost lies_on: { (old new : Self) (place : PlaceValue) → later old new → lies old place → lies new place };

    /// No segment is longer than a segment may be.
    ghost lies_within: { (c : Self) (place : PlaceValue) → lies c place → place.length ≤ MOST_SEGMENT };

    /// What was shown between two moments was shown between an earlier and a later one.
    ghost shows_wider: { (first old new last : Self) (place : PlaceValue) (bytes : List ℕ) → later first old → later old new
        → later new last → shows old new place bytes → shows first last place bytes };

    /// So was damage.
    ghost damaged_wider: { (first old new last : Self) (at : ℕ) (why : Why) → later first old → later old new → later new last
        → damaged old new at why → damaged first last at why };
}
