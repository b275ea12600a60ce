//! Which segments an actor has shown to be held.
ghost use Rattle.std.specs.Prelude.{◌≡◌, None, IfOk, IfSome, IsTrue, OnOk, OnErr};
ghost use Rattle.std.specs.FinMap as finite;
ghost use Rattle.actor_parts.specs.PinMap.{IsPin, has_pin};

use container_meta::{Key, KeyMap};
use std::alloc::{AllocError, Global};
use std::marker::Model;

/// What is said of a segment that is held.
#[derive(Clone, Copy)]
pub struct Pin {
    /// Its height above the data: 0 of a part of a file.
    pub level: u8,
    /// How many bytes of the file lie below it.
    pub length: u64,
}

/// Segments that are kept for an actor: by its key, the level and the length of each.
#[derive(Drop)]
pub struct Pins {
    pins: KeyMap<Pin>,
}

impl Model for Pins {
    ghost use Rattle.actor_parts.specs.PinMap.{PinMap, coded_pins};

    ghost Value = { PinMap };

    ghost coded = { coded_pins };

    ghost view = { λ p. p.pins };

    ghost use Rattle.actor_parts.specs.PinMap.{ArePins};

    ghost invariant = { λ p. ArePins p.pins };
}

impl Pins {
    /// No pins. The allocator is kept, so that `add` takes none.
    pub fn new(alloc: Global) -> Pins
        ensures { result ≡ finite.empty }
    {
        Pins {
            pins: KeyMap::new(alloc),
        }
    }

    /// What is said of the segment of a key.
    pub fn get(&self, key: &Key) -> Option<Pin>
        ensures found { result ≡ finite.get self.now key.now }
        ensures right { IfSome result IsPin }
    {
        self.pins.get(key)
    }

    /// Whether the segment of a key is there, with that level and length.
    pub fn has(&self, key: &Key, pin: &Pin) -> bool
        ensures there { result ≡ has_pin self.now key.now pin.now }
        ensures right { IsTrue result → IsPin pin.now }
    {
        match self.get(key) {
            Some(found) => found.level == pin.level && found.length == pin.length,
            None => false,
        }
    }

    /// Says this of the segment of a key, instead of what was said before. It fails for want of memory alone, leaves the
    /// pins then as they were, and never fails where the key is there.
    pub fn add(&mut self, key: &Key, pin: Pin) -> Result<(), AllocError>
        requires { IsPin pin }
        ensures ok { OnOk result (self.new ≡ finite.insert self.old key.now pin) }
        ensures err { OnErr result (self.new ≡ self.old) }
        ensures absent { OnErr result (finite.get self.old key.now ≡ None) }
    {
        self.pins.insert(key, pin)
    }

    /// Takes the segment of a key away, if it is there.
    pub fn remove(&mut self, key: &Key)
        ensures { self.new ≡ finite.remove self.old key.now }
    {
        self.pins.remove(key);
    }

    /// The keys of all segments, in the order of their bytes. It fails for want of memory alone.
    pub fn keys(&self, alloc: Global) -> Result<Vec<Key>, AllocError>
        ensures { IfOk result (λ keys. keys.items ≡ finite.keys self.now) }
    {
        self.pins.keys(alloc)
    }
}
