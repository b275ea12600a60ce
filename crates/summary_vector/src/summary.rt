//! The writer's side of a summary of the keys that are stored.
ghost use Rattle.std.specs.Prelude.{◌≡◌, ℕ, Bool, false, ◌+◌, ◌-◌, ◌^◌, min};
ghost use Rattle.summary_vector.specs.Banks.{Banks, no_banks, added, cleared, flipped, IfThere};

use container_meta::Key;

/// A summary of keys, as its writer sees it: two banks of bits, of which the one that stands is that of the generation's
/// parity, and the other is spare. Where there is none, nothing is kept, and the calls do nothing.
pub trait Summary {
    /// Whether there is one.
    ghost there: { Self → Bool };

    /// Its banks and its generation.
    ghost banks: { Self → Banks };

    /// Empties the spare bank.
    fn clear_spare(&mut self)
        ensures there { there self.new ≡ there self.old }
        ensures banks { IfThere (there self.old) (banks self.new ≡ cleared (banks self.old)) };

    /// Sets the bits of a key in both banks.
    fn add(&mut self, key: &Key)
        ensures there { there self.new ≡ there self.old }
        ensures banks { IfThere (there self.old) (banks self.new ≡ added key.now (banks self.old)) };

    /// Makes the spare bank the one that stands. The generation rises by 1, or stays where it is 2^64 - 1.
    fn flip(&mut self)
        ensures there { there self.new ≡ there self.old }
        ensures banks { IfThere (there self.old) (banks self.new ≡ flipped (banks self.old)) };

    /// Whether there is one. The answer is the same at each time.
    fn is_there(&self) -> bool
        ensures { result ≡ there self.now };
}

/// No summary.
#[derive(Clone, Copy)]
pub struct NoSummary;

impl Summary for NoSummary {
    ghost there = { λ _. false };

    ghost banks = { λ _. no_banks };

    fn clear_spare(&mut self) {}

    fn add(&mut self, _key: &Key) {}

    fn flip(&mut self) {}

    fn is_there(&self) -> bool {
        false
    }
}
