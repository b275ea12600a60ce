//! The bytes of a generated file, piece by piece.
ghost use Rattle.std.specs.Prelude.{◌≡◌, ℕ, ◌-◌, ◌+◌, ◌/◌, ◌<◌, ◌≤◌, false, length, min, get_or};
ghost use Rattle.load_stream.specs.Load.{byte_of, source_of, word_bytes, word_of};

use rand_core::SeedableRng;
use rand_core::utils::NextWord;
use rand_xoshiro::SplitMix64;
use std::marker::Model;

/// How many words a block has: 65,536 bytes.
const BLOCK_WORDS: u64 = 8192;

/// What the generator's state rises by, for each word.
const STEP: u64 = 0x9E37_79B9_7F4A_7C15;

/// The bytes of a generated file, as they are asked for.
#[derive(Drop)]
pub struct LoadStream {
    seed: u64,
    file: u64,
    length: u64,
    given: u64,
}

impl Model for LoadStream {
    ghost use Rattle.std.specs.Prelude.{◌≤◌};
    ghost use Rattle.load_stream.specs.Load.{LoadState};

    ghost Value = { LoadState };

    ghost view = { λ s. record { seed = s.seed; file = s.file; length = s.length; given = s.given } };

    ghost invariant = { λ s. s.given ≤ s.length };
}

// Where the words of a block come from.
fn source_at(file: u64, block: u64) -> u64
    ensures { result ≡ source_of file block }
{
    if block % 2 == 0 {
        0
    } else {
        file.wrapping_add(1)
    }
}

// A word of a file.
fn word(seed: u64, file: u64, number: u64) -> u64
    ensures { result ≡ word_of seed file number }
{
    let source = source_at(file, number / BLOCK_WORDS);
    let state = (seed ^ (source << 48)).wrapping_add(number.wrapping_mul(STEP));
    SplitMix64::seed_from_u64(state).next_word()
}

// Its bytes.
fn word_at(seed: u64, file: u64, number: u64) -> [u8; 8]
    ensures { result ≡ word_bytes seed file number }
{
    word(seed, file, number).to_be_bytes()
}

impl LoadStream {
    /// A file of so many bytes, of a seed and a number. Files of one seed have every other block of 65,536 bytes in common.
    pub fn new(seed: u64, file: u64, length: u64) -> LoadStream
        ensures { result ≡ record { seed = seed; file = file; length = length; given = 0 } }
    {
        LoadStream {
            seed,
            file,
            length,
            given: 0,
        }
    }

    // The bytes of the word that a byte lies in; `hand` has those of the byte before it, but for the first one.
    fn word_for(&self, at: u64, first: bool, hand: [u8; 8]) -> [u8; 8]
        requires { first ≡ false → hand ≡ word_bytes self.now.seed self.now.file ((at - 1) / 8) }
        ensures { result ≡ word_bytes self.now.seed self.now.file (at / 8) }
    {
        if first {
            return word_at(self.seed, self.file, at / 8);
        }
        if at % 8 == 0 {
            return word_at(self.seed, self.file, at / 8);
        }
        hand
    }

    /// Writes the next bytes of the file, up to its end, and says how many; the rest of `into` stays as it was.
    pub fn next_bytes(&mut self, into: &mut [u8]) -> usize
        ensures count { result ≡ min (length into.old) (self.old.length - self.old.given) }
        ensures bytes { (i : ℕ) → i < result → get_or into.new i 0 ≡ byte_of self.old.seed self.old.file (self.old.given + i) }
        ensures rest { (i : ℕ) → result ≤ i → get_or into.new i 0 ≡ get_or into.old i 0 }
        ensures given { self.new ≡ record self.old { given = self.old.given + result } }
    {
        let count = (into.len() as u64).min(self.length - self.given) as usize;
        let mut word = [0u8; 8];
        for i in 0..count {
            let at = self.given + i as u64;
            word = self.word_for(at, i == 0, word);
            into[i] = word[(at % 8) as usize];
        }
        self.given += count as u64;
        count
    }
}
