//! The words of a line.
ghost use Rattle.std.specs.Prelude.{◌≡◌, ◌<◌, ◌++◌, ◌∷◌, [], ℕ, decimal, IfSome, IfNone};
ghost use Rattle.script_lines.specs.Grammar.{HasNoSpace, IsActor, IsPercent};

use actor_parts::{Actor, Percent};

/// What stands before the first space and what stands after it, where there is one.
pub(crate) fn split_word(bytes: &[u8]) -> Option<(&[u8], &[u8])>
    ensures found { IfSome result (λ words. HasNoSpace words.0.now × (bytes.now ≡ words.0.now ++ (32 ∷ words.1.now))) }
    ensures none { IfNone result (HasNoSpace bytes.now) }
{
    for (index, byte) in bytes.iter().enumerate() {
        if *byte == b' ' {
            return Some((&bytes[..index], &bytes[index + 1..]));
        }
    }
    None
}

/// The actor whose number is the word: decimal, with no zero before another digit.
pub(crate) fn read_actor(word: &[u8]) -> Option<Actor>
    ensures found { IfSome result (λ actor. IsActor actor × (word.now ≡ decimal actor)) }
    ensures none { IfNone result ((actor : ℕ) → IsActor actor → word.now ≡ decimal actor → ⊥) }
{
    Actor::new(read_number(word)?)
}

/// The percentage whose number is the word: decimal, with no zero before another digit.
pub(crate) fn read_percent(word: &[u8]) -> Option<Percent>
    ensures found { IfSome result (λ percent. IsPercent percent × (word.now ≡ decimal percent)) }
    ensures none { IfNone result ((percent : ℕ) → IsPercent percent → word.now ≡ decimal percent → ⊥) }
{
    if word == b"100".as_slice() {
        Percent::new(100)
    } else {
        Percent::new(read_number(word)?)
    }
}

// The number of one digit or two that the word is.
fn read_number(word: &[u8]) -> Option<u64>
    ensures found { IfSome result (λ number. (number < 100) × (word.now ≡ decimal number)) }
    ensures none { IfNone result ((number : ℕ) → number < 100 → word.now ≡ decimal number → ⊥) }
{
    match word {
        [ones] => one_digit(*ones),
        [tens, ones] => two_digits(*tens, *ones),
        _ => None,
    }
}

fn one_digit(ones: u8) -> Option<u64>
    ensures found { IfSome result (λ number. (number < 100) × (ones ∷ [] ≡ decimal number)) }
    ensures none { IfNone result ((number : ℕ) → number < 100 → ones ∷ [] ≡ decimal number → ⊥) }
{
    if ones.is_ascii_digit() {
        Some(u64::from(ones - b'0'))
    } else {
        None
    }
}

fn two_digits(tens: u8, ones: u8) -> Option<u64>
    ensures found { IfSome result (λ number. (number < 100) × (tens ∷ ones ∷ [] ≡ decimal number)) }
    ensures none { IfNone result ((number : ℕ) → number < 100 → tens ∷ ones ∷ [] ≡ decimal number → ⊥) }
{
    if tens.is_ascii_digit() && tens != b'0' && ones.is_ascii_digit() {
        Some(10 * u64::from(tens - b'0') + u64::from(ones - b'0'))
    } else {
        None
    }
}
