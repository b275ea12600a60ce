//! How often each refusal was answered, and how often the end of a file.
ghost use Rattle.std.specs.Prelude.{◌≡◌, ◌<◌, ℕ, get_or};
ghost use Rattle.actor_parts.specs.Counts.{Counts, is_refused_by, is_end};
ghost use Rattle.refusals.specs.Numbers.{number_of};

use crate::step::Answer;
use refusals::Refusal;

/// How often each refusal was answered, by its number, and how often the end of a file. Each count stands still at 2^64 - 1.
#[derive(Clone, Copy)]
pub struct Answered {
    pub refused: [u64; 24],
    pub ended: u64,
}

impl Answered {
    /// Nothing was answered yet.
    pub fn nothing() -> Answered
        ensures refused { (n : ℕ) → get_or result.refused n 0 ≡ 0 }
        ensures ended { result.ended ≡ 0 }
    {
        Answered {
            refused: [0; 24],
            ended: 0,
        }
    }

    /// Counts an answer.
    pub fn count(&mut self, answer: &Result<Answer, Refusal>)
        ensures refused { (n : ℕ) → Counts (is_refused_by n answer.now) (get_or self.old.refused n 0) (get_or self.new.refused n 0) }
        ensures ended { Counts (is_end answer.now) self.old.ended self.new.ended }
    {
        count_refusal(&mut self.refused, answer);
        self.ended = count_end(self.ended, answer);
    }
}

// The number of a refusal.
fn number(refusal: &Refusal) -> usize
    ensures value { result ≡ number_of refusal.now }
    ensures below { result < 24 }
{
    match refusal {
        Refusal::Memory => 1,
        Refusal::NoFile => 2,
        Refusal::BadName => 3,
        Refusal::TooMany => 4,
        Refusal::TooLong => 5,
        Refusal::Full { .. } => 6,
        Refusal::Clash { .. } => 7,
        Refusal::WrongPart { .. } => 8,
        Refusal::Collecting { .. } | Refusal::NotCollecting => 9,
        Refusal::DiskRead => 10,
        Refusal::DiskWrite => 11,
        Refusal::Stopped { .. } => 12,
        Refusal::Corrupt { .. } => 13,
        Refusal::Missing { .. } => 14,
        Refusal::Numbers => 15,
        Refusal::NotAStore { .. } => 16,
        Refusal::Version { .. } => 17,
        Refusal::Damaged { .. } => 18,
        Refusal::Unpinned { .. } => 19,
        Refusal::AlreadyStore => 20,
        Refusal::WrongSize { .. } => 21,
        Refusal::NoActor => 22,
        Refusal::NotEmpty { .. } => 23,
    }
}

// Counts an answer, where it is a refusal.
fn count_refusal(counts: &mut [u64; 24], answer: &Result<Answer, Refusal>)
    ensures { (n : ℕ) → Counts (is_refused_by n answer.now) (get_or counts.old n 0) (get_or counts.new n 0) }
{
    if let Err(refusal) = answer {
        let at = number(refusal);
        counts[at] = counts[at].saturating_add(1);
    }
}

// Counts an answer, where it is the end of a file.
fn count_end(count: u64, answer: &Result<Answer, Refusal>) -> u64
    ensures { Counts (is_end answer.now) count result }
{
    match answer {
        Ok(Answer::End) => count.saturating_add(1),
        _ => count,
    }
}
