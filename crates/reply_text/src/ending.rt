//! How a command that was not done ended.
ghost use Rattle.std.specs.Prelude.{◌≡◌};
ghost use Rattle.refusals.specs.declared.refusal.Refusal.TheVariants.{Memory};
ghost use Rattle.reply_text.specs.declared.ending.Ending.TheVariants.{Refused};

use refusals::Refusal;
use std::alloc::{AllocError, AllocFailed};

/// Why a command was not done.
#[derive(Clone, Copy)]
pub enum Ending {
    /// The words are no line of the table of commands.
    Words,
    /// The source failed.
    Source,
    /// The sink failed.
    Sink,
    /// A line of the script is none, or isn't ended, or is too long: its number, from 1 on.
    Line { number: u64 },
    /// The script has more bytes than one may have.
    Script,
    /// A step was refused.
    Refused(Refusal),
}

impl From<AllocError> for Ending {
    ghost from_gives = { λ _ e. e ≡ Refused Memory };

    fn from(_error: AllocError) -> Ending {
        Ending::Refused(Refusal::Memory)
    }
}

impl<T: Drop> From<AllocFailed<T>> for Ending {
    ghost from_gives = { λ _ e. e ≡ Refused Memory };

    fn from(_error: AllocFailed<T>) -> Ending {
        Ending::Refused(Refusal::Memory)
    }
}

impl From<Refusal> for Ending {
    ghost from_gives = { λ r e. e ≡ Refused r };

    fn from(refusal: Refusal) -> Ending {
        Ending::Refused(refusal)
    }
}
