//! The exit status of a command that was not done: docs/FORMAT.md, 'Commands' and 'Refusals'.
ghost use Rattle.std.specs.Prelude.{◌≡◌};
ghost use Rattle.reply_text.specs.Table.{status_of, status_of_refusal};

use crate::ending::Ending;
use refusals::Refusal;

/// The exit status of a command that ended so.
pub fn status_of(ending: &Ending) -> u8
    ensures { result ≡ status_of ending.now }
{
    match ending {
        Ending::Words => 2,
        Ending::Source => 5,
        Ending::Sink => 6,
        Ending::Line { .. } => 2,
        Ending::Script => 2,
        Ending::Refused(refusal) => status_of_refusal(refusal),
    }
}

fn status_of_refusal(refusal: &Refusal) -> u8
    ensures { result ≡ status_of_refusal refusal.now }
{
    match refusal {
        Refusal::Memory => 1,
        Refusal::NoFile => 3,
        Refusal::BadName => 3,
        Refusal::TooMany => 3,
        Refusal::TooLong => 3,
        Refusal::Full { .. } => 3,
        Refusal::Clash { .. } => 3,
        Refusal::WrongPart { .. } => 3,
        Refusal::Collecting { .. } | Refusal::NotCollecting => 3,
        Refusal::DiskRead => 4,
        Refusal::DiskWrite => 4,
        Refusal::Stopped { .. } => 4,
        Refusal::Corrupt { .. } => 7,
        Refusal::Missing { .. } => 7,
        Refusal::Numbers => 3,
        Refusal::NotAStore { .. } => 8,
        Refusal::Version { .. } => 8,
        Refusal::Damaged { .. } => 7,
        Refusal::Unpinned { .. } => 3,
        Refusal::AlreadyStore => 3,
        Refusal::WrongSize { .. } => 3,
        Refusal::NoActor => 3,
        Refusal::NotEmpty { .. } => 3,
    }
}
