//! The words of a generated load: what workers are to store.
ghost use Rattle.std.specs.Prelude.{◌≡◌, ◌≤◌, option_map, IfSome};
ghost use Rattle.backup_engine.specs.Line.{load_by, number_within};
ghost use Rattle.backup_engine.specs.LineValue.{load_value, IsRightLoad};

use crate::words::{is_number, percentage};
use actor_parts::Percent;

/// The most workers.
pub(crate) const MOST_WORKERS: u64 = 32;

/// The greatest seed.
pub(crate) const MOST_SEED: u64 = u64::MAX;

/// The most files.
pub(crate) const MOST_FILES: u64 = 256;

/// The most bytes of a file.
pub(crate) const MOST_BYTES: u64 = 16_777_216;

/// What workers are to store.
#[derive(Clone, Copy)]
pub(crate) struct Load {
    /// How many workers there are, 1 to 32.
    pub(crate) workers: usize,
    /// What the bytes of all files come of.
    pub(crate) seed: u64,
    /// How many files there are, 1 to 256.
    pub(crate) files: u64,
    /// How many bytes each of them has, at most 16,777,216.
    pub(crate) bytes: u64,
    /// The percentage of the collections that are made meanwhile.
    pub(crate) percent: Percent,
}

/// The load that these words stand for, if they do.
pub(crate) fn read_load(
    workers: &str,
    seed: &str,
    files: &str,
    bytes: &str,
    percent: &str,
) -> Option<Load>
    ensures load { option_map load_value result ≡ load_by workers.now seed.now files.now bytes.now percent.now }
    ensures right { IfSome result IsRightLoad }
{
    let workers = number_within(workers, 1, MOST_WORKERS)?;
    let seed = number_within(seed, 0, MOST_SEED)?;
    let files = number_within(files, 1, MOST_FILES)?;
    let bytes = number_within(bytes, 0, MOST_BYTES)?;
    let percent = percentage(percent)?;
    Some(Load {
        workers: workers as usize,
        seed,
        files,
        bytes,
        percent,
    })
}

// The number within these limits that a word stands for, if it does.
fn number_within(word: &str, least: u64, most: u64) -> Option<u64>
    ensures number { result ≡ number_within least most word.now }
    ensures within { IfSome result (λ number. (least ≤ number) × (number ≤ most)) }
{
    if !is_number(word) {
        return None;
    }
    match word.parse::<u64>() {
        Ok(number) => {
            if least <= number && number <= most {
                Some(number)
            } else {
                None
            }
        }
        Err(_) => None,
    }
}
