//! Two threads that wait for one another.

use std::sync::atomic::{AtomicU64, Ordering};
use std::thread::yield_now;

/// How often one looks for the other's flag, before it goes on alone.
const LOOKS: u64 = 100_000_000;

/// A flag for each of two, and how many have seen the other's.
#[derive(Drop)]
pub struct Meeting {
    first: AtomicU64,
    second: AtomicU64,
    met: AtomicU64,
}

impl Meeting {
    /// Nobody has come yet.
    pub fn new() -> Meeting {
        Meeting {
            first: AtomicU64::new(0),
            second: AtomicU64::new(0),
            met: AtomicU64::new(0),
        }
    }

    /// Raises the flag of the first, by 0, or of the second, and looks until the other one is up.
    pub fn meet(&self, number: u64) {
        let (own, other) = if number == 0 {
            (&self.first, &self.second)
        } else {
            (&self.second, &self.first)
        };
        own.store(1, Ordering::SeqCst);
        for _ in 0..LOOKS {
            if other.load(Ordering::SeqCst) == 1 {
                self.met.fetch_add(1, Ordering::SeqCst);
                return;
            }
            yield_now();
        }
    }

    /// How many have seen the other's flag.
    pub fn met(&self) -> u64 {
        self.met.load(Ordering::SeqCst)
    }
}
