//! The lock and its passes.
ghost use Rattle.std.specs.Prelude.{◌≡◌};

use crate::booked::Booked;
use crate::history::{Home, View};
use crate::rule::TurnRule;
use atomic_table::{Seat, Table};
use std::alloc::Global;
use std::snapshot::Snapshot;
use std::sync::atomic::AtomicU64;

/// How many passes a lock can have, the first one included.
pub const MOST_PASSES: u64 = 64;

// Words of the table: how many tickets were drawn, which is served, and how many lines the book has that lies in the slot.
pub(crate) const TICKETS: usize = 0;

pub(crate) const SERVED: usize = 1;

pub(crate) const LINES: usize = 2;

/// A value that threads take in turns. It lies in the one slot of a table; the pass in turn takes it out and puts it back.
#[derive(Drop)]
pub struct TurnLock<C: Booked> {
    pub(crate) table: Table<Option<Home<C>>, View<C>, Snapshot<C>, TurnRule, Global>,
    /// One for each ticket that may be out at once, on which its pass sleeps: so the end of a turn wakes those whose turn is near, and no
    /// others. What they say has no part in what the lock promises.
    pub(crate) bells: [AtomicU64; MOST_PASSES as usize],
    ghost sized: { (table.shared.table_id.words ≡ 3) × (table.shared.table_id.slots ≡ 1) },
}

/// What one thread knows of the history. It has no bytes.
pub type TurnPass<C> = Seat<Option<Home<C>>, View<C>>;

/// A pass that was split from another.
pub struct NewPass<C> {
    pub pass: TurnPass<C>,
    /// Its number, which no pass had before.
    pub number: u64,
    /// How many lines the book has after the history that it has seen.
    pub lines: u64,
}

/// A lock that can't be closed yet, as other passes have numbers of it.
pub struct StillOpen<C: Booked> {
    pub lock: TurnLock<C>,
    pub pass: TurnPass<C>,
    /// How many numbers other passes have.
    pub others: u64,
    /// How many lines the book has after the history that the pass has seen.
    pub lines: u64,
}
