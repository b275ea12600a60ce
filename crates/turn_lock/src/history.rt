//! What lies in the lock, and what a pass knows of it. All but `Home` stands in contracts alone.

use std::collections::LinkedList;

/// What lies in the lock: the value, and how many numbers were given out.
#[derive(Drop)]
pub struct Home<C> {
    pub given: u64,
    pub value: C,
}

/// A turn that was made: under which number, and what it left.
pub struct Turn<C> {
    pub by: u64,
    pub value: C,
}

/// A beginning of the history, and numbers that have no turn past it.
pub struct Known<C> {
    pub seen: LinkedList<Turn<C>>,
    pub numbers: LinkedList<u64>,
}

/// Where a pass stands.
pub enum Stage<C> {
    Idle,
    /// It has drawn this ticket.
    Waits(u64),
    /// The ticket is served; the pass has found this in the lock, or is about to leave it there.
    InTurn(u64, Home<C>),
}

/// What a pass knows.
pub struct View<C> {
    /// The value that the lock was made with; none where another pass has taken this one in.
    pub opening: Option<C>,
    /// The beginning of the history that it has seen.
    pub seen: LinkedList<Turn<C>>,
    /// What the one of two passes knew that had seen less, since the last join and until the next ticket.
    pub beside: Known<C>,
    /// Its own number first, then those of the passes that it took in.
    pub numbers: LinkedList<u64>,
    pub stage: Stage<C>,
    /// So many numbers were given out, as it knows, or more.
    pub given: u64,
}
