//! A collection that runs.

use gc_enumerate::Live;
use gc_select::Liveness;
use gc_sweep::Sweep;

/// Where a collection is: what its next step does.
#[derive(Clone, Copy)]
pub enum Stage {
    /// It scans the container of a slot for the nodes of a level.
    Mark { level: u8, slot: u32 },
    /// It records how much of the container of a slot is live.
    Filter { slot: u32 },
    /// It chooses the sources.
    Select,
    /// It does what comes next in the sweep.
    Sweep,
}

/// A collection that runs. Containers with an id below `snapshot` were there when it began; no other is scanned or given back.
#[derive(Drop)]
pub struct Collection {
    /// The next container id when it began.
    pub snapshot: u64,
    /// A container of which a smaller part than this percentage is live is a source, as is one of which nothing is.
    pub percent: u8,
    /// Which keys are live.
    pub live: Live,
    /// How much of each container is live, as far as that was recorded.
    pub liveness: Liveness,
    /// What the next step does.
    pub stage: Stage,
    /// The sweep of the sources, once they are chosen; before, one of none.
    pub sweep: Sweep,
}
