//! How much was found.
ghost use Rattle.std.specs.Prelude.{◌≡◌};
ghost use Rattle.inspection.specs.Handing.{Rises};

/// How much was found. A count stands still at its type's end.
#[derive(Clone, Copy)]
pub struct Tally {
    /// The cells and headers with open gates.
    pub cells: u64,
    /// The entries of right headers.
    pub copies: u64,
    /// The damages.
    pub bad: u64,
}

/// A count that rises by one.
pub(crate) fn one_more(count: u64) -> u64
    ensures { Rises 1 count result }
{
    count.saturating_add(1)
}
