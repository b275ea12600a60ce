//! Which step of the store is due.
ghost use Rattle.std.specs.Prelude.{◌≡◌};
ghost use Rattle.actor_parts.specs.Segments.{child_kind as kind_below};

use container_meta::Kind;

/// The step of the store that a session needs next.
#[derive(Clone, Copy)]
pub enum Due {
    /// A claim of the segment whose turn it is: `Session::offered`.
    Claim,
    /// A seal of containers of a kind: `Session::filled`.
    Seal(Kind),
    /// No step. Before `finish` more bytes are to come; after it the steps of the file are made.
    Nothing,
}

/// The kind of the children of a node of a level.
pub(crate) fn child_kind(level: u8) -> Kind
    ensures { result ≡ kind_below level }
{
    if level == 1 { Kind::Leaf } else { Kind::Tree }
}
