//! The rule of the lock.
ghost use Rattle.turn_lock.specs.Rule.{Kept, first_view};

use crate::booked::Booked;
use crate::history::{Home, View};
use atomic_table::TableRule;
use std::snapshot::Snapshot;

/// What holds of words, slot and passes at every moment. The key is the value that the lock was made with.
pub struct TurnRule;

impl<C: Booked> TableRule<Option<Home<C>>, View<C>, Snapshot<C>> for TurnRule {
    ghost holds = { λ key. Kept C.makes C.lines key.value };

    ghost first = { λ key. first_view key.value };
}
