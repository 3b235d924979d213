//! The rule of the lock's table.
ghost use Rattle.std.specs.Prelude.{◌≡◌};

use crate::Journaled;
use crate::view::View;
use atomic_table::TableRule;
use std::snapshot::Snapshot;

/// What the table is told when it is made: the value then, and the number of seats.
#[derive(Drop)]
pub struct About<T> {
    pub value: Snapshot<T>,
    pub seats: u64,
}

/// The rule: the words, the place of the value and what all seats know fit one history of entries.
pub struct Turns;

impl<T: Journaled> TableRule<Option<T>, View<T::Base, T::Item>, About<T>> for Turns {
    ghost use Rattle.turn_lock.specs.Turns.{Ruled, fresh};

    ghost holds = { λ about. Ruled T.base T.entries about.value.value about.seats };

    ghost first = { λ about. fresh about.seats (T.base about.value.value) (T.entries about.value.value) };
}
