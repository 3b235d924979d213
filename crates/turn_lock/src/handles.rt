//! The lock, its passes and its turns.
ghost use Rattle.std.specs.Prelude.{◌≡◌};

use crate::Journaled;
use crate::rule::{About, Turns};
use crate::view::View;
use atomic_table::{Seat, Table};
use std::alloc::Global;
use std::sync::atomic::AtomicU64;

/// What threads share. It is seen as itself, its number of seats, and the value that it was made with.
pub struct TurnLock<T: Journaled> {
    pub(crate) table: Table<Option<T>, View<T::Base, T::Item>, About<T>, Turns, Global>,
    pub(crate) seats: u32,
    /// How many sleep, or are about to. No clause speaks of it.
    pub(crate) asleep: AtomicU64,
    ghost sized: { (table.shared.table_id.words ≡ 528) × (table.shared.table_id.slots ≡ 1) × (table.shared.key.seats ≡ seats) },
}

/// The right of one holder to enter. It is seen as its lock, its number, whether it has a turn, the base of the value,
/// the entries seen, the places of its own entries, and the floor below which no glance falls. Let a pass fall, and
/// its lock can't be closed any more.
#[derive(Drop)]
pub struct Pass<T: Journaled> {
    pub(crate) number: u32,
    /// The ticket drawn last.
    pub(crate) ticket: u64,
    pub(crate) seat: Seat<Option<T>, View<T::Base, T::Item>>,
}

/// The value, while its holder has the turn. Only `TurnLock::leave` ends it.
pub struct Turn<T: Journaled> {
    pub(crate) value: T,
}
