//! What each kind of step on the table tells. These types are for the proofs alone.
ghost use Rattle.turn_lock.specs.Turns.{drew, looked, counted, released, glanced, first_of, second_of, joined_of, spent};

use crate::Journaled;
use crate::view::View;
use atomic_table::{Join, Play, Split};

/// A ticket is drawn.
pub(crate) struct Draw;

impl<T: Journaled> Play<Option<T>, View<T::Base, T::Item>> for Draw {
    ghost then = { drew };
}

/// A ticket is compared with the one that was called last at its word. Where it is the one, the value is taken.
pub(crate) struct Look;

impl<T: Journaled> Play<Option<T>, View<T::Base, T::Item>> for Look {
    ghost then = { looked T.base T.entries };
}

/// The number of entries is stored, with the value back in the slot.
pub(crate) struct CountUp;

impl<T: Journaled> Play<Option<T>, View<T::Base, T::Item>> for CountUp {
    ghost then = { counted T.entries };
}

/// The value is given back, and the next ticket is called.
pub(crate) struct Release;

impl<T: Journaled> Play<Option<T>, View<T::Base, T::Item>> for Release {
    ghost then = { released };
}

/// The number of entries is read, by any pass at any time.
pub(crate) struct Glance;

impl<T: Journaled> Play<Option<T>, View<T::Base, T::Item>> for Glance {
    ghost then = { glanced };
}

/// A seat is split in two.
pub(crate) struct SplitSeat;

impl<B, I> Split<View<B, I>> for SplitSeat {
    ghost left = { first_of };

    ghost right = { second_of };
}

/// A seat is joined into another.
pub(crate) struct JoinSeat;

impl<B, I> Join<View<B, I>> for JoinSeat {
    ghost both = { joined_of };

    ghost spent = { spent };
}
