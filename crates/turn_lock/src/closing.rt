//! How a lock is taken apart.
ghost use Rattle.std.specs.Prelude.{◌≡◌, ℕ, ◌+◌, ◌<◌, ◌≤◌, [], length, vec_len, slice_get, Some};
ghost use Rattle.turn_lock.specs.declared.view.Stage.TheVariants.{Idle};
ghost use Rattle.turn_lock.specs.Turns.{Ends};
ghost use Rattle.turn_lock.specs.Lists.{StartsWith};
ghost use Rattle.turn_lock.specs.Handles.{AllOut, AreSharedOut, Gathers, IsRightFor, seats_of, opened, entries_at_opening};

use crate::Journaled;
use crate::handles::{Pass, TurnLock};
use crate::steps::JoinSeat;
use crate::view::View;
use atomic_table::Seat;

impl<T: Journaled> TurnLock<T> {
    /// Takes the value out, once every pass is back and none has a turn. It is right for each of them, and each entry
    /// that came under the lock is the one of exactly one pass.
    pub fn close(self, passes: Vec<Pass<T>>) -> T
        requires seats { (0 < seats_of self) × (length passes.items ≡ seats_of self) }
        requires passes { AllOut self passes.items }
        ensures base { T.base result ≡ T.base (opened self) }
        ensures grown { StartsWith (T.entries result) (T.entries (opened self)) }
        ensures right { (k : ℕ) (p : _) → slice_get passes.items k ≡ Some p → IsRightFor T.base T.entries p result }
        ensures places { AreSharedOut (entries_at_opening T.entries self) (length (T.entries result)) passes.items }
    {
        let seat = self.gather(passes);
        self.finish(seat)
    }

    // One seat that has every part, and all that the passes knew.
    fn gather(&self, passes: Vec<Pass<T>>) -> Seat<Option<T>, View<T::Base, T::Item>>
        requires seats { (0 < seats_of self.now) × (length passes.items ≡ seats_of self.now) }
        requires passes { AllOut self.now passes.items }
        ensures seat { (result.table_id ≡ self.now.table.shared.table_id) × (result.me.0.stage ≡ Idle) × (result.me.0.parts ≡ seats_of self.now) }
        ensures gathered { Gathers passes.items [] result.me.0 }
    {
        let mut passes = passes;
        let Pass {
            number: _,
            ticket: _,
            seat: mut first,
        } = passes.pop().unwrap();
        while let Some(pass) = passes.pop() {
            let Pass {
                number: _,
                ticket: _,
                seat,
            } = pass;
            self.table.shared.join_seat::<JoinSeat>(&mut first, seat);
        }
        first
    }

    // The value, out of a lock whose table one seat has to itself.
    fn finish(self, seat: Seat<Option<T>, View<T::Base, T::Item>>) -> T
        requires seat { (seat.table_id ≡ self.table.shared.table_id) × (seat.me.0.stage ≡ Idle) × (seat.me.0.parts ≡ seats_of self) }
        requires seats { 0 < seats_of self }
        ensures { Ends T.base T.entries (opened self) seat.me.0 result }
    {
        let TurnLock {
            table,
            seats: _,
            asleep: _,
        } = self;
        let mut closed = table.close_with(seat);
        let value = closed.take(0);
        closed.free();
        value.unwrap()
    }
}
