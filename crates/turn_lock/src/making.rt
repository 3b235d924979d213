//! How a lock is made, with a pass for each seat.
ghost use Rattle.std.specs.Prelude.{◌≡◌, ℕ, ◌+◌, ◌-◌, ◌++◌, ◌^◌, ◌<◌, ◌≤◌, [], ◌∷◌, length, vec_len, vec_capacity, slice_get, Some, IfOk, IfErr};
ghost use Rattle.turn_lock.specs.Turns.{fresh};
ghost use Rattle.turn_lock.specs.Handles.{AllOut, IsNew, seats_of, opened};

use crate::Journaled;
use crate::handles::{Pass, TurnLock};
use crate::rule::{About, Turns};
use crate::serving::{COUNT, WORDS};
use crate::steps::SplitSeat;
use crate::view::View;
use atomic_table::{Refused, Seat, Table};
use gk_base::NoMemory;
use std::alloc::Global;
use std::snapshot::Snapshot;
use std::sync::atomic::AtomicU64;

impl<T: Journaled> TurnLock<T> {
    /// A lock over the value, with a pass for each seat, numbered from 0 in this order. Each pass has seen the
    /// entries that the value has now, has no entries of its own and no turn. With `NoMemory` the value comes back as
    /// it was; no later call takes any memory.
    pub fn new(
        alloc: Global,
        value: T,
        seats: u32,
    ) -> Result<(TurnLock<T>, Vec<Pass<T>>), (T, NoMemory)>
        requires seats { 0 < seats }
        requires room { length (T.entries value) < 2 ^ 64 }
        ensures lock { IfOk result (λ r. (seats_of r.0 ≡ seats) × (opened r.0 ≡ value)) }
        ensures passes { IfOk result (λ r. (length r.1.items ≡ seats) × AllOut r.0 r.1.items) }
        ensures new { IfOk result (λ r. (k : ℕ) (p : _) → slice_get r.1.items k ≡ Some p → IsNew T.base T.entries value k p) }
        ensures err { IfErr result (λ e. e.0 ≡ value) }
    {
        let Ok(mut passes) = Vec::with_capacity(alloc, seats as usize) else {
            return Err((value, NoMemory));
        };
        let Ok(mut slots) = Vec::with_capacity(alloc, 1) else {
            return Err((value, NoMemory));
        };
        let mut words = [0; WORDS];
        words[COUNT] = value.count();
        let about = About {
            value: Snapshot::of(&value),
            seats: u64::from(seats),
        };
        slots.push_reserved(Some(value));
        match Table::new(alloc, &words, slots, &about) {
            Ok((table, seat)) => {
                let asleep = AtomicU64::new(0);
                let lock = TurnLock {
                    table,
                    seats,
                    asleep,
                };
                lock.hand_out(seat, &mut passes);
                Ok((lock, passes))
            }
            Err(Refused { mut slots }) => {
                let value = slots.pop().unwrap().unwrap();
                slots.destroy_empty();
                Err((value, NoMemory))
            }
        }
    }

    // Splits the first seat into as many passes as there are seats.
    fn hand_out(&self, seat: Seat<Option<T>, View<T::Base, T::Item>>, passes: &mut Vec<Pass<T>>)
        requires seats { 0 < seats_of self.now }
        requires seat { (seat.table_id ≡ self.now.table.shared.table_id) × (seat.me ≡ (fresh (seats_of self.now) (T.base (opened self.now)) (T.entries (opened self.now)), [])) }
        requires room { (vec_len passes.old ≡ 0) × (seats_of self.now ≤ vec_capacity passes.old) }
        ensures count { length passes.new.items ≡ seats_of self.now }
        ensures passes { AllOut self.now passes.new.items }
        ensures new { (k : ℕ) (p : _) → slice_get passes.new.items k ≡ Some p → IsNew T.base T.entries (opened self.now) k p }
    {
        let mut seat = seat;
        for number in 0..self.seats - 1 {
            let next = self.table.shared.split_seat::<SplitSeat>(&mut seat);
            passes.push_reserved(Pass {
                number,
                ticket: 0,
                seat,
            });
            seat = next;
        }
        passes.push_reserved(Pass {
            number: self.seats - 1,
            ticket: 0,
            seat,
        });
    }
}
