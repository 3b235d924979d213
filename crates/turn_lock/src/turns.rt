//! What a pass does: enter, leave, and look at the number of entries.
ghost use Rattle.std.specs.Prelude.{◌≡◌, ℕ, ◌+◌, ◌-◌, ◌++◌, ◌%◌, ◌^◌, ◌<◌, ◌≤◌, [], ◌∷◌, length, Some, None};
ghost use Rattle.turn_lock.specs.declared.view.Stage.TheVariants.{Idle, Waiting, Inside};
ghost use Rattle.turn_lock.specs.Lists.{StartsWith, places};
ghost use Rattle.turn_lock.specs.Serving as words;
ghost use Rattle.turn_lock.specs.Turns.{Came, IsRight, turned_to, counted_to, at_stage};
ghost use Rattle.turn_lock.specs.Handles.{IsPassOf, IsOut, IsIn, IsSamePass, IsRightFor, HoldsOwn, MayFollow, seen, mine, floor};

use crate::Journaled;
use crate::handles::{Pass, Turn, TurnLock};
use crate::serving::{COUNT, TICKET, serving_word};
use crate::steps::{CountUp, Draw, Glance, Look, Release};
use crate::view::View;
use atomic_table::Seat;
use std::hint;
use std::sync::Wait;
use std::sync::atomic::Ordering;

// How often a thread that waits looks before it sleeps. A sleep and a wake take longer than most turns.
const LOOKS: u32 = 2000;

impl<T: Journaled> TurnLock<T> {
    /// The number of entries, with or without a turn; it waits for nobody. It is at least the number of entries seen
    /// and at least what an earlier glance of this pass answered. It is the pass's floor from then on, and nothing
    /// else of the pass changes.
    pub fn glance(&self, pass: &mut Pass<T>) -> u64
        requires { IsPassOf self.now pass.old }
        ensures pass { IsPassOf self.now pass.new }
        ensures same { IsSamePass pass.old pass.new }
        ensures turn { (IsOut pass.old → IsOut pass.new) × (IsIn pass.old → IsIn pass.new) }
        ensures raised { (floor pass.new ≡ result) × (floor pass.old ≤ result) × (length (seen pass.old) ≤ result) }
        ensures kept { (seen pass.new ≡ seen pass.old) × (mine pass.new ≡ mine pass.old) }
    {
        self.table.shared.load::<Glance>(&mut pass.seat, COUNT)
    }

    /// Waits until it is this pass's turn. The value has the pass's base, begins with the entries that the pass had
    /// seen, has at least `floor` entries, and has the pass's own ones where it put them. Its entries are what the
    /// pass has seen from then on.
    pub fn enter<R: Wait>(&self, rt: &R, pass: &mut Pass<T>) -> Turn<T>
        requires lock { IsPassOf self.now pass.old }
        requires out { IsOut pass.old }
        ensures turn { IsIn pass.new }
        ensures pass { IsPassOf self.now pass.new }
        ensures same { IsSamePass pass.old pass.new }
        ensures right { IsRightFor T.base T.entries pass.old result.value }
        ensures own { HoldsOwn T.entries pass.old result.value }
        ensures few { length (T.entries result.value) < 2 ^ 64 }
        ensures seen { (seen pass.new ≡ T.entries result.value) × (mine pass.new ≡ mine pass.old) × (floor pass.new ≡ floor pass.old) }
    {
        let (ticket, value) = self.take(rt, &mut pass.seat);
        pass.ticket = ticket;
        Turn { value }
    }

    /// Gives the value back and ends the turn. The value's base is the same and its entries begin with those that
    /// `enter` found; the pass has seen all of them then, and those that came in this turn are its own.
    pub fn leave(&self, turn: Turn<T>, pass: &mut Pass<T>)
        requires lock { IsPassOf self.now pass.old }
        requires turn { IsIn pass.old }
        requires value { MayFollow T.base T.entries pass.old turn.value }
        ensures out { IsOut pass.new }
        ensures pass { IsPassOf self.now pass.new }
        ensures same { IsSamePass pass.old pass.new }
        ensures seen { (seen pass.new ≡ T.entries turn.value) × (floor pass.new ≡ floor pass.old) }
        ensures mine { mine pass.new ≡ mine pass.old ++ places (length (seen pass.old)) (length (T.entries turn.value) - length (seen pass.old)) }
    {
        let Turn { value } = turn;
        let ticket = pass.ticket;
        self.put(ticket, value, &mut pass.seat);
    }

    // Draws a ticket, waits until it is called, and takes the value out of the slot.
    fn take<R: Wait>(&self, rt: &R, seat: &mut Seat<Option<T>, View<T::Base, T::Item>>) -> (u64, T)
        requires seat { (seat.old.table_id ≡ self.now.table.shared.table_id) × (0 < seat.old.me.0.parts) }
        requires out { (seat.old.me.0.stage ≡ Idle) × (seat.old.me.1 ≡ []) }
        ensures table { seat.new.table_id ≡ seat.old.table_id }
        ensures me { (t : ℕ) × (result.0 ≡ t % 2 ^ 64) × (seat.new.me ≡ (turned_to seat.old.me.0 t (T.entries result.1), (0, None) ∷ [])) }
        ensures right { IsRight (T.base result.1) (T.entries result.1) seat.old.me.0.own }
        ensures few { length (T.entries result.1) < 2 ^ 64 }
    {
        let ticket = self.table.shared.fetch_add::<Draw>(seat, TICKET, 1);
        self.wait_for(rt, seat, ticket);
        let value = self.table.shared.exchange(seat, 0, None).unwrap();
        (ticket, value)
    }

    // Waits until the ticket is called, and takes the slot.
    fn wait_for<R: Wait>(
        &self,
        rt: &R,
        seat: &mut Seat<Option<T>, View<T::Base, T::Item>>,
        ticket: u64,
    )
        requires seat { (seat.old.table_id ≡ self.now.table.shared.table_id) × (0 < seat.old.me.0.parts) }
        requires ticket { (t : ℕ) × (seat.old.me.0.stage ≡ Waiting t) × (ticket ≡ t % 2 ^ 64) }
        ensures table { seat.new.table_id ≡ seat.old.table_id }
        ensures came { (t : ℕ) × (ticket ≡ t % 2 ^ 64) × Came T.base T.entries t seat.old.me seat.new.me }
    {
        let word = serving_word(ticket);
        let mut looks = 0;
        for _ in rt.forever() {
            let called = self.table.shared.load::<Look>(seat, word);
            if called == ticket {
                return;
            }
            looks = self.pause(rt, looks, word, called);
        }
        unreachable!()
    }

    // After few looks only a moment, and else a sleep until the word changes, after which looks are counted anew. Who
    // calls a ticket stores it and then reads `asleep`, and a sleeper raises that before the word is compared: so
    // either the sleeper is woken, or it finds the word changed and does not sleep.
    fn pause<R: Wait>(&self, rt: &R, looks: u32, word: usize, called: u64) -> u32
        requires { word < 528 }
    {
        if looks < LOOKS {
            hint::spin_loop();
            return looks + 1;
        }
        self.asleep.fetch_add(1, Ordering::SeqCst);
        self.table
            .shared
            .park(rt, word, (called % (1 << 32)) as u32);
        self.asleep.fetch_sub(1, Ordering::SeqCst);
        0
    }

    // Puts the value into the slot, stores the number of its entries, calls the next ticket, and wakes who has it.
    fn put(&self, ticket: u64, value: T, seat: &mut Seat<Option<T>, View<T::Base, T::Item>>)
        requires seat { (seat.old.table_id ≡ self.now.table.shared.table_id) × (0 < seat.old.me.0.parts) }
        requires inside { ((t : ℕ) × (seat.old.me.0.stage ≡ Inside t) × (ticket ≡ t % 2 ^ 64)) × (seat.old.me.1 ≡ (0, None) ∷ []) }
        requires value { (Some (T.base value) ≡ seat.old.me.0.own.base) × StartsWith (T.entries value) seat.old.me.0.own.seen × (length (T.entries value) < 2 ^ 64) }
        ensures table { seat.new.table_id ≡ seat.old.table_id }
        ensures me { seat.new.me ≡ (at_stage (counted_to seat.old.me.0 (T.entries value)) Idle, []) }
    {
        let count = value.count();
        match self.table.shared.exchange(seat, 0, Some(value)) {
            None => {}
            Some(_) => unreachable!(),
        }
        self.table.shared.store::<CountUp>(seat, COUNT, count);
        let next = ticket.wrapping_add(1);
        let word = serving_word(next);
        self.table.shared.store::<Release>(seat, word, next);
        if self.asleep.load(Ordering::SeqCst) > 0 {
            self.table.shared.wake_all(word);
        }
    }
}
