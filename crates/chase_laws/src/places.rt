//! Short lists of numbers.

ghost use Rattle.std.specs.Prelude.{◌≡◌, ◌<◌, ◌≤◌, ◌-◌, ◌↔◌, [], ◌∷◌, ◌++◌, length, take, slice_index, IsTrue};

use std::marker::Model;

/// A list of at most 16 numbers, which is copied as a whole: one name for each slot of a pattern. Contracts see it as
/// the list.
#[derive(Clone, Copy)]
pub struct Places {
    items: [u32; 16],
    len: u8,
}

impl Model for Places {
    ghost use Rattle.std.specs.Prelude.{List, ℕ, ◌≡◌, ◌≤◌, ◌-◌, ◌++◌, length, take, replicate};
    ghost use Rattle.chase_laws.specs.Padded.{padded_again};

    ghost Value = { List ℕ };

    ghost view = { λ p. take p.len p.items };

    ghost invariant = { λ p. (p.len ≤ 16) × (p.items ≡ take p.len p.items ++ replicate (16 - p.len) 0) × (length p.items ≡ 16) };

    ghost inverse = { λ l. record { items = l ++ replicate (16 - length l) 0; len = length l } };

    ghost inverse_ok = { λ p h. padded_again p h };
}

impl Places {
    /// No numbers.
    pub fn empty() -> Places
        ensures { result ≡ [] }
    {
        Places {
            items: [0; 16],
            len: 0,
        }
    }

    /// How many numbers there are: at most 16.
    pub fn len(&self) -> usize
        ensures length { result ≡ length self.now }
        ensures few { result ≤ 16 }
    {
        self.len as usize
    }

    /// Whether there is no number.
    pub fn is_empty(&self) -> bool
        ensures { IsTrue result ↔ (self.now ≡ []) }
    {
        self.len == 0
    }

    /// Adds a number at the end.
    pub fn push(&mut self, place: u32)
        requires { length self.old < 16 }
        ensures { self.new ≡ self.old ++ place ∷ [] }
    {
        self.items[self.len as usize] = place;
        self.len += 1;
    }

    /// Takes the last number away.
    pub fn pop(&mut self)
        requires { 0 < length self.old }
        ensures { self.new ≡ take (length self.old - 1) self.old }
    {
        self.len -= 1;
        self.items[self.len as usize] = 0;
    }

    /// The number at a slot.
    pub fn get(&self, slot: usize) -> u32
        requires { slot < length self.now }
        ensures { result ≡ slice_index self.now slot }
    {
        let items = &self.items;
        items[slot]
    }
}
