//! A list of numbers that takes no memory once it is made.
ghost use Rattle.std.specs.Prelude.{◌≡◌, ◌++◌, ◌⊎◌, [], ◌∷◌, vec_capacity, IfOk};

use std::alloc::{AllocError, Global};
use turn_lock::Journaled;

/// Its base is its room, and its entries are the numbers.
#[derive(Drop)]
pub struct Numbers {
    pub list: Vec<u32>,
}

impl Journaled for Numbers {
    type Base = usize;

    type Item = u32;

    ghost base = { λ s. vec_capacity s.list };

    ghost entries = { λ s. s.list.items };

    fn count(&self) -> u64 {
        self.list.len() as u64
    }
}

impl Numbers {
    /// No numbers, with room for so many.
    pub fn new(alloc: Global, room: usize) -> Result<Numbers, AllocError>
        ensures { IfOk result (λ n. n.list.items ≡ []) }
    {
        Ok(Numbers {
            list: Vec::with_capacity(alloc, room)?,
        })
    }

    /// Adds a number, if there is room.
    pub fn add(&mut self, x: u32)
        ensures base { vec_capacity self.new.list ≡ vec_capacity self.old.list }
        ensures items { (self.new.list.items ≡ self.old.list.items) ⊎ (self.new.list.items ≡ self.old.list.items ++ x ∷ []) }
    {
        if self.list.len() < self.list.capacity() {
            self.list.push_reserved(x);
        }
    }
}
