//! `Woken`: the first of the pairs that an entry made Ready again.

ghost use Rattle.std.specs.Prelude.{◌≡◌, ◌≤◌, ◌++◌, ◌∷◌, [], IfOk, length, take};

use gk_base::NoMemory;
use std::alloc::Global;
use std::marker::Model;

/// The first of the pairs that an identification made Ready again, as many as there is room for: hints where a search
/// may find something now. Only `new` takes memory.
#[derive(Drop)]
pub struct Woken {
    pairs: Vec<u32>,
    room: u32,
}

impl Model for Woken {
    ghost use Rattle.std.specs.Prelude.{vec_capacity};
    ghost use Rattle.chase_core.specs.Noted.{Noted};
    ghost use Rattle.chase_core.specs.Inner.{IsNoted};

    ghost Value = { Noted };

    ghost view = { λ w. record { list = w.pairs.items; room = w.room } };

    ghost invariant = { λ w. IsNoted w.pairs.items w.room (vec_capacity w.pairs) };
}

impl Woken {
    /// No pairs, and room for this many.
    pub fn new(alloc: Global, room: u32) -> Result<Woken, NoMemory>
        ensures empty { IfOk result (λ w. w.list ≡ []) }
        ensures room { IfOk result (λ w. w.room ≡ room) }
    {
        Ok(Woken {
            pairs: Vec::with_capacity(alloc, room as usize)?,
            room,
        })
    }

    /// Drops all pairs; the room stays.
    pub fn clear(&mut self)
        ensures empty { self.new.list ≡ [] }
        ensures room { self.new.room ≡ self.old.room }
    {
        self.pairs.clear();
    }

    /// The pairs, by their numbers.
    pub fn list(&self) -> &[u32]
        ensures list { result.now ≡ self.now.list }
        ensures within { length self.now.list ≤ self.now.room }
    {
        &self.pairs
    }

    /// Adds a pair at the end where there is room, and else lets it go.
    pub(crate) fn note(&mut self, pair: u32)
        ensures list { self.new.list ≡ take self.old.room (self.old.list ++ pair ∷ []) }
        ensures room { self.new.room ≡ self.old.room }
    {
        if self.pairs.len() < self.room as usize {
            self.pairs.push_reserved(pair);
        }
    }
}
