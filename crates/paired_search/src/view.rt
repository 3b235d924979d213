//! A view: names with the labels that they had, and the look-up of a name in it.

ghost use Rattle.std.specs.Prelude.{◌≡◌, ◌<◌, ◌≤◌, ◌++◌, [], ◌∷◌, ℕ, All, IfOk, Some, length, slice_get, slice_index};
ghost use Rattle.chase_laws.specs.View.{label_in, same_by};
ghost use Rattle.paired_search.specs.Held.{Ascends};
ghost use Rattle.paired_search.specs.Kept.{IsCountBelow};

use crate::Sameness;
use gk_base::NoMemory;
use std::alloc::Global;
use std::marker::Model;

/// Names with the labels that they had at some time, ascending by name. Two names are the same by a view where they
/// are equal, or both stand in it with equal labels. Contracts see the list of names with labels, and for how many
/// there is room. Only `new` takes memory.
#[derive(Drop)]
pub struct View {
    pairs: Vec<(u32, u32)>,
    room: u32,
    /// Whether each name has itself for its label. Then no two are the same, and none is looked up.
    own: bool,
}

impl Model for View {
    ghost use Rattle.std.specs.Prelude.{length, vec_capacity, ◌≤◌};
    ghost use Rattle.paired_search.specs.Held.{Held, Ascends};
    ghost use Rattle.paired_search.specs.Kept.{IsView};

    ghost Value = { Held };

    ghost view = { λ v. record { pairs = v.pairs.items; room = v.room } };

    ghost invariant = { λ v. IsView v.pairs.items v.room (vec_capacity v.pairs) v.own };
}

/// How many of the names are below `node`.
fn count_below(pairs: &[(u32, u32)], node: u32) -> usize
    requires { Ascends pairs.now }
    ensures { IsCountBelow pairs.now node result }
{
    pairs.partition_point(|pair| pair.0 < node)
}

/// The label of a name, where it stands there. It is found at once where every name up to it has its own place.
fn find(pairs: &[(u32, u32)], node: u32) -> Option<u32>
    requires { Ascends pairs.now }
    ensures { result ≡ label_in pairs.now node }
{
    let own = node as usize;
    if own < pairs.len() && pairs[own].0 == node {
        return Some(pairs[own].1);
    }
    let place = count_below(pairs, node);
    if place < pairs.len() && pairs[place].0 == node {
        return Some(pairs[place].1);
    }
    None
}

impl View {
    /// An empty view with room for this many names.
    pub fn new(alloc: Global, room: u32) -> Result<View, NoMemory>
        ensures empty { IfOk result (λ v. v.pairs ≡ []) }
        ensures room { IfOk result (λ v. v.room ≡ room) }
    {
        Ok(View {
            pairs: Vec::with_capacity(alloc, room as usize)?,
            room,
            own: true,
        })
    }

    /// Drops all names; the room stays.
    pub fn clear(&mut self)
        ensures empty { self.new.pairs ≡ [] }
        ensures room { self.new.room ≡ self.old.room }
    {
        self.pairs.clear();
        self.own = true;
    }

    /// Adds a name with its label. There has to be room, and the name has to be above the last one.
    pub fn push(&mut self, node: u32, label: u32)
        requires room { length self.old.pairs < self.old.room }
        requires above { All (λ p. p.0 < node) self.old.pairs }
        ensures pairs { self.new.pairs ≡ self.old.pairs ++ (node, label) ∷ [] }
        ensures room { self.new.room ≡ self.old.room }
    {
        self.own = self.own && node == label;
        self.pairs.push_reserved((node, label));
    }

    /// The label of a name; None exactly where the name does not stand in the view.
    pub fn label(&self, node: u32) -> Option<u32>
        ensures { result ≡ label_in self.now.pairs node }
    {
        find(&self.pairs, node)
    }

    /// How many names there are: not more than there is room for.
    pub fn len(&self) -> u32
        ensures length { result ≡ length self.now.pairs }
        ensures within { result ≤ self.now.room }
        ensures ascends { Ascends self.now.pairs }
    {
        self.pairs.len() as u32
    }

    /// The name at a place, and its label.
    pub fn at(&self, place: u32) -> (u32, u32)
        requires { place < length self.now.pairs }
        ensures { slice_get self.now.pairs place ≡ Some result }
    {
        self.pairs[place as usize]
    }

    /// For how many names there is room.
    pub fn room(&self) -> u32
        ensures { result ≡ self.now.room }
    {
        self.room
    }

    /// Whether two names are the same by the view.
    pub fn same(&self, m: u32, n: u32) -> bool
        ensures { result ≡ same_by self.now.pairs m n }
    {
        if m == n {
            return true;
        }
        if self.own {
            return false;
        }
        match (self.label(m), self.label(n)) {
            (Some(k), Some(l)) => k == l,
            _ => false,
        }
    }
}

impl Sameness for View {
    ghost are_same = { λ v. same_by v.pairs };

    fn same(&self, m: u32, n: u32) -> bool {
        View::same(self, m, n)
    }
}
