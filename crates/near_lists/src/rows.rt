//! Many lists in one array. A list takes 8 bytes and a number 4.

ghost use Rattle.std.specs.Prelude.{[], ◌∷◌, ◌++◌, ◌≡◌, ◌<◌, ◌≤◌, IfOk, OnErr, OnOk, length, slice_range};
ghost use Rattle.std.specs.List.{concat};
ghost use Rattle.list_pool.specs.Pool.{list_at};

use gk_base::NoMemory;
use std::alloc::Global;
use std::marker::Model;

/// Lists of numbers one behind the other, with the place where each begins, and the end. Contracts see the lists.
#[derive(Drop)]
pub struct Rows {
    pub(crate) starts: Vec<usize>,
    pub(crate) items: Vec<u32>,
}

impl Model for Rows {
    ghost use Rattle.std.specs.Prelude.{List, ℕ};
    ghost use Rattle.near_lists.specs.Lists.{cut, AreStarts};

    ghost Value = { List (List ℕ) };

    ghost view = { λ r. cut r.starts.items r.items.items };

    ghost invariant = { λ r. AreStarts r.starts.items r.items.items };
}

/// The numbers from a place up to another.
fn part(items: &[u32], start: usize, end: usize) -> &[u32]
    requires start { start ≤ end }
    requires end { end ≤ length items.now }
    ensures { result.now ≡ slice_range items.now start end }
{
    &items[start..end]
}

impl Rows {
    /// No lists.
    pub(crate) fn new(alloc: Global) -> Result<Rows, NoMemory>
        ensures { IfOk result (λ r. r ≡ []) }
    {
        let mut starts = Vec::new(alloc);
        starts.push(0)?;
        Ok(Rows {
            starts,
            items: Vec::new(alloc),
        })
    }

    /// Takes all lists out. The memory is kept.
    pub(crate) fn clear(&mut self)
        ensures { self.new ≡ [] }
    {
        self.starts.truncate(1);
        self.items.clear();
    }

    /// How many lists there are.
    pub fn len(&self) -> usize
        ensures { result ≡ length self.now }
    {
        self.starts.len() - 1
    }

    /// The list at a place.
    pub fn of(&self, list: usize) -> &[u32]
        requires { list < length self.now }
        ensures { result.now ≡ list_at self.now list }
    {
        let start = self.starts[list];
        let end = self.starts[list + 1];
        part(&self.items, start, end)
    }

    /// The numbers of all lists.
    pub(crate) fn items(&self) -> &[u32]
        ensures { result.now ≡ concat self.now }
    {
        &self.items
    }

    /// Adds a list at the end. After want of memory the lists are as before.
    pub(crate) fn push(&mut self, list: &[u32]) -> Result<(), NoMemory>
        ensures ok { OnOk result (self.new ≡ self.old ++ list.now ∷ []) }
        ensures err { OnErr result (self.new ≡ self.old) }
    {
        self.starts.reserve(1)?;
        self.items.extend_from_slice(list)?;
        let end = self.items.len();
        self.starts.push_reserved(end);
        Ok(())
    }
}
