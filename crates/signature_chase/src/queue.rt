//! Groups that wait to be looked at.

ghost use Rattle.std.specs.Prelude.{[], ◌∷◌, ◌≡◌, ◌<◌, ◌≤◌, ℕ, Contains, IfOk, IfSome, MatchOption, length};
ghost use Rattle.std.specs.List.{range_with_len};
ghost use Rattle.list_pool.specs.Pool.{list_at};

use gk_base::NoMemory;
use list_pool::Pool;
use std::alloc::Global;
use std::marker::Model;

/// The groups that wait to be looked at, each once, in the order in which they came. Contracts see their numbers in
/// order, and how many groups there are, waiting or not. Only `full` takes memory.
#[derive(Drop)]
pub struct Queue {
    pool: Pool,
}

impl Model for Queue {
    ghost use Rattle.std.specs.Prelude.{◌≡◌, length};
    ghost use Rattle.list_pool.specs.Pool.{list_at};
    ghost use Rattle.signature_chase.specs.Waiting.{Waiting};

    ghost Value = { Waiting };

    ghost view = { λ q. record { list = list_at q.pool.lists 0; count = q.pool.cells } };

    ghost invariant = { λ q. length q.pool.lists ≡ 1 };
}

/// A pool with one list of all its cells, ascending.
fn all_waiting(alloc: Global, count: u32) -> Result<Pool, NoMemory>
    ensures lists { IfOk result (λ p. length p.lists ≡ 1) }
    ensures list { IfOk result (λ p. list_at p.lists 0 ≡ range_with_len 0 count) }
    ensures cells { IfOk result (λ p. p.cells ≡ count) }
{
    let mut pool = Pool::new(alloc, count, 1)?;
    for group in 0..count {
        pool.push_back(0, group);
    }
    Ok(pool)
}

/// Takes the first cell out of the only list of a pool.
fn take_first(pool: &mut Pool) -> Option<u32>
    requires { length pool.old.lists ≡ 1 }
    ensures first { MatchOption result (list_at pool.old.lists 0 ≡ []) (λ g. list_at pool.old.lists 0 ≡ g ∷ list_at pool.new.lists 0) }
    ensures group { IfSome result (λ g. g < pool.old.cells) }
    ensures lists { length pool.new.lists ≡ 1 }
    ensures cells { pool.new.cells ≡ pool.old.cells }
{
    // Its contract says that each cell in a list is one of the pool's.
    let _ = pool.first(0);
    pool.pop_front(0)
}

/// Puts a cell to the end of the only list of a pool, unless it stands there already.
fn put_once(pool: &mut Pool, cell: u32)
    requires lists { length pool.old.lists ≡ 1 }
    requires cell { cell < pool.old.cells }
    ensures waits { Contains (list_at pool.new.lists 0) cell }
    ensures kept { (g : ℕ) → Contains (list_at pool.old.lists 0) g → Contains (list_at pool.new.lists 0) g }
    ensures lists { length pool.new.lists ≡ 1 }
    ensures cells { pool.new.cells ≡ pool.old.cells }
{
    if !pool.is_free(cell) {
        return;
    }
    pool.push_back(0, cell);
}

impl Queue {
    /// A queue in which so many groups wait, all that there are, in ascending order.
    pub fn full(alloc: Global, count: u32) -> Result<Queue, NoMemory>
        ensures list { IfOk result (λ q. q.list ≡ range_with_len 0 count) }
        ensures count { IfOk result (λ q. q.count ≡ count) }
    {
        let pool = all_waiting(alloc, count)?;
        Ok(Queue { pool })
    }

    /// Takes the first group out, and none exactly where none waits.
    pub fn pop(&mut self) -> Option<u32>
        ensures first { MatchOption result (self.old.list ≡ []) (λ g. self.old.list ≡ g ∷ self.new.list) }
        ensures group { IfSome result (λ g. g < self.old.count) }
        ensures count { self.new.count ≡ self.old.count }
    {
        take_first(&mut self.pool)
    }

    /// Lets a group wait, last of all, unless it waits already.
    pub fn push(&mut self, group: u32)
        requires { group < self.old.count }
        ensures waits { Contains self.new.list group }
        ensures kept { (g : ℕ) → Contains self.old.list g → Contains self.new.list g }
        ensures count { self.new.count ≡ self.old.count }
    {
        put_once(&mut self.pool, group);
    }

    /// Says for proofs that no more groups wait than there are. It does nothing.
    pub fn listed(&self)
        ensures { length self.now.list ≤ self.now.count }
    {
        let _ = self.pool.spare();
    }
}
