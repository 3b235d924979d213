//! `PairTable`: where each pair stands, and the list of those that are Ready.

ghost use Rattle.std.specs.Prelude.{◌≡◌, ◌≢◌, ◌<◌, ◌++◌, ◌∷◌, [], IfOk, Some, length, replicate, slice_get, slice_set};
ghost use Rattle.std.specs.List.{range_with_len};
ghost use Rattle.chase_laws.specs.declared.pair_state.PairState.TheVariants as state;
ghost use Rattle.list_pool.specs.Pool.{list_at, without};
ghost use Rattle.chase_core.specs.Table.{IsReadyList};
ghost use Rattle.chase_core.specs.Inner.{AreStandings};

use chase_laws::PairState;
use gk_base::NoMemory;
use list_pool::Pool;
use std::alloc::Global;
use std::marker::Model;

/// Where each pair of a chase stands, by its number, and a list of the pairs that are Ready, each once and no other.
/// Contracts see both. Each call but `new` takes constant time and no memory.
#[derive(Drop)]
pub struct PairTable {
    states: Vec<PairState>,
    waiting: Pool,
}

impl Model for PairTable {
    ghost use Rattle.list_pool.specs.Pool.{list_at};
    ghost use Rattle.chase_core.specs.Table.{Standings};
    ghost use Rattle.chase_core.specs.Inner.{AreStandings};

    ghost Value = { Standings };

    ghost view = { λ t. record { states = t.states.items; ready = list_at t.waiting.lists 0 } };

    ghost invariant = { λ t. AreStandings t.states.items t.waiting.lists t.waiting.cells };
}

/// So many Ready pairs.
fn ready_states(alloc: Global, count: u32) -> Result<Vec<PairState>, NoMemory>
    ensures { IfOk result (λ v. v.items ≡ replicate count state.Ready) }
{
    let mut states = Vec::with_capacity(alloc, count as usize)?;
    for i in 0..count {
        states.push_reserved(PairState::Ready);
    }
    Ok(states)
}

/// A pool with one list of all its cells, ascending.
fn all_waiting(alloc: Global, count: u32) -> Result<Pool, NoMemory>
    ensures count { IfOk result (λ p. length p.lists ≡ 1) }
    ensures list { IfOk result (λ p. list_at p.lists 0 ≡ range_with_len 0 count) }
    ensures cells { IfOk result (λ p. p.cells ≡ count) }
{
    let mut waiting = Pool::new(alloc, count, 1)?;
    for pair in 0..count {
        waiting.push_back(0, pair);
    }
    Ok(waiting)
}

/// Takes a pair off the list, if it is there, and writes where it stands. It takes a table's fields and not the table:
/// between its two writes the list and the states disagree, and what a table keeps does not hold.
#[inline]
fn mark_parts(states: &mut Vec<PairState>, waiting: &mut Pool, pair: u32, to: PairState)
    requires table { AreStandings states.old.items waiting.old.lists waiting.old.cells }
    requires pair { pair < length states.old.items }
    requires other { to ≢ state.Ready }
    ensures table { AreStandings states.new.items waiting.new.lists waiting.new.cells }
    ensures states { states.new.items ≡ slice_set states.old.items pair to }
    ensures ready { list_at waiting.new.lists 0 ≡ without (list_at waiting.old.lists 0) pair }
{
    if let PairState::Ready = states[pair as usize] {
        waiting.remove(0, pair);
    }
    states[pair as usize] = to;
}

/// Puts a pair on the list, if it is not there, and makes it Ready. It takes a table's fields as `mark_parts` does, and for
/// the same reason.
fn make_ready_parts(states: &mut Vec<PairState>, waiting: &mut Pool, pair: u32)
    requires table { AreStandings states.old.items waiting.old.lists waiting.old.cells }
    requires pair { pair < length states.old.items }
    ensures table { AreStandings states.new.items waiting.new.lists waiting.new.cells }
    ensures states { states.new.items ≡ slice_set states.old.items pair state.Ready }
    ensures kept { slice_get states.old.items pair ≡ Some state.Ready → list_at waiting.new.lists 0 ≡ list_at waiting.old.lists 0 }
    ensures last { slice_get states.old.items pair ≢ Some state.Ready → list_at waiting.new.lists 0 ≡ list_at waiting.old.lists 0 ++ pair ∷ [] }
{
    if let PairState::Ready = states[pair as usize] {
        return;
    }
    waiting.push_back(0, pair);
    states[pair as usize] = PairState::Ready;
}

impl PairTable {
    /// A table of so many pairs, all Ready, in ascending order.
    pub fn new(alloc: Global, count: u32) -> Result<PairTable, NoMemory>
        ensures states { IfOk result (λ t. t.states ≡ replicate count state.Ready) }
        ensures ready { IfOk result (λ t. t.ready ≡ range_with_len 0 count) }
    {
        let states = ready_states(alloc, count)?;
        let waiting = all_waiting(alloc, count)?;
        Ok(PairTable { states, waiting })
    }

    /// Where a pair stands.
    pub fn state(&self, pair: u32) -> PairState
        requires { pair < length self.now.states }
        ensures state { slice_get self.now.states pair ≡ Some result }

        // What holds of every table.
        ensures ready { IsReadyList self.now.states self.now.ready }
    {
        self.states[pair as usize]
    }

    /// How many pairs are Ready, which is how many cells of the pool stand in its list.
    pub fn ready_count(&self) -> usize
        ensures { result ≡ length self.now.ready }
    {
        self.states.len() - self.waiting.spare() as usize
    }

    /// The first of the Ready pairs, and none exactly where no pair is Ready.
    pub fn first(&self) -> Option<u32>
        ensures first { result ≡ slice_get self.now.ready 0 }
        ensures ready { IsReadyList self.now.states self.now.ready }
    {
        self.waiting.first(0)
    }

    /// Lets a pair stand elsewhere than among the Ready ones.
    #[inline]
    pub fn mark(&mut self, pair: u32, to: PairState)
        requires pair { pair < length self.old.states }
        requires other { to ≢ state.Ready }
        ensures states { self.new.states ≡ slice_set self.old.states pair to }
        ensures ready { self.new.ready ≡ without self.old.ready pair }
    {
        mark_parts(&mut self.states, &mut self.waiting, pair, to);
    }

    /// Makes a pair Ready, last of the list where it was not Ready already.
    pub fn make_ready(&mut self, pair: u32)
        requires { pair < length self.old.states }
        ensures states { self.new.states ≡ slice_set self.old.states pair state.Ready }
        ensures kept { slice_get self.old.states pair ≡ Some state.Ready → self.new.ready ≡ self.old.ready }
        ensures last { slice_get self.old.states pair ≢ Some state.Ready → self.new.ready ≡ self.old.ready ++ pair ∷ [] }
    {
        make_ready_parts(&mut self.states, &mut self.waiting, pair);
    }

    /// Says for proofs what holds of every table. It does nothing.
    pub fn listed(&self)
        ensures { IsReadyList self.now.states self.now.ready }
    {
        let _ = &self.waiting;
    }
}
