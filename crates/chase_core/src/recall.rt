//! Gives the pairs that are handed out back.

ghost use Rattle.std.specs.Prelude.{◌≡◌, ◌≢◌, List, ℕ, Some, slice_get, length, map};
ghost use Rattle.chase_laws.specs.declared.pair_state.PairState.TheVariants as state;
ghost use Rattle.chase_laws.specs.Core.{recalled};
ghost use Rattle.chase_core.specs.Settling.{RiseInOrder};

use crate::Setup;
use crate::table::PairTable;
use chase_laws::PairState;

/// Makes each Flying pair Ready, in ascending order at the end of the list. It takes a chase's fields and not the chase:
/// all pairs together are one event, and between two of them what every chase keeps has not been shown.
pub fn recall_parts(setup: &Setup, table: &mut PairTable)
    requires { length table.old.states ≡ length setup.now.task.pairs }
    ensures states { table.new.states ≡ map recalled table.old.states }
    ensures landed { (p : ℕ) → slice_get table.new.states p ≢ Some state.Flying }
    ensures rise { (list : List ℕ) × RiseInOrder state.Flying table.old.states table.old.ready table.new list }
{
    let count = setup.pairs().len() as u32;
    for pair in 0..count {
        if let PairState::Flying = table.state(pair) {
            table.make_ready(pair);
        }
    }
}
