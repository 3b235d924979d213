//! Makes the pairs Ready that were set aside.

ghost use Rattle.std.specs.Prelude.{◌≡◌, ◌≢◌, ◌++◌, [], Some, All, AllPairs, slice_get, take};
ghost use Rattle.chase_laws.specs.declared.pair_state.PairState.TheVariants as state;
ghost use Rattle.chase_laws.specs.Core.{set_each};

use crate::Woken;
use crate::table::PairTable;

/// Makes pairs Ready in this order, and notes the first of them.
pub fn wake_each(table: &mut PairTable, pairs: &[u32], woken: &mut Woken)
    requires flying { All (λ q. slice_get table.old.states q ≡ Some state.Flying) pairs.now }
    requires once { AllPairs (λ m n. m ≢ n) pairs.now }
    requires empty { woken.old.list ≡ [] }
    ensures states { table.new.states ≡ set_each table.old.states pairs.now state.Ready }
    ensures ready { table.new.ready ≡ table.old.ready ++ pairs.now }
    ensures woken { woken.new.list ≡ take woken.old.room pairs.now }
    ensures room { woken.new.room ≡ woken.old.room }
{
    for pair in pairs {
        table.make_ready(*pair);
        woken.note(*pair);
    }
}
