//! The rule of a deque of hints: each number in it is below a bound, which every view has. The bound is known when the
//! deque is made, and a rule is fixed before: so the first step on the deque sets it.
use crossbeam_deque::protocol::{Outcome, Protocol, Split};

/// What a view of the deque knows: below which number its hints are. None before the first step. No value of this type
/// is made: it is for the proofs alone.
pub struct Bound {
    pub below: Option<u64>,
}

/// The rule.
pub struct HintRule;

impl Protocol<u32, Bound> for HintRule {
    ghost use Rattle.steal_pool.specs.Hints.{IsHintDeque, unbounded};

    ghost holds = { IsHintDeque };

    ghost first = { unbounded };

    ghost guest = { unbounded };
}

/// The first push, of the greatest number below the bound, sets it.
pub struct SetBound;

impl Outcome<u32, Bound> for SetBound {
    ghost use Rattle.steal_pool.specs.Hints.{LearnsBound};

    ghost then = { LearnsBound };
}

/// The bound stays, and the numbers that moved are below it.
pub struct KeepBound;

impl Outcome<u32, Bound> for KeepBound {
    ghost use Rattle.steal_pool.specs.Hints.{MovesWithin};

    ghost then = { MovesWithin };
}

/// A second view with the same bound.
pub struct CopyBound;

impl Split<Bound> for CopyBound {
    ghost left = { λ v. v };

    ghost right = { λ v. v };
}

/// A split sets the bound 0, below which there is no number to push.
pub struct SetZero;

impl Split<Bound> for SetZero {
    ghost use Rattle.steal_pool.specs.Hints.{bounded_by_zero};

    ghost left = { bounded_by_zero };

    ghost right = { bounded_by_zero };
}
