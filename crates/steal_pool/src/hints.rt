//! Deques of hints: LIFO, and of numbers below a bound.
ghost use Rattle.std.specs.Prelude.{◌≡◌, ℕ, ◌<◌, IfOk, IfSome};
ghost use Rattle.crossbeam_deque.specs.Handles.{view, IsPassOf, SamePass, SameWorker, worker_deque, stealer_deque, worker_view, worker_flavor};
ghost use Rattle.steal_pool.specs.Hints.{bounded_by};

use crate::hint_rule::{Bound, CopyBound, HintRule, KeepBound, SetBound, SetZero};
use crossbeam_deque::{Pass, Steal, Stealer, Worker};
use gk_base::NoMemory;
use std::alloc::Global;

/// A worker's own deque of hints.
pub type HintDeque = Worker<u32, Global, Bound, HintRule>;

/// A handle by which others steal from a deque.
pub type Thief = Stealer<u32, Global, Bound, HintRule>;

/// What a steal from one deque needs besides its handle.
pub type ThiefPass = Pass<u32, Bound>;

/// An empty LIFO deque of numbers below the bound, with room for so many at first.
pub fn hint_deque(alloc: Global, room: usize, bound: u32) -> Result<HintDeque, NoMemory>
    ensures { IfOk result (λ w. (worker_view w ≡ bounded_by bound) × (worker_flavor w ≡ 1)) }
{
    let mut deque = HintDeque::lifo_as(alloc, room)?;
    if bound == 0 {
        let _ = deque.another::<SetZero>();
        return Ok(deque);
    }
    if deque.push_as::<SetBound>(bound - 1).is_err() {
        return Err(NoMemory);
    }
    let _ = deque.pop_as::<KeepBound>();
    Ok(deque)
}

/// A pass for one who steals.
pub fn another(deque: &mut HintDeque) -> ThiefPass
    requires { (n : ℕ) × (worker_view deque.old ≡ bounded_by n) }
    ensures same { SameWorker deque.old deque.new × (worker_view deque.new ≡ worker_view deque.old) }
    ensures pass { IsPassOf (worker_deque deque.old) result × (view result ≡ worker_view deque.old) }
{
    deque.another::<CopyBound>()
}

/// Pushes a hint, or lets it go where the deque refuses it.
pub fn push(deque: &mut HintDeque, hint: u32)
    requires { (n : ℕ) × (worker_view deque.old ≡ bounded_by n) × (hint < n) }
    ensures { SameWorker deque.old deque.new × (worker_view deque.new ≡ worker_view deque.old) }
{
    let _ = deque.push_as::<KeepBound>(hint);
}

/// The hint that was pushed last.
pub fn pop(deque: &mut HintDeque) -> Option<u32>
    requires { worker_flavor deque.old ≡ 1 }
    ensures same { SameWorker deque.old deque.new × (worker_view deque.new ≡ worker_view deque.old) }
    ensures hint { (n : ℕ) → worker_view deque.old ≡ bounded_by n → IfSome result (λ x. x < n) }
{
    deque.pop_as::<KeepBound>()
}

/// A hint out of another's deque. None also where someone else was quicker.
pub fn steal(thief: &Thief, pass: &mut ThiefPass) -> Option<u32>
    requires { IsPassOf (stealer_deque thief.now) pass.old }
    ensures same { SamePass pass.old pass.new × (view pass.new ≡ view pass.old) }
    ensures hint { (n : ℕ) → view pass.old ≡ bounded_by n → IfSome result (λ x. x < n) }
{
    match thief.steal_as::<KeepBound>(pass) {
        Steal::Success(x) => Some(x),
        Steal::Empty => None,
        Steal::Retry => None,
    }
}
