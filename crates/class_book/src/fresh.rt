//! The parts of a book in which each node is alone.

ghost use Rattle.std.specs.Prelude.{◌≡◌, ◌<◌, ◌∷◌, [], ℕ, IfOk, length, slice_index, replicate};
ghost use Rattle.list_pool.specs.Pool.{list_at};

use gk_base::NoMemory;
use list_pool::Pool;
use std::alloc::Global;

/// The numbers below `n`.
pub fn numbers(alloc: Global, n: u32) -> Result<Vec<u32>, NoMemory>
    ensures count { IfOk result (λ v. length v.items ≡ n) }
    ensures own { IfOk result (λ v. (k : ℕ) → k < n → slice_index v.items k ≡ k) }
{
    let mut labels = Vec::with_capacity(alloc, n as usize)?;
    for i in 0..n {
        labels.push_reserved(i);
    }
    Ok(labels)
}

/// The number 1, `n` times.
pub fn ones(alloc: Global, n: u32) -> Result<Vec<u32>, NoMemory>
    ensures { IfOk result (λ v. v.items ≡ replicate n 1) }
{
    let mut sizes = Vec::with_capacity(alloc, n as usize)?;
    for i in 0..n {
        sizes.push_reserved(1);
    }
    Ok(sizes)
}

/// A list for each number below `n`, with that number alone.
pub fn singles(alloc: Global, n: u32) -> Result<Pool, NoMemory>
    ensures count { IfOk result (λ p. length p.lists ≡ n) }
    ensures own { IfOk result (λ p. (k : ℕ) → k < n → list_at p.lists k ≡ k ∷ []) }
{
    let mut members = Pool::new(alloc, n, n)?;
    for i in 0..n {
        members.push_back(i, i);
    }
    Ok(members)
}
