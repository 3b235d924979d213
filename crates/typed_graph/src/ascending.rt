//! Look-ups in ascending numbers: few are gone through, many are searched.

ghost use Rattle.std.specs.Prelude.{◌≡◌, ◌<◌, ◌≤◌, ◌-◌, ◌↔◌, ℕ, Contains, IsTrue, length, take, drop, slice_index};
ghost use Rattle.std.specs.List.Sorted.{IsStrictlyIncreasing, IsNonDecreasing};

/// So many numbers or fewer are gone through: a binary search guesses wrong at about every second comparison, and costs more.
const FEW: usize = 8;

/// Whether strictly ascending numbers have `x`.
pub fn holds(xs: &[u32], x: u32) -> bool
    requires { IsStrictlyIncreasing xs.now }
    ensures { IsTrue result ↔ Contains xs.now x }
{
    if xs.len() <= FEW {
        xs.contains(&x)
    } else {
        xs.binary_search(&x).is_ok()
    }
}

/// Those of strictly ascending numbers that are above `x`, found by a binary search.
pub fn above(xs: &[u32], x: u32) -> &[u32]
    requires { IsStrictlyIncreasing xs.now }
    ensures ascending { IsStrictlyIncreasing result.now }
    ensures exact { (y : ℕ) → Contains result.now y ↔ (Contains xs.now y × (x < y)) }
{
    cut(xs, upper(xs, x), xs.len())
}

/// The first place of ascending numbers that holds `x` or more.
pub(crate) fn lower(xs: &[u32], x: u32) -> usize
    requires { IsNonDecreasing xs.now }
    ensures within { result ≤ length xs.now }
    ensures below { (k : ℕ) → k < result → slice_index xs.now k < x }
    ensures above { (k : ℕ) → result ≤ k → k < length xs.now → x ≤ slice_index xs.now k }
{
    if xs.len() <= FEW {
        lower_of_few(xs, x)
    } else {
        lower_of_many(xs, x)
    }
}

/// The same, each number being looked at.
fn lower_of_few(xs: &[u32], x: u32) -> usize
    requires { IsNonDecreasing xs.now }
    ensures within { result ≤ length xs.now }
    ensures below { (k : ℕ) → k < result → slice_index xs.now k < x }
    ensures above { (k : ℕ) → result ≤ k → k < length xs.now → x ≤ slice_index xs.now k }
{
    let mut place = 0;
    while place < xs.len() && xs[place] < x {
        place += 1;
    }
    place
}

/// The same, by a binary search.
fn lower_of_many(xs: &[u32], x: u32) -> usize
    requires { IsNonDecreasing xs.now }
    ensures within { result ≤ length xs.now }
    ensures below { (k : ℕ) → k < result → slice_index xs.now k < x }
    ensures above { (k : ℕ) → result ≤ k → k < length xs.now → x ≤ slice_index xs.now k }
{
    xs.partition_point(|y| *y < x)
}

/// The first place of ascending numbers that holds more than `x`.
pub(crate) fn upper(xs: &[u32], x: u32) -> usize
    requires { IsNonDecreasing xs.now }
    ensures within { result ≤ length xs.now }
    ensures below { (k : ℕ) → k < result → slice_index xs.now k ≤ x }
    ensures above { (k : ℕ) → result ≤ k → k < length xs.now → x < slice_index xs.now k }
{
    xs.partition_point(|y| *y <= x)
}

/// The first place of ascending numbers that holds more than `x`, where `low` is the first that holds `x` or more. Mostly
/// no number is `x`, or one: then no search is needed.
pub(crate) fn upper_from(xs: &[u32], low: usize, x: u32) -> usize
    requires ascending { IsNonDecreasing xs.now }
    requires within { low ≤ length xs.now }
    requires below { (k : ℕ) → k < low → slice_index xs.now k < x }
    ensures from { low ≤ result }
    ensures within { result ≤ length xs.now }
    ensures below { (k : ℕ) → k < result → slice_index xs.now k ≤ x }
    ensures above { (k : ℕ) → result ≤ k → k < length xs.now → x < slice_index xs.now k }
{
    if low >= xs.len() || x < xs[low] {
        return low;
    }
    let next = low + 1;
    if next >= xs.len() || x < xs[next] {
        return next;
    }
    upper(xs, x)
}

/// The numbers from one place up to another.
pub(crate) fn cut(xs: &[u32], from: usize, to: usize) -> &[u32]
    requires ordered { from ≤ to }
    requires within { to ≤ length xs.now }
    ensures { result.now ≡ take (to - from) (drop from xs.now) }
{
    &xs[from..to]
}
