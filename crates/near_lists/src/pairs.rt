//! For each number the pairs that have it, by two passes over the pairs: one counts, the other fills. No list of all ends
//! is made in between.

ghost use Rattle.std.specs.Prelude.{◌≡◌, ◌<◌, ◌≤◌, ◌+◌, ◌↔◌, ◌^◌, ℕ, All, Contains, IfOk, length, map, slice_index};
ghost use Rattle.std.specs.List.Sorted.{IsStrictlyIncreasing};
ghost use Rattle.list_pool.specs.Pool.{list_at};
ghost use Rattle.near_lists.specs.Turning.{HasEnd};
ghost use Rattle.near_lists.specs.Owners.{ends_of, owners_of};

use crate::filling::Filling;
use crate::rows::Rows;
use crate::turn::{put_row, tally};
use gk_base::NoMemory;
use std::alloc::Global;

/// How many of the pairs have each number below `names`.
fn pair_tallies(alloc: Global, pairs: &[(u32, u32)], names: u32) -> Result<Vec<usize>, NoMemory>
    requires few { length pairs.now < 2 ^ 32 }
    requires named { All (λ p. (p.0 < p.1) × (p.1 < names)) pairs.now }
    ensures one_each { IfOk result (λ v. length v.items ≡ names) }
    ensures each { IfOk result (λ v. (n : ℕ) → n < names → slice_index v.items n ≡ length (owners_of (map ends_of pairs.now) n)) }
{
    let mut tallies = vec![in alloc; 0usize; names as usize]?;
    for (a, b) in pairs {
        tally(&mut tallies, &[*a, *b]);
    }
    Ok(tallies)
}

/// Puts the places of all pairs.
fn put_pairs(filling: &mut Filling, pairs: &[(u32, u32)])
    requires few { length pairs.now < 2 ^ 32 }
    requires named { All (λ p. (p.0 < p.1) × (p.1 < length filling.old.lists)) pairs.now }
    requires empty { (n : ℕ) → n < length filling.old.lists → length (list_at filling.old.lists n) ≡ 0 }
    requires room { (n : ℕ) → n < length filling.old.lists →
        slice_index filling.old.starts n + length (owners_of (map ends_of pairs.now) n) ≤ slice_index filling.old.starts (n + 1) }
    ensures as_many { length filling.new.lists ≡ length filling.old.lists }
    ensures lists { (n : ℕ) → n < length filling.old.lists → list_at filling.new.lists n ≡ owners_of (map ends_of pairs.now) n }
    ensures starts { filling.new.starts ≡ filling.old.starts }
{
    for place in 0..pairs.len() as u32 {
        let (a, b) = pairs[place as usize];
        put_row(filling, &[a, b], place);
    }
}

/// For each number below `names` the places of the pairs that have it, ascending. Each pair is of a number and a greater
/// one. It takes 8 bytes a number and 8 a pair, and while it is made 16 bytes a number more.
pub fn pairs_by_end(alloc: Global, pairs: &[(u32, u32)], names: u32) -> Result<Rows, NoMemory>
    requires few { length pairs.now < 2 ^ 32 }
    requires named { All (λ p. (p.0 < p.1) × (p.1 < names)) pairs.now }
    ensures one_each { IfOk result (λ r. length r ≡ names) }
    ensures ascending { IfOk result (λ r. (e : ℕ) → e < names → IsStrictlyIncreasing (list_at r e)) }
    ensures exact { IfOk result (λ r. (e p : ℕ) → e < names → Contains (list_at r e) p ↔ HasEnd pairs.now p e) }
{
    let tallies = pair_tallies(alloc, pairs, names)?;
    let mut filling = Filling::new(alloc, &tallies)?;
    put_pairs(&mut filling, pairs);
    Ok(filling.finish())
}
