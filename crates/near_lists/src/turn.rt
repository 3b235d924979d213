//! For each number the lists that have it, by two passes: one counts, the other fills.

ghost use Rattle.std.specs.Prelude.{◌++◌, ◌≡◌, ◌<◌, ◌≤◌, ◌+◌, ◌^◌, ℕ, All, IfOk, length, slice_index, replicate};
ghost use Rattle.list_pool.specs.Pool.{list_at};
ghost use Rattle.list_pool.specs.Counts.{times};
ghost use Rattle.near_lists.specs.Owners.{owners_of, owners_below};

use crate::filling::Filling;
use crate::rows::Rows;
use gk_base::NoMemory;
use std::alloc::Global;

/// Adds to each number's tally how often it stands among these.
pub(crate) fn tally(tallies: &mut [usize], items: &[u32])
    requires named { All (λ m. m < length tallies.old) items.now }
    requires room { (n : ℕ) → n < length tallies.old → slice_index tallies.old n + length items.now < 2 ^ 64 }
    ensures one_each { length tallies.new ≡ length tallies.old }
    ensures each { (n : ℕ) → n < length tallies.old → slice_index tallies.new n ≡ slice_index tallies.old n + times items.now n }
{
    for item in items {
        tallies[*item as usize] += 1;
    }
}

/// How often each number below `names` stands among these.
fn tallies(alloc: Global, items: &[u32], names: u32) -> Result<Vec<usize>, NoMemory>
    requires { All (λ m. m < names) items.now }
    ensures one_each { IfOk result (λ v. length v.items ≡ names) }
    ensures each { IfOk result (λ v. (n : ℕ) → n < names → slice_index v.items n ≡ times items.now n) }
{
    let mut tallies = vec![in alloc; 0usize; names as usize]?;
    tally(&mut tallies, items);
    Ok(tallies)
}

/// Puts a place into the list of each number that stands in the list there.
pub(crate) fn put_row(filling: &mut Filling, row: &[u32], place: u32)
    requires named { All (λ m. m < length filling.old.lists) row.now }
    requires room { (n : ℕ) → n < length filling.old.lists →
        slice_index filling.old.starts n + length (list_at filling.old.lists n) + times row.now n
        ≤ slice_index filling.old.starts (n + 1) }
    ensures as_many { length filling.new.lists ≡ length filling.old.lists }
    ensures lists { (n : ℕ) → n < length filling.old.lists →
        list_at filling.new.lists n ≡ list_at filling.old.lists n ++ replicate (times row.now n) place }
    ensures starts { filling.new.starts ≡ filling.old.starts }
{
    for number in row {
        filling.put(*number, place);
    }
}

/// Puts the places of all lists.
fn put_rows(filling: &mut Filling, rows: &Rows)
    requires few { length rows.now < 2 ^ 32 }
    requires named { All (λ row. All (λ m. m < length filling.old.lists) row) rows.now }
    requires empty { (n : ℕ) → n < length filling.old.lists → length (list_at filling.old.lists n) ≡ 0 }
    requires room { (n : ℕ) → n < length filling.old.lists →
        slice_index filling.old.starts n + length (owners_of rows.now n) ≤ slice_index filling.old.starts (n + 1) }
    ensures as_many { length filling.new.lists ≡ length filling.old.lists }
    ensures lists { (n : ℕ) → n < length filling.old.lists → list_at filling.new.lists n ≡ owners_of rows.now n }
    ensures starts { filling.new.starts ≡ filling.old.starts }
{
    for place in 0..rows.len() as u32 {
        put_row(filling, rows.of(place as usize), place);
    }
}

/// For each number below `names` the places of the lists that have it, ascending.
pub fn turned(alloc: Global, rows: &Rows, names: u32) -> Result<Rows, NoMemory>
    requires few { length rows.now < 2 ^ 32 }
    requires named { All (λ row. All (λ m. m < names) row) rows.now }
    ensures one_each { IfOk result (λ r. length r ≡ names) }
    ensures lists { IfOk result (λ r. (n : ℕ) → n < names → list_at r n ≡ owners_of rows.now n) }
{
    let tallies = tallies(alloc, rows.items(), names)?;
    let mut filling = Filling::new(alloc, &tallies)?;
    put_rows(&mut filling, rows);
    Ok(filling.finish())
}
