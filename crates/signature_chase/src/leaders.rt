//! Rows whose images have the same labels: each has the same row as its leader. The rows are sorted by the label of one
//! image after another, so that equal labels stand side by side.

ghost use Rattle.std.specs.Prelude.{◌≡◌, ◌<◌, ◌+◌, ◌≤◌, ◌⊎◌, ◌↔◌, ℕ, All, OnOk, drop, length, slice_index};
ghost use Rattle.valuation_groups.specs.Groups.{row_in};
ghost use Rattle.signature_chase.specs.Settled.{image_labels};
ghost use Rattle.signature_chase.specs.Leaders.{keyed_at, SameKey, IsNotAbove, AreLeaders, AreKeyed, AreLed};

use class_book::Book;
use gk_base::NoMemory;
use valuation_groups::Group;

/// The row that leads a row: that of the row before it, if the two are compared by the same, and else itself.
fn head_for(head: (u32, u32, u32), next: (u32, u32, u32)) -> (u32, u32, u32)
    ensures { (SameKey head next × (result ≡ head)) ⊎ (¬ (SameKey head next) × (result ≡ next)) }
{
    if head.0 == next.0 && head.1 == next.1 {
        head
    } else {
        next
    }
}

/// Writes for each row the first of those that are compared by the same.
fn lead(keyed: &[(u32, u32, u32)], leaders: &mut Vec<u32>)
    requires sorted { (k : ℕ) → k + 1 < length keyed.now → IsNotAbove (keyed_at keyed.now k) (keyed_at keyed.now (k + 1)) }
    requires once { (k l : ℕ) → k < length keyed.now → l < length keyed.now → (keyed_at keyed.now k).2 ≡ (keyed_at keyed.now l).2 →
        SameKey (keyed_at keyed.now k) (keyed_at keyed.now l) }
    requires rows { (k : ℕ) → k < length keyed.now → (keyed_at keyed.now k).2 < length leaders.old.items }
    ensures count { length leaders.new.items ≡ length leaders.old.items }
    ensures led { AreLed keyed.now leaders.new.items (length keyed.now) }
{
    if keyed.is_empty() {
        return;
    }
    let mut head = keyed[0];
    for k in 0..keyed.len() {
        let next = keyed[k];
        head = head_for(head, next);
        leaders[next.2 as usize] = head.2;
    }
}

/// The rows of a group with their leaders so far, and the labels of one image of each.
fn key_rows(
    book: &Book,
    group: &Group<'_>,
    place: usize,
    leaders: &[u32],
    keyed: &mut Vec<(u32, u32, u32)>,
) -> Result<(), NoMemory>
    requires images { (i : ℕ) → i < length group.now.rows → All (λ m. m < length book.now.labels) (drop 1 (row_in group.now i)) }
    requires wide { (i : ℕ) → i < length group.now.rows → place < length (drop 1 (row_in group.now i)) }
    requires leaders { length leaders.now ≡ length group.now.rows }
    ensures { OnOk result (AreKeyed book.now.labels group.now place leaders.now keyed.new.items) }
{
    keyed.clear();
    for row in 0..group.len() {
        let label = book.label(group.images_of(row)[place]);
        keyed.push((leaders[row], label, row as u32))?;
    }
    Ok(())
}

/// Parts the rows that have one leader by the label of one image more.
fn refine(
    book: &Book,
    group: &Group<'_>,
    place: usize,
    leaders: &mut Vec<u32>,
    keyed: &mut Vec<(u32, u32, u32)>,
) -> Result<(), NoMemory>
    requires images { (i : ℕ) → i < length group.now.rows → All (λ m. m < length book.now.labels) (drop 1 (row_in group.now i)) }
    requires wide { (i : ℕ) → i < length group.now.rows → place < length (drop 1 (row_in group.now i)) }
    requires leaders { AreLeaders book.now.labels group.now place leaders.old.items }
    ensures { OnOk result (AreLeaders book.now.labels group.now (place + 1) leaders.new.items) }
{
    key_rows(book, group, place, leaders, keyed)?;
    keyed.sort_unstable();
    lead(keyed, leaders);
    Ok(())
}

/// Finds a leader for each row of a group.
pub fn find_leaders(
    book: &Book,
    group: &Group<'_>,
    leaders: &mut Vec<u32>,
    keyed: &mut Vec<(u32, u32, u32)>,
) -> Result<(), NoMemory>
    requires images { (i : ℕ) → i < length group.now.rows → All (λ m. m < length book.now.labels) (drop 1 (row_in group.now i)) }
    requires wide { (i j : ℕ) → i < length group.now.rows → j < length group.now.rows →
        length (drop 1 (row_in group.now i)) ≡ length (drop 1 (row_in group.now j)) }
    ensures { OnOk result ((i : ℕ) → i < length group.now.rows → AreLeaders book.now.labels group.now (length (drop 1 (row_in group.now i))) leaders.new.items) }
{
    leaders.clear();
    for row in 0..group.len() {
        leaders.push(0)?;
    }
    for place in 0..group.images_of(0).len() {
        refine(book, group, place, leaders, keyed)?;
    }
    Ok(())
}
