//! The names of the images, marked, in the order of their texts, and the rank of each in that order.

ghost use Rattle.std.specs.Prelude.{◌≡◌, ◌<◌, ◌^◌, ◌++◌, ◌∷◌, [], ℕ, IfOk, OnOk, All, length, if◌then◌else◌};
ghost use Rattle.std.specs.List.Sorted.{IsPermutation};
ghost use Rattle.merge_graph.specs.MergedGraph.{IsWithin};
ghost use Rattle.merge_graph.specs.Ranked.{IsMarked, HasMarks, ListsMarked, HasRank};

use crate::name_texts::NameTexts;
use gk_base::NoMemory;
use std::alloc::Global;

/// Which names stand in the image of a row.
pub fn marks_of(alloc: Global, faces: &[u32], rows: &[[u32; 3]]) -> Result<Vec<bool>, NoMemory>
    requires faces { All (λ face. face < length faces.now) faces.now }
    requires rows { All (IsWithin (length faces.now)) rows.now }
    ensures length { IfOk result (λ v. length v.items ≡ length faces.now) }
    ensures marks { IfOk result (λ v. All (HasMarks v.items faces.now) rows.now) }
{
    let mut marks = vec![in alloc; false; faces.len()]?;
    for row in rows {
        mark(&mut marks, faces[row[0] as usize]);
        mark(&mut marks, row[1]);
        mark(&mut marks, faces[row[2] as usize]);
    }
    Ok(marks)
}

/// Marks a name.
fn mark(marks: &mut Vec<bool>, name: u32)
    requires { name < length marks.old.items }
    ensures length { length marks.new.items ≡ length marks.old.items }
    ensures marked { IsMarked marks.new.items name }
    ensures kept { (n : ℕ) → IsMarked marks.old.items n → IsMarked marks.new.items n }
{
    marks[name as usize] = true;
}

/// The names that are marked, by number.
pub fn marked(alloc: Global, marks: &[bool]) -> Result<Vec<u32>, NoMemory>
    requires { length marks.now < 2 ^ 32 }
    ensures { IfOk result (λ v. ListsMarked marks.now v.items) }
{
    let mut listed = Vec::new(alloc);
    for (place, is_marked) in marks.iter().enumerate() {
        list(&mut listed, *is_marked, place as u32)?;
    }
    Ok(listed)
}

/// Lists a name where it is marked.
fn list(listed: &mut Vec<u32>, is_marked: bool, name: u32) -> Result<(), NoMemory>
    ensures { OnOk result (listed.new.items ≡ (if is_marked then listed.old.items ++ name ∷ [] else listed.old.items)) }
{
    if is_marked {
        listed.push(name)?;
    }
    Ok(())
}

/// The names in the order of their texts.
pub fn by_text(texts: &NameTexts, names: Vec<u32>) -> Vec<u32>
    ensures { IsPermutation names.items result.items }
{
    let mut names = names;
    names.sort_unstable_by(|a, b| texts.text(*a).cmp(&texts.text(*b)));
    names
}

/// For each name its place in the order, or 0 where it does not stand there.
pub fn ranks_of(alloc: Global, order: &[u32], count: usize) -> Result<Vec<u32>, NoMemory>
    requires names { All (λ name. name < count) order.now }
    requires few { length order.now < 2 ^ 32 }
    ensures length { IfOk result (λ v. length v.items ≡ count) }
    ensures ranks { IfOk result (λ v. All (HasRank order.now v.items) order.now) }
{
    let mut ranks = vec![in alloc; 0; count]?;
    for (rank, name) in order.iter().enumerate() {
        ranks[*name as usize] = rank as u32;
    }
    Ok(ranks)
}
