//! The lines of the triples that the rows become, sorted and joined, for any names: by ranks, and where their order is not that
//! of the lines, the lines themselves are sorted.

ghost use Rattle.std.specs.Prelude.{◌≡◌, ◌<◌, ◌↔◌, ℕ, List, IfOk, All, Contains, length, map};
ghost use Rattle.std.specs.List.{flat_map};
ghost use Rattle.std.specs.List.Sorted.{IsStrictlySortedBy};
ghost use Rattle.std.specs.Ordering.{nat_cmp};
ghost use Rattle.std.specs.Cmp.Lexicographic.{slice_cmp};
ghost use Rattle.term_text.specs.CanonicalText.{triple_text};
ghost use Rattle.merge_graph.specs.MergedGraph.{IsWithin, image};
ghost use Rattle.merge_graph.specs.Ranked.{IsJoinedOnce};

use crate::faces::term_of;
use crate::ranked::lines_by_rank;
use gk_base::{NoMemory, Text};
use std::alloc::Global;
use term_table::Names;
use term_text::put_lent_triple;

/// The lines of the images of the rows, ascending by bytes, each once, one after another.
///
/// A file spells no term by another term's text and then a byte up to a space, so that lines ascend as the ranks of their
/// terms do. Names that no file can spell, as a blank node whose label has a line end, may have texts of which that is not
/// so. Then their lines are made one by one and sorted, which takes longer.
pub fn merged_lines(
    alloc: Global,
    names: &Names,
    faces: &[u32],
    rows: &[[u32; 3]],
) -> Result<Vec<u8>, NoMemory>
    requires one_each { length faces.now ≡ length names.now }
    requires faces { All (λ face. face < length names.now) faces.now }
    requires rows { All (IsWithin (length names.now)) rows.now }
    ensures { IfOk result (λ v. IsJoinedOnce (map (λ row. triple_text (image names.now faces.now row)) rows.now) v.items) }
{
    match lines_by_rank(alloc, names, faces, rows)? {
        Some(text) => Ok(text),
        None => lines_by_bytes(alloc, names, faces, rows),
    }
}

/// The same by the lines alone, of which each is a text of its own.
fn lines_by_bytes(
    alloc: Global,
    names: &Names,
    faces: &[u32],
    rows: &[[u32; 3]],
) -> Result<Vec<u8>, NoMemory>
    requires one_each { length faces.now ≡ length names.now }
    requires faces { All (λ face. face < length names.now) faces.now }
    requires rows { All (IsWithin (length names.now)) rows.now }
    ensures { IfOk result (λ v. IsJoinedOnce (map (λ row. triple_text (image names.now faces.now row)) rows.now) v.items) }
{
    let lines = sorted_once(image_lines(alloc, names, faces, rows)?);
    let text = joined(alloc, &lines)?;
    Ok(text)
}

/// The line of each row's image, in the order of the rows.
fn image_lines(
    alloc: Global,
    names: &Names,
    faces: &[u32],
    rows: &[[u32; 3]],
) -> Result<Vec<Text>, NoMemory>
    requires one_each { length faces.now ≡ length names.now }
    requires faces { All (λ face. face < length names.now) faces.now }
    requires rows { All (IsWithin (length names.now)) rows.now }
    ensures { IfOk result (λ v. v.items ≡ map (λ row. triple_text (image names.now faces.now row)) rows.now) }
{
    let mut lines = Vec::with_capacity(alloc, rows.len())?;
    let mut buffer = Vec::new(alloc);
    for row in rows {
        lines.push(image_line(alloc, names, faces, row, &mut buffer)?)?;
    }
    Ok(lines)
}

/// The line of a row's image, in just as much memory as it needs: it is put together in the buffer, whose bytes are lost.
fn image_line(
    alloc: Global,
    names: &Names,
    faces: &[u32],
    row: &[u32; 3],
    buffer: &mut Vec<u8>,
) -> Result<Text, NoMemory>
    requires one_each { length faces.now ≡ length names.now }
    requires faces { All (λ face. face < length names.now) faces.now }
    requires row { IsWithin (length names.now) row.now }
    ensures { IfOk result (λ t. t ≡ triple_text (image names.now faces.now row.now)) }
{
    buffer.clear();
    put_lent_triple(
        buffer,
        &term_of(names, faces[row[0] as usize]),
        &term_of(names, row[1]),
        &term_of(names, faces[row[2] as usize]),
    )?;
    Text::from_bytes(alloc, buffer)
}

/// The lines ascending by bytes, each once.
fn sorted_once(lines: Vec<Text>) -> Vec<Text>
    ensures ascends { IsStrictlySortedBy (slice_cmp nat_cmp) result.items }
    ensures same { (line : List ℕ) → Contains result.items line ↔ Contains lines.items line }
{
    let mut lines = lines;
    lines.sort_unstable();
    lines.dedup();
    lines
}

/// The lines one after another.
fn joined(alloc: Global, lines: &[Text]) -> Result<Vec<u8>, NoMemory>
    ensures { IfOk result (λ v. v.items ≡ flat_map (λ line. line) lines.now) }
{
    let mut text = Vec::with_capacity(alloc, total_length(lines))?;
    for line in lines {
        text.extend_from_slice(line.bytes())?;
    }
    Ok(text)
}

/// How long the lines are together, where memory could hold them.
fn total_length(lines: &[Text]) -> usize {
    let mut total: usize = 0;
    for line in lines {
        total = total.saturating_add(line.bytes().len());
    }
    total
}
