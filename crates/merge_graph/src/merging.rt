//! The merged graph's text, from rows and labels.

ghost use Rattle.std.specs.Prelude.{◌≡◌, IfOk, All, length, map};
ghost use Rattle.merge_graph.specs.MergedGraph.{same_label, triple_at, IsWithin, IsMergedText, IsSortedText, AreApart};
ghost use Rattle.merge_graph.specs.Saying.{CanBeSaid, IsReadAsMerged};

use crate::MergedText;
use crate::faces::faces;
use crate::lines::merged_lines;
use gk_base::NoMemory;
use std::alloc::Global;
use term_table::Names;

/// The text of the graph in which the subject and the object of each row are replaced by the member of their class
/// whose canonical text is least by bytes: its triples, each once, ascending by bytes. A class has the names with one
/// label. A label may be any number; labels below the number of names cost least.
pub fn merge(
    alloc: Global,
    names: &Names,
    rows: &[[u32; 3]],
    labels: &[u32],
) -> Result<MergedText, NoMemory>
    requires one_each { length labels.now ≡ length names.now }
    requires rows { All (IsWithin (length names.now)) rows.now }
    ensures merged { IfOk result (λ text. IsMergedText names.now rows.now (same_label labels.now) text) }
    // Where each name is alone in its class, it is the graph itself, sorted.
    ensures unmerged { IfOk result (λ text. AreApart labels.now → IsSortedText (map (triple_at names.now) rows.now) text) }
    // A reader reads it as exactly these triples in this order.
    ensures read_back { IfOk result (λ text. CanBeSaid names.now rows.now labels.now
        → IsReadAsMerged names.now rows.now (same_label labels.now) text) }
{
    let faces = faces(alloc, names, labels)?;
    Ok(MergedText::from_vec(merged_lines(alloc, names, &faces, rows)?))
}
