//! Lines that are written one after another as long as they ascend.

ghost use Rattle.std.specs.Prelude.{◌≡◌, ◌≤◌, ◌++◌, ◌∷◌, [], ℕ, List, IfOk, IfSome, OnOk, IsTrue, All, length, map, drop, slice_range};
ghost use Rattle.std.specs.Ordering.{nat_cmp};
ghost use Rattle.std.specs.Cmp.Lexicographic.{slice_cmp};
ghost use Rattle.merge_graph.specs.MergedGraph.{IsWithin};
ghost use Rattle.merge_graph.specs.Ranked.{IsJoinedOnce, HoldsLines, line_of_texts, ranked_line};

use crate::name_texts::NameTexts;
use gk_base::NoMemory;
use std::alloc::Global;
use std::cmp::Ordering;

/// Lines one after another.
#[derive(Drop)]
struct Lines {
    text: Vec<u8>,
    /// Where the last line begins, or 0.
    last: usize,
}

/// The lines of these ranks, each once, one after another, or none where a line is below the one before it.
pub fn joined_ascending(
    alloc: Global,
    texts: &NameTexts,
    order: &[u32],
    rows: &[[u32; 3]],
) -> Result<Option<Vec<u8>>, NoMemory>
    requires { All (IsWithin (length order.now)) rows.now }
    ensures { IfOk result (λ o. IfSome o (λ v. IsJoinedOnce (map (ranked_line texts.now order.now) rows.now) v.items)) }
{
    let text = Vec::with_capacity(alloc, total_length(texts, order, rows))?;
    let mut lines = Lines { text, last: 0 };
    for row in rows {
        if !lines.add(texts, order, row)? {
            return Ok(None);
        }
    }
    let Lines { text, last: _ } = lines;
    Ok(Some(text))
}

/// How long the lines of these ranks are together, where memory could hold them: three texts and five bytes each.
fn total_length(texts: &NameTexts, order: &[u32], rows: &[[u32; 3]]) -> usize
    requires { All (IsWithin (length order.now)) rows.now }
{
    let mut total: usize = 0;
    for row in rows {
        for rank in row {
            let length = texts.text(order[*rank as usize]).len();
            total = total.saturating_add(length).saturating_add(1);
        }
        total = total.saturating_add(2);
    }
    total
}

impl Lines {
    /// Adds the line of three ranks. It is taken back where it equals the last one. False where it is below that one: then
    /// these are no ascending lines any more.
    fn add(&mut self, texts: &NameTexts, order: &[u32], row: &[u32; 3]) -> Result<bool, NoMemory>
        requires last { self.old.last ≤ length self.old.text.items }
        requires row { IsWithin (length order.now) row.now }
        ensures last { OnOk result (self.new.last ≤ length self.new.text.items) }
        ensures lines { IfOk result (λ fits. IsTrue fits → (all : List (List ℕ)) → HoldsLines all self.old.text.items self.old.last
            → HoldsLines (all ++ ranked_line texts.now order.now row.now ∷ []) self.new.text.items self.new.last) }
    {
        let start = self.text.len();
        let subject = texts.text(order[row[0] as usize]);
        let predicate = texts.text(order[row[1] as usize]);
        let object = texts.text(order[row[2] as usize]);
        put_line(&mut self.text, subject, predicate, object)?;
        match compare_lines(&self.text, self.last, start) {
            Ordering::Less => {
                self.last = start;
                Ok(true)
            }
            Ordering::Equal => {
                self.text.truncate(start);
                Ok(true)
            }
            Ordering::Greater => Ok(false),
        }
    }
}

/// Appends the line of three texts.
fn put_line(
    text: &mut Vec<u8>,
    subject: &[u8],
    predicate: &[u8],
    object: &[u8],
) -> Result<(), NoMemory>
    ensures { OnOk result (text.new.items ≡ text.old.items ++ line_of_texts subject.now predicate.now object.now) }
{
    text.extend_from_slice(subject)?;
    text.push(b' ')?;
    text.extend_from_slice(predicate)?;
    text.push(b' ')?;
    text.extend_from_slice(object)?;
    text.extend_from_slice(b" .\n")?;
    Ok(())
}

/// How the bytes between two places compare with those from the second place on.
fn compare_lines(text: &[u8], last: usize, start: usize) -> Ordering
    requires ordered { last ≤ start }
    requires within { start ≤ length text.now }
    ensures { result ≡ slice_cmp nat_cmp (slice_range text.now last start) (drop start text.now) }
{
    let before = &text[last..start];
    let after = &text[start..];
    before.cmp(&after)
}
