//! The canonical texts of names, each made once.

ghost use Rattle.std.specs.Prelude.{◌≡◌, ◌<◌, ◌++◌, [], IfOk, OnOk, length, take, drop, slice_index, if◌then◌else◌};
ghost use Rattle.term_text.specs.CanonicalText.{texts_of};
ghost use Rattle.chase_laws.specs.Report.{text_at};
ghost use Rattle.merge_graph.specs.Ranked.{kept_text, KeepsTexts};

use crate::faces::term_of;
use gk_base::NoMemory;
use std::alloc::Global;
use term_table::Names;
use term_text::put_lent_term;

/// For each name a text, one after another in one region of memory.
#[derive(Drop)]
pub struct NameTexts {
    bytes: Vec<u8>,
    /// At each name where its text begins, and then where the last one ends.
    starts: Vec<usize>,
}

impl NameTexts {
    /// Where the text of a name begins.
    #[inline]
    fn start(&self, place: usize) -> usize
        ensures { result ≡ slice_index self.now.starts.items place }
    {
        if place < self.starts.len() {
            self.starts[place]
        } else {
            0
        }
    }

    /// The text that is kept for a name; where there is no such name, the empty text.
    #[inline]
    pub fn text(&self, name: u32) -> &[u8]
        ensures { result.now ≡ kept_text self.now name }
    {
        let place = name as usize;
        let start = self.start(place);
        let end = self.start(place + 1);
        part(&self.bytes, start, end.saturating_sub(start))
    }
}

/// So many bytes from a place on, or as many as there are.
#[inline]
fn part(bytes: &[u8], start: usize, count: usize) -> &[u8]
    ensures { result.now ≡ take count (drop start bytes.now) }
{
    let rest = &bytes[start.min(bytes.len())..];
    &rest[..count.min(rest.len())]
}

/// The texts of the names that are marked. The other names have the empty text.
pub fn texts_of_marked(alloc: Global, names: &Names, marks: &[bool]) -> Result<NameTexts, NoMemory>
    requires { length marks.now ≡ length names.now }
    ensures { IfOk result (λ t. KeepsTexts (texts_of names.now) marks.now t) }
{
    let mut bytes = Vec::new(alloc);
    let mut starts = Vec::with_capacity(alloc, names.len() as usize + 1)?;
    starts.push(0)?;
    for place in 0..names.len() {
        put_marked(&mut bytes, names, marks[place as usize], place)?;
        starts.push(bytes.len())?;
    }
    Ok(NameTexts { bytes, starts })
}

/// Appends the text of a name where it is marked.
fn put_marked(
    bytes: &mut Vec<u8>,
    names: &Names,
    is_marked: bool,
    place: u32,
) -> Result<(), NoMemory>
    requires { place < length names.now }
    ensures { OnOk result (bytes.new.items ≡ bytes.old.items ++ (if is_marked then text_at (texts_of names.now) place else [])) }
{
    if !is_marked {
        return Ok(());
    }
    put_lent_term(bytes, &term_of(names, place))
}
