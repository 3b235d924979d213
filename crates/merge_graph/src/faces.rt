//! For each name its face, the member of its class whose canonical text is least by bytes. Only names that share their
//! label with another name are spelled.

ghost use Rattle.std.specs.Prelude.{◌≡◌, ◌<◌, ℕ, IfOk, OnOk, IfSome, length, ◌==◌, Some, if◌then◌else◌};
ghost use Rattle.term_text.specs.CanonicalText.{texts_of};
ghost use Rattle.chase_laws.specs.Report.{text_at};
ghost use Rattle.merge_graph.specs.MergedGraph.{name_at, same_label, AreFaces};
ghost use Rattle.merge_graph.specs.Faces.{kept_face, lesser, next_face, KeepsFaces};

use crate::face_table::FaceTable;
use gk_base::{NoMemory, Text};
use std::alloc::Global;
use term_list::TermRef;
use term_table::Names;
use term_text::put_lent_term;

/// For each name its face.
pub fn faces(alloc: Global, names: &Names, labels: &[u32]) -> Result<Vec<u32>, NoMemory>
    requires { length labels.now ≡ length names.now }
    ensures { IfOk result (λ v. AreFaces (texts_of names.now) (same_label labels.now) v.items) }
{
    let table = table_of(alloc, names, labels)?;
    let mut faces = Vec::with_capacity(alloc, labels.len())?;
    for place in 0..names.len() {
        faces.push(table.face(labels[place as usize]).unwrap_or(place))?;
    }
    Ok(faces)
}

/// The faces by their labels. One pass over the names.
fn table_of(alloc: Global, names: &Names, labels: &[u32]) -> Result<FaceTable, NoMemory>
    requires { length labels.now ≡ length names.now }
    ensures { IfOk result (λ t. KeepsFaces (texts_of names.now) labels.now (length labels.now) t) }
{
    let mut table = FaceTable::new(alloc, labels.len())?;
    for place in 0..names.len() {
        see(alloc, &mut table, names, labels[place as usize], place)?;
    }
    Ok(table)
}

/// Sees one name more with its label.
fn see(
    alloc: Global,
    table: &mut FaceTable,
    names: &Names,
    label: u32,
    place: u32,
) -> Result<(), NoMemory>
    requires place { place < length names.now }
    requires face { IfSome (kept_face table.old label) (λ face. face < length names.now) }
    ensures { OnOk result ((l : ℕ) → kept_face table.new l
        ≡ if l == label then Some (next_face (texts_of names.now) (kept_face table.old label) place) else kept_face table.old l) }
{
    let face = match table.face(label) {
        Some(face) => lesser_of(alloc, names, face, place)?,
        None => place,
    };
    table.set(label, face)
}

/// Of two names the one whose text is not above that of the other.
fn lesser_of(alloc: Global, names: &Names, first: u32, second: u32) -> Result<u32, NoMemory>
    requires first { first < length names.now }
    requires second { second < length names.now }
    ensures { IfOk result (λ n. n ≡ lesser (texts_of names.now) first second) }
{
    let first_text = text_of(alloc, names, first)?;
    let second_text = text_of(alloc, names, second)?;
    let stays = first_text.cmp(&second_text).is_le();
    Ok(if stays { first } else { second })
}

/// The canonical text of a name.
fn text_of(alloc: Global, names: &Names, place: u32) -> Result<Text, NoMemory>
    requires { place < length names.now }
    ensures { IfOk result (λ t. t ≡ text_at (texts_of names.now) place) }
{
    let mut bytes = Vec::new(alloc);
    put_lent_term(&mut bytes, &term_of(names, place))?;
    Ok(Text::from_vec(bytes))
}

/// The term of a name, lent.
pub(crate) fn term_of(names: &Names, place: u32) -> TermRef<'_>
    requires { place < length names.now }
    ensures { result ≡ name_at names.now place }
{
    names.term(place)
}
