//! Reads IRIs, which stand between angle brackets.

ghost use Rattle.std.specs.Prelude.{◌≡◌, ◌<◌, ◌≤◌, length, slice_index, IsUtf8, ℕ, Result, IfOk};
ghost use Rattle.std.specs.Str.{IsCharBoundary};
ghost use Rattle.gk_base.specs.declared.term.Term.{Term};
ghost use Rattle.gk_base.specs.declared.lex_fault.LexFault.{LexFault};
ghost use Rattle.gk_base.specs.Answers.{IsSo, Gives};
ghost use Rattle.nt_lex.specs.Chars.{is_absolute, is_scheme};
ghost use Rattle.nt_lex.specs.Parts.{IriTextSays};
ghost use Rattle.nt_lex.specs.Reading.{Says};

use crate::body::iri_body;
use crate::lexed::{LexedTerm, owned};
use gk_base::{LexFault, LexStop, Term};
use std::alloc::Global;
use std::borrow::CowSlice;
use term_list::TermKind;

/// What stands in a scheme after its first letter.
#[inline]
fn is_scheme(b: u8) -> bool
    ensures { result ≡ is_scheme b }
{
    b.is_ascii_alphabetic() || b.is_ascii_digit() || b == b'+' || b == b'-' || b == b'.'
}

/// Whether the text begins with a scheme and a colon.
fn is_absolute(text: &[u8]) -> bool
    ensures { result ≡ is_absolute text.now }
{
    let Some((first, rest)) = text.split_first() else {
        return false;
    };
    if !first.is_ascii_alphabetic() {
        return false;
    }
    'scheme: for b in rest {
        if *b == b':' {
            return true;
        }
        if !is_scheme(*b) {
            return false;
        }
    }
    false
}

#[tactic(auto, using(crate::proofs::AnswerLemmas::utf_after_byte))]
/// The text of the IRI at `at`, and the place after it.
pub(crate) fn iri_text<'a>(
    alloc: Global,
    line: &'a [u8],
    at: usize,
) -> Result<(CowSlice<'a, u8>, usize), LexStop>
    requires inside { at < length line.now }
    requires opens { slice_index line.now at ≡ 0x3C }
    requires utf8 { IsUtf8 line.now }
    ensures { IsSo (IriTextSays line.now at) result }
{
    let (text, end) = iri_body(alloc, line, at + 1)?;
    if end == line.len() {
        return Err(LexStop::Fault(LexFault::BadIri));
    }
    match line[end] {
        b'>' => {
            if is_absolute(text.as_slice()) {
                Ok((text, end + 1))
            } else {
                Err(LexStop::Fault(LexFault::RelativeIri))
            }
        }
        b'\\' => Err(LexStop::Fault(LexFault::BadEscape)),
        _ => Err(LexStop::Fault(LexFault::BadIri)),
    }
}

pub(crate) fn iri_answer<'a>(
    alloc: Global,
    line: &'a [u8],
    at: usize,
) -> Result<(LexedTerm<'a>, usize), LexStop>
    requires inside { at < length line.now }
    requires opens { slice_index line.now at ≡ 0x3C }
    requires utf8 { IsUtf8 line.now }
    ensures { IsSo (Says line.now at) result }
{
    let (text, end) = iri_text(alloc, line, at)?;
    let name = LexedTerm::new(TermKind::Iri, text, CowSlice::Borrowed(&[]));
    Ok((name, end))
}

/// Reads the IRI whose `<` stands at `at`, and gives the place after its `>`. The line is UTF-8. Only a text that
/// differs from what stands in the line takes memory.
///
/// Faults: `BadIri`, `RelativeIri`, `BadEscape`.
pub fn lex_iri<'a>(
    alloc: Global,
    line: &'a [u8],
    at: usize,
) -> Result<(LexedTerm<'a>, usize), LexStop>
    requires inside { at < length line.now }
    requires opens { slice_index line.now at ≡ 0x3C }
    requires utf8 { IsUtf8 line.now }
    // What was answered is what stands there.
    ensures so { IsSo (Says line.now at) result }
    // What stands there was answered, unless memory ran out.
    ensures only { (answer : Result (Term × ℕ) LexFault) → Says line.now at answer → Gives result answer }
    ensures boundary { IfOk result (λ r. IsCharBoundary line.now r.1) }
{
    iri_answer(alloc, line, at)
}

/// Reads the IRI whose `<` stands at `at`, and gives the place after its `>`. The line is UTF-8.
///
/// Faults: `BadIri`, `RelativeIri`, `BadEscape`.
pub fn read_iri(alloc: Global, line: &[u8], at: usize) -> Result<(Term, usize), LexStop>
    requires inside { at < length line.now }
    requires opens { slice_index line.now at ≡ 0x3C }
    requires utf8 { IsUtf8 line.now }
    // What was answered is what stands there.
    ensures so { IsSo (Says line.now at) result }
    // What stands there was answered, unless memory ran out.
    ensures only { (answer : Result (Term × ℕ) LexFault) → Says line.now at answer → Gives result answer }
    ensures boundary { IfOk result (λ r. IsCharBoundary line.now r.1) }
{
    owned(alloc, iri_answer(alloc, line, at))
}
