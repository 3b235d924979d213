//! Reads literals: a string, and the datatype or the language tag behind it.

ghost use Rattle.std.specs.Prelude.{◌≡◌, ◌<◌, ◌≤◌, ◌↔◌, length, slice_index, IsUtf8, IsTrue, IfOk, ℕ, Result};
ghost use Rattle.std.specs.Cow.{cow_slice_items};
ghost use Rattle.std.specs.Str.{IsCharBoundary};
ghost use Rattle.gk_base.specs.declared.term.Term.{Term};
ghost use Rattle.gk_base.specs.declared.term.Term.TheVariants.{Plain};
ghost use Rattle.gk_base.specs.declared.lex_fault.LexFault.{LexFault};
ghost use Rattle.gk_base.specs.Answers.{IsSo, Gives};
ghost use Rattle.nt_lex.specs.Spelling.{xsd_string, HasDatatype};
ghost use Rattle.nt_lex.specs.Parts.{SuffixSays};
ghost use Rattle.nt_lex.specs.Reading.{Says};

use crate::body::string_body;
use crate::iri::iri_text;
use crate::lexed::{LexedTerm, owned};
use crate::scan::byte_at;
use crate::space::skip_space;
use crate::tag::{lowered, tag_end};
use gk_base::{LexFault, LexStop, Term};
use std::alloc::Global;
use std::borrow::CowSlice;
use term_list::TermKind;

const XSD_STRING: &[u8; 39] = b"http://www.w3.org/2001/XMLSchema#string";

fn is_xsd_string(iri: &[u8]) -> bool
    ensures { IsTrue result ↔ (iri.now ≡ xsd_string) }
{
    iri == XSD_STRING.as_slice()
}

fn plain<'a>(form: CowSlice<'a, u8>) -> LexedTerm<'a>
    ensures { result ≡ Plain (cow_slice_items form.entry) }
{
    LexedTerm::new(TermKind::Plain, form, CowSlice::Borrowed(&[]))
}

fn with_datatype<'a>(form: CowSlice<'a, u8>, datatype: CowSlice<'a, u8>) -> LexedTerm<'a>
    ensures { HasDatatype (cow_slice_items form.entry) (cow_slice_items datatype.entry) result }
{
    if is_xsd_string(datatype.as_slice()) {
        plain(form)
    } else {
        LexedTerm::new(TermKind::Typed, form, datatype)
    }
}

/// Reads what stands after a string that closed before `close`.
fn read_suffix<'a>(
    alloc: Global,
    line: &'a [u8],
    form: CowSlice<'a, u8>,
    close: usize,
) -> Result<(LexedTerm<'a>, usize), LexStop>
    requires inside { close ≤ length line.now }
    requires utf8 { IsUtf8 line.now }
    ensures { IsSo (SuffixSays line.now (cow_slice_items form.entry) close) result }
{
    let next = skip_space(line, close);
    if byte_at(line, next) == b'^' && byte_at(line, next + 1) == b'^' {
        let begin = skip_space(line, next + 2);
        if byte_at(line, begin) != b'<' {
            return Err(LexStop::Fault(LexFault::BadIri));
        }
        let (iri, end) = iri_text(alloc, line, begin)?;
        return Ok((with_datatype(form, iri), end));
    }
    if byte_at(line, next) == b'@' {
        return match tag_end(line, next + 1) {
            Some(end) => {
                let tag = lowered(alloc, &line[next + 1..end])?;
                Ok((LexedTerm::new(TermKind::Lang, form, tag), end))
            }
            None => Err(LexStop::Fault(LexFault::BadLanguageTag)),
        };
    }
    Ok((plain(form), close))
}

#[tactic(auto, using(crate::proofs::AnswerLemmas::utf_after_byte))]
pub(crate) fn literal_answer<'a>(
    alloc: Global,
    line: &'a [u8],
    at: usize,
) -> Result<(LexedTerm<'a>, usize), LexStop>
    requires inside { at < length line.now }
    requires opens { slice_index line.now at ≡ 0x22 }
    requires utf8 { IsUtf8 line.now }
    ensures { IsSo (Says line.now at) result }
{
    let (text, end) = string_body(alloc, line, at + 1)?;
    let byte = byte_at(line, end);
    if byte == b'"' {
        return read_suffix(alloc, line, text, end + 1);
    }
    if byte == b'\\' {
        return Err(LexStop::Fault(LexFault::BadEscape));
    }
    Err(LexStop::Fault(LexFault::StringNotClosed))
}

/// Reads the literal whose `"` stands at `at`, and gives the place after it. The line is UTF-8.
///
/// Faults: `BadEscape` and `StringNotClosed` in its string, `BadLanguageTag`, and those of the IRI of its
/// datatype, where `BadIri` comes too when no `<` follows `^^`.
pub fn read_literal(alloc: Global, line: &[u8], at: usize) -> Result<(Term, usize), LexStop>
    requires inside { at < length line.now }
    requires opens { slice_index line.now at ≡ 0x22 }
    requires utf8 { IsUtf8 line.now }
    // What was answered is what stands there.
    ensures so { IsSo (Says line.now at) result }
    // What stands there was answered, unless memory ran out.
    ensures only { (answer : Result (Term × ℕ) LexFault) → Says line.now at answer → Gives result answer }
    ensures boundary { IfOk result (λ r. IsCharBoundary line.now r.1) }
{
    owned(alloc, literal_answer(alloc, line, at))
}
