//! Reads blank nodes: `_:` and a label.

ghost use Rattle.std.specs.Prelude.{◌≡◌, ◌≢◌, ◌<◌, ◌≤◌, length, drop, slice_index, IsUtf8, IfOk, IfSome, ℕ, Result, Err};
ghost use Rattle.std.specs.Str.{IsCharBoundary};
ghost use Rattle.gk_base.specs.declared.term.Term.{Term};
ghost use Rattle.gk_base.specs.declared.lex_fault.LexFault.{LexFault};
ghost use Rattle.gk_base.specs.declared.stop.Stop.TheVariants.{NoMemory};
ghost use Rattle.gk_base.specs.Answers.{IsSo, Gives};
ghost use Rattle.nt_lex.specs.Chars.{is_between, is_pn_chars_base, is_pn_chars_u, is_label_first, is_pn_chars, is_label_inner};
ghost use Rattle.nt_lex.specs.Parts.{OthersIn, LabelSays};
ghost use Rattle.nt_lex.specs.Reading.{Says};

use crate::lexed::{LexedTerm, owned};
use crate::scan::byte_at;
use gk_base::{LexFault, LexStop, Term};
use std::alloc::Global;
use std::borrow::CowSlice;
use term_list::TermKind;

fn is_between(c: char, low: char, high: char) -> bool
    ensures { result ≡ is_between low high c }
{
    low <= c && c <= high
}

/// PN_CHARS_BASE.
fn is_pn_chars_base(c: char) -> bool
    ensures { result ≡ is_pn_chars_base c }
{
    is_between(c, 'A', 'Z')
        || is_between(c, 'a', 'z')
        || is_between(c, '\u{C0}', '\u{D6}')
        || is_between(c, '\u{D8}', '\u{F6}')
        || is_between(c, '\u{F8}', '\u{2FF}')
        || is_between(c, '\u{370}', '\u{37D}')
        || is_between(c, '\u{37F}', '\u{1FFF}')
        || is_between(c, '\u{200C}', '\u{200D}')
        || is_between(c, '\u{2070}', '\u{218F}')
        || is_between(c, '\u{2C00}', '\u{2FEF}')
        || is_between(c, '\u{3001}', '\u{D7FF}')
        || is_between(c, '\u{F900}', '\u{FDCF}')
        || is_between(c, '\u{FDF0}', '\u{FFFD}')
        || is_between(c, '\u{10000}', '\u{EFFFF}')
}

/// PN_CHARS_U.
fn is_pn_chars_u(c: char) -> bool
    ensures { result ≡ is_pn_chars_u c }
{
    is_pn_chars_base(c) || c == '_' || c == ':'
}

/// PN_CHARS_U or a digit.
fn is_label_first(c: char) -> bool
    ensures { result ≡ is_label_first c }
{
    is_pn_chars_u(c) || is_between(c, '0', '9')
}

/// PN_CHARS.
fn is_pn_chars(c: char) -> bool
    ensures { result ≡ is_pn_chars c }
{
    is_pn_chars_u(c)
        || c == '-'
        || is_between(c, '0', '9')
        || c == '\u{B7}'
        || is_between(c, '\u{300}', '\u{36F}')
        || is_between(c, '\u{203F}', '\u{2040}')
}

/// PN_CHARS or a dot.
fn is_label_inner(c: char) -> bool
    ensures { result ≡ is_label_inner c }
{
    is_pn_chars(c) || c == '.'
}

/// How many bytes the PN_CHARS and dots take that stand first in the text, less the dots at their end.
fn others_len(text: &str) -> usize
    ensures { OthersIn text.now result }
{
    let mut chars = text.chars();
    let mut len = 0;
    while let Some(c) = chars.next() {
        if !is_label_inner(c) {
            break;
        }
        if c != '.' {
            len = text.len() - chars.as_str().len();
        }
    }
    len
}

/// How many bytes the label takes that stands first in the text, if one does.
fn label_len(text: &str) -> Option<usize>
    ensures { LabelSays text.now result }
{
    let mut chars = text.chars();
    match chars.next() {
        Some(first) => {
            if !is_label_first(first) {
                return None;
            }
            let rest = chars.as_str();
            Some(text.len() - rest.len() + others_len(rest))
        }
        None => None,
    }
}

/// What stands from `from` on.
fn text_from(line: &[u8], from: usize) -> &str
    requires inside { from ≤ length line.now }
    requires utf8 { IsUtf8 (drop from line.now) }
    ensures { result.now ≡ drop from line.now }
{
    // The bytes were tested by the caller: they are UTF-8.
    unsafe { str::from_utf8_unchecked(&line[from..]) }
}

#[tactic(auto, using(crate::proofs::AnswerLemmas::utf_after_byte))]
pub(crate) fn blank_answer<'a>(line: &'a [u8], at: usize) -> Result<(LexedTerm<'a>, usize), LexStop>
    requires inside { at < length line.now }
    requires opens { slice_index line.now at ≡ 0x5F }
    requires utf8 { IsUtf8 line.now }
    ensures so { IsSo (Says line.now at) result }
    ensures sure { result ≢ Err NoMemory }
{
    if byte_at(line, at + 1) != b':' {
        return Err(LexStop::Fault(LexFault::BadBlankNodeLabel));
    }
    match label_len(text_from(line, at + 2)) {
        Some(len) => {
            let end = at + 2 + len;
            let label = CowSlice::Borrowed(&line[at + 2..end]);
            let node = LexedTerm::new(TermKind::Blank, label, CowSlice::Borrowed(&[]));
            Ok((node, end))
        }
        None => Err(LexStop::Fault(LexFault::BadBlankNodeLabel)),
    }
}

/// Reads the blank node whose `_` stands at `at`, and gives the place after its label: the longest run of
/// PN_CHARS and dots after the first character, less the dots at its end. The line is UTF-8. It takes no
/// memory: a label stands in the line as it is.
///
/// Fault: `BadBlankNodeLabel`.
pub fn lex_blank<'a>(line: &'a [u8], at: usize) -> Result<(LexedTerm<'a>, usize), LexStop>
    requires inside { at < length line.now }
    requires opens { slice_index line.now at ≡ 0x5F }
    requires utf8 { IsUtf8 line.now }
    // What was answered is what stands there.
    ensures so { IsSo (Says line.now at) result }
    // What stands there was answered, and memory can't run out.
    ensures only { (answer : Result (Term × ℕ) LexFault) → Says line.now at answer → Gives result answer }
    ensures sure { result ≢ Err NoMemory }
    ensures boundary { IfOk result (λ r. IsCharBoundary line.now r.1) }
{
    blank_answer(line, at)
}

/// Reads the blank node whose `_` stands at `at`, and gives the place after its label: the longest run of
/// PN_CHARS and dots after the first character, less the dots at its end. The line is UTF-8.
///
/// Fault: `BadBlankNodeLabel`.
pub fn read_blank(alloc: Global, line: &[u8], at: usize) -> Result<(Term, usize), LexStop>
    requires inside { at < length line.now }
    requires opens { slice_index line.now at ≡ 0x5F }
    requires utf8 { IsUtf8 line.now }
    // What was answered is what stands there.
    ensures so { IsSo (Says line.now at) result }
    // What stands there was answered, unless memory ran out.
    ensures only { (answer : Result (Term × ℕ) LexFault) → Says line.now at answer → Gives result answer }
    ensures boundary { IfOk result (λ r. IsCharBoundary line.now r.1) }
{
    owned(alloc, blank_answer(line, at))
}
