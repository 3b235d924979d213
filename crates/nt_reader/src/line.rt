//! Reads one line: its triple, or what is wrong with it.

ghost use Rattle.std.specs.Prelude.{◌≡◌, ◌≤◌, ◌↔◌, length, slice_index, IsUtf8, IsTrue, IfOk, ℕ, Option, Result};
ghost use Rattle.gk_base.specs.declared.term.Triple.{Triple};
ghost use Rattle.gk_base.specs.declared.lex_fault.LexFault.{LexFault};
ghost use Rattle.gk_base.specs.Answers.{IsSo, Gives};
ghost use Rattle.nt_reader.specs.Line.{IsOver, SubjectSays, PredicateSays, EndSays, FromObject, FromPredicate, FromSubject, LineSays};

use crate::lexed_triple::LexedTriple;
use gk_base::{LexFault, LexStop, Triple};
use nt_lex::{LexedTerm, lex_blank, lex_iri, lex_object, skip_space};
use std::alloc::Global;

/// The byte at `at`, or 0 past the end.
#[inline]
fn byte_at(line: &[u8], at: usize) -> u8
    ensures { result ≡ slice_index line.now at }
{
    if at < line.len() { line[at] } else { 0 }
}

/// Reads the subject at `at`, and gives the place after it.
fn read_subject<'a>(
    alloc: Global,
    line: &'a [u8],
    at: usize,
) -> Result<(LexedTerm<'a>, usize), LexStop>
    requires { IsUtf8 line.now }
    ensures so { IsSo (SubjectSays line.now at) result }
    ensures within { IfOk result (λ r. r.1 ≤ length line.now) }
{
    let first = byte_at(line, at);
    if first == b'<' {
        return lex_iri(alloc, line, at);
    }
    if first == b'_' {
        return lex_blank(line, at);
    }
    Err(LexStop::Fault(LexFault::SubjectExpected))
}

/// Reads the predicate at `at`, and gives the place after it.
fn read_predicate<'a>(
    alloc: Global,
    line: &'a [u8],
    at: usize,
) -> Result<(LexedTerm<'a>, usize), LexStop>
    requires { IsUtf8 line.now }
    ensures so { IsSo (PredicateSays line.now at) result }
    ensures within { IfOk result (λ r. r.1 ≤ length line.now) }
{
    if byte_at(line, at) == b'<' {
        return lex_iri(alloc, line, at);
    }
    Err(LexStop::Fault(LexFault::PredicateExpected))
}

/// Whether nothing more than a comment comes.
fn is_over(line: &[u8], at: usize) -> bool
    requires { at ≤ length line.now }
    ensures { IsTrue result ↔ IsOver line.now at }
{
    at == line.len() || line[at] == b'#'
}

/// What is wrong from the place after the object on, if anything is.
fn end_fault(line: &[u8], at: usize) -> Option<LexFault>
    requires { at ≤ length line.now }
    ensures { EndSays line.now at result }
{
    if byte_at(line, at) != b'.' {
        return Some(LexFault::DotExpected);
    }
    if is_over(line, skip_space(line, at + 1)) {
        None
    } else {
        Some(LexFault::TextAfterTheDot)
    }
}

/// Reads on from the object.
fn read_from_object<'a>(
    alloc: Global,
    line: &'a [u8],
    subject: LexedTerm<'a>,
    predicate: LexedTerm<'a>,
    at: usize,
) -> Result<LexedTriple<'a>, LexStop>
    requires inside { at ≤ length line.now }
    requires utf8 { IsUtf8 line.now }
    ensures { IsSo (FromObject line.now subject.entry predicate.entry at) result }
{
    let (object, end) = lex_object(alloc, line, at)?;
    match end_fault(line, skip_space(line, end)) {
        None => Ok(LexedTriple {
            subject,
            predicate,
            object,
        }),
        Some(fault) => Err(LexStop::Fault(fault)),
    }
}

/// Reads on from the predicate.
fn read_from_predicate<'a>(
    alloc: Global,
    line: &'a [u8],
    subject: LexedTerm<'a>,
    at: usize,
) -> Result<LexedTriple<'a>, LexStop>
    requires { IsUtf8 line.now }
    ensures { IsSo (FromPredicate line.now subject.entry at) result }
{
    let (predicate, end) = read_predicate(alloc, line, at)?;
    read_from_object(alloc, line, subject, predicate, skip_space(line, end))
}

/// Reads on from the subject.
fn read_from_subject<'a>(
    alloc: Global,
    line: &'a [u8],
    at: usize,
) -> Result<LexedTriple<'a>, LexStop>
    requires { IsUtf8 line.now }
    ensures { IsSo (FromSubject line.now at) result }
{
    let (subject, end) = read_subject(alloc, line, at)?;
    read_from_predicate(alloc, line, subject, skip_space(line, end))
}

/// Reads a line as `read_line` does, and lends its terms.
pub(crate) fn line_answer<'a>(
    alloc: Global,
    line: &'a [u8],
) -> Result<Option<LexedTriple<'a>>, LexStop>
    ensures { IsSo (LineSays line.now) result }
{
    if !simdutf8::is_utf8(line) {
        return Err(LexStop::Fault(LexFault::NotUtf8));
    }
    let at = skip_space(line, 0);
    if is_over(line, at) {
        return Ok(None);
    }
    Ok(Some(read_from_subject(alloc, line, at)?))
}

/// Reads a line, which has no line feed and no carriage return: its triple, or nothing where it is white space
/// alone, or white space and a comment.
///
/// Faults: `NotUtf8` before all others, and else the first that is met from left to right.
pub fn read_line(alloc: Global, line: &[u8]) -> Result<Option<Triple>, LexStop>
    // What was answered is what the line says.
    ensures so { IsSo (LineSays line.now) result }
    // What the line says was answered, unless memory ran out.
    ensures only { (answer : Result (Option Triple) LexFault) → LineSays line.now answer → Gives result answer }
{
    match line_answer(alloc, line)? {
        Some(triple) => Ok(Some(triple.to_triple(alloc)?)),
        None => Ok(None),
    }
}
