//! Words, names, variables and terms of a line.

ghost use Rattle.std.specs.Prelude.{◌≡◌, ◌≤◌, length, slice_index, IsUtf8, IfOk};
ghost use Rattle.nt_lex.specs.Scans.{IsRunAt};
ghost use Rattle.gk_base.specs.Answers.{IsSo};
ghost use Rattle.key_lang.specs.Parts.{ClosesHere, in_key_file};
ghost use Rattle.key_lang.specs.Tokens.{Skipping, is_word_byte, is_over, is_variable, NameSays, VariableSays, IriSays, ConstantSays};

use crate::fault::{KeyFault, LineStop, fault_of_term};
use gk_base::{LexStop, Term, Text};
use key_file::is_name;
use nt_lex::{read_iri, read_literal, skip_space};
use std::alloc::Global;

/// The byte at `at`, or 0 past the end.
#[inline]
pub(crate) fn byte_at(line: &[u8], at: usize) -> u8
    ensures { result ≡ slice_index line.now at }
{
    if at < line.len() { line[at] } else { 0 }
}

/// Whether nothing more than a comment comes.
pub(crate) fn is_over(line: &[u8], at: usize) -> bool
    ensures { result ≡ is_over line.now at }
{
    at == line.len() || byte_at(line, at) == b'#'
}

/// Whether nothing more than a comment comes after tabs and spaces.
pub(crate) fn closes(line: &[u8], at: usize) -> bool
    requires { at ≤ length line.now }
    ensures { ClosesHere line.now at result }
{
    is_over(line, skip_space(line, at))
}

/// The place after the word at `at`.
pub(crate) fn word_end(line: &[u8], at: usize) -> usize
    requires { at ≤ length line.now }
    ensures { IsRunAt is_word_byte line.now at result }
{
    let mut end = at;
    while end < line.len() && line[end] != b' ' && line[end] != b'\t' {
        end += 1;
    }
    end
}

/// Whether a word is this sigil and a name.
fn is_variable(sigil: u8, word: &[u8]) -> bool
    ensures { result ≡ is_variable sigil word.now }
{
    match word.split_first() {
        Some((first, name)) => *first == sigil && is_name(name),
        None => false,
    }
}

/// Reads the name after tabs and spaces, and gives the place after it.
pub(crate) fn read_name(alloc: Global, line: &[u8], at: usize) -> Result<(Text, usize), LineStop>
    requires { at ≤ length line.now }
    ensures so { IsSo (Skipping line.now at (NameSays line.now)) result }
    ensures within { IfOk result (λ r. r.1 ≤ length line.now) }
{
    let begin = skip_space(line, at);
    let end = word_end(line, begin);
    let word = &line[begin..end];
    if !is_name(word) {
        return Err(LineStop::Fault(KeyFault::BadName));
    }
    Ok((Text::from_bytes(alloc, word)?, end))
}

/// Reads the variable with this sigil after tabs and spaces, and gives its name and the place after it.
pub(crate) fn read_variable(
    alloc: Global,
    sigil: u8,
    line: &[u8],
    at: usize,
) -> Result<(Text, usize), LineStop>
    requires { at ≤ length line.now }
    ensures so { IsSo (Skipping line.now at (VariableSays sigil line.now)) result }
    ensures within { IfOk result (λ r. r.1 ≤ length line.now) }
{
    let begin = skip_space(line, at);
    let end = word_end(line, begin);
    let word = &line[begin..end];
    if !is_variable(sigil, word) {
        return Err(LineStop::Fault(KeyFault::BadName));
    }
    Ok((Text::from_bytes(alloc, &word[1..])?, end))
}

/// What a reader of N-Triples answers, in a key file.
fn lexed(answer: Result<(Term, usize), LexStop>) -> Result<(Term, usize), LineStop>
    ensures { result ≡ in_key_file answer }
{
    match answer {
        Ok(read) => Ok(read),
        Err(LexStop::NoMemory) => Err(LineStop::NoMemory),
        Err(LexStop::Fault(fault)) => Err(LineStop::Fault(fault_of_term(fault))),
    }
}

/// Reads the IRI after tabs and spaces, and gives the place after it. The line is UTF-8.
pub(crate) fn read_type(alloc: Global, line: &[u8], at: usize) -> Result<(Term, usize), LineStop>
    requires inside { at ≤ length line.now }
    requires utf8 { IsUtf8 line.now }
    ensures so { IsSo (Skipping line.now at (IriSays line.now)) result }
    ensures within { IfOk result (λ r. r.1 ≤ length line.now) }
{
    let begin = skip_space(line, at);
    if byte_at(line, begin) == b'<' {
        lexed(read_iri(alloc, line, begin))
    } else {
        Err(LineStop::Fault(KeyFault::BadIri))
    }
}

/// Reads the IRI or the literal at `at`, and gives the place after it. The line is UTF-8.
pub(crate) fn read_constant(
    alloc: Global,
    line: &[u8],
    at: usize,
) -> Result<(Term, usize), LineStop>
    requires { IsUtf8 line.now }
    ensures so { IsSo (ConstantSays line.now at) result }
    ensures within { IfOk result (λ r. r.1 ≤ length line.now) }
{
    match byte_at(line, at) {
        b'<' => lexed(read_iri(alloc, line, at)),
        b'"' => lexed(read_literal(alloc, line, at)),
        _ => Err(LineStop::Fault(KeyFault::UnknownStatement)),
    }
}
