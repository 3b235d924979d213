//! Reads a term of any kind, by its first byte.

ghost use Rattle.std.specs.Prelude.{◌≡◌, ◌≤◌, length, IsUtf8, IfOk, ℕ, Result};
ghost use Rattle.std.specs.Str.{IsCharBoundary};
ghost use Rattle.gk_base.specs.declared.term.Term.{Term};
ghost use Rattle.gk_base.specs.declared.lex_fault.LexFault.{LexFault};
ghost use Rattle.gk_base.specs.Answers.{IsSo, Gives};
ghost use Rattle.nt_lex.specs.Reading.{Says};

use crate::blank::blank_answer;
use crate::iri::iri_answer;
use crate::lexed::{LexedTerm, owned};
use crate::literal::literal_answer;
use crate::scan::byte_at;
use gk_base::{LexFault, LexStop, Term};
use std::alloc::Global;

fn object_answer<'a>(
    alloc: Global,
    line: &'a [u8],
    at: usize,
) -> Result<(LexedTerm<'a>, usize), LexStop>
    requires inside { at ≤ length line.now }
    requires utf8 { IsUtf8 line.now }
    ensures { IsSo (Says line.now at) result }
{
    match byte_at(line, at) {
        b'<' => iri_answer(alloc, line, at),
        b'_' => blank_answer(line, at),
        b'"' => literal_answer(alloc, line, at),
        _ => Err(LexStop::Fault(LexFault::ObjectExpected)),
    }
}

/// Reads the term at `at`, and gives the place after it. The line is UTF-8. Only a text that differs from what
/// stands in the line takes memory.
///
/// Faults: `ObjectExpected` where none of `<`, `_` and `"` stands at `at`, and those of the three readers.
pub fn lex_object<'a>(
    alloc: Global,
    line: &'a [u8],
    at: usize,
) -> Result<(LexedTerm<'a>, usize), LexStop>
    requires inside { at ≤ length line.now }
    requires utf8 { IsUtf8 line.now }
    // What was answered is what stands there.
    ensures so { IsSo (Says line.now at) result }
    // What stands there was answered, unless memory ran out.
    ensures only { (answer : Result (Term × ℕ) LexFault) → Says line.now at answer → Gives result answer }
    ensures boundary { IfOk result (λ r. IsCharBoundary line.now r.1) }
{
    object_answer(alloc, line, at)
}

/// Reads the term at `at`, and gives the place after it. The line is UTF-8.
///
/// Faults: `ObjectExpected` where none of `<`, `_` and `"` stands at `at`, and those of the three readers.
pub fn read_object(alloc: Global, line: &[u8], at: usize) -> Result<(Term, usize), LexStop>
    requires inside { at ≤ length line.now }
    requires utf8 { IsUtf8 line.now }
    // What was answered is what stands there.
    ensures so { IsSo (Says line.now at) result }
    // What stands there was answered, unless memory ran out.
    ensures only { (answer : Result (Term × ℕ) LexFault) → Says line.now at answer → Gives result answer }
    ensures boundary { IfOk result (λ r. IsCharBoundary line.now r.1) }
{
    owned(alloc, object_answer(alloc, line, at))
}
