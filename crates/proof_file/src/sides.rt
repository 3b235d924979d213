//! The sides of a step, and the terms that a file lists.

ghost use Rattle.std.specs.Prelude.{◌≡◌, ◌≤◌, List, Some, IsUtf8, IfOk, length, slice_get, slice_index};
ghost use Rattle.gk_base.specs.declared.term.Term.{Term};
ghost use Rattle.nt_lex.specs.Reading.{begins_term};
ghost use Rattle.key_file.specs.Compile.{HasMoreNames};
ghost use Rattle.proof_file.specs.Words.{words_of, decimal_number};
ghost use Rattle.proof_file.specs.ProofText.{numbered_one, numbered_all, numbered_side, TermsSay, OneTermSays, SideSays};
ghost use Rattle.proof_file.specs.declared.version.Version.TheVariants.{One};
ghost use Rattle.proof_file.specs.Progress.{ItemsAre, TermTold, SideTold, OneTermTold};

use crate::decimals::decimal_number;
use crate::fault::{LineStop, ProofFault};
use crate::term_numbers::MOST_TERMS;
use crate::words::{first_word, next_word};
use gk_base::{LexStop, NoMemory};
use nt_lex::{lex_object, skip_space};
use std::alloc::Global;
use term_list::{TermRef, Terms};

/// What has the number that a word is in a list.
fn numbered_one(listed: &[u32], word: &[u8]) -> Result<u32, ProofFault>
    ensures { result ≡ numbered_one listed.now (decimal_number 1 word.now) }
{
    match decimal_number(1, word) {
        None => Err(ProofFault::BadLine),
        Some(number) => match listed.get(number as usize - 1) {
            Some(one) => Ok(*one),
            None => Err(ProofFault::TermNumberOutOfRange),
        },
    }
}

/// What have the numbers that these words are in a list.
fn numbered_all(alloc: Global, listed: &[u32], words: &[u8]) -> Result<Vec<u32>, LineStop>
    ensures { ItemsAre (numbered_all listed.now (words_of words.now)) result }
{
    let mut numbers = Vec::new(alloc);
    let mut rest = words;
    while let Some((word, more)) = next_word(rest) {
        match numbered_one(listed, word) {
            Ok(number) => numbers.push(number)?,
            Err(fault) => return Err(LineStop::Fault(fault)),
        }
        rest = more;
    }
    Ok(numbers)
}

/// A side of a step in version 2: this word, and numbers of a list.
pub(crate) fn numbered_side(
    alloc: Global,
    word: &[u8],
    listed: &[u32],
    line: &[u8],
) -> Result<Vec<u32>, LineStop>
    ensures { ItemsAre (numbered_side word.now listed.now (words_of line.now)) result }
{
    let Some((first, rest)) = next_word(line) else {
        return Err(LineStop::Fault(ProofFault::BadLine));
    };
    if first != word || next_word(rest).is_none() {
        return Err(LineStop::Fault(ProofFault::BadLine));
    }
    numbered_all(alloc, listed, rest)
}

/// The number of a term, which is put behind those that have come.
fn number(terms: &mut Terms, term: &TermRef<'_>) -> Result<u32, NoMemory>
    ensures grown { HasMoreNames terms.old terms.new }
    ensures number { IfOk result (λ n. slice_get terms.new n ≡ Some term.now) }
{
    let count = terms.len();
    if count >= MOST_TERMS {
        return Err(NoMemory);
    }
    terms.push(term)?;
    Ok(count as u32)
}

/// Whether a term begins at a place, be it good or not.
fn begins_term(line: &[u8], at: usize) -> bool
    ensures { result ≡ begins_term (slice_index line.now at) }
{
    match line.get(at) {
        Some(byte) => *byte == b'<' || *byte == b'_' || *byte == b'"',
        None => false,
    }
}

/// The number of the term that stands at a place, and the place after it.
fn read_term(
    alloc: Global,
    terms: &mut Terms,
    line: &[u8],
    at: usize,
) -> Result<(u32, usize), LineStop>
    requires inside { at ≤ length line.now }
    requires utf8 { IsUtf8 line.now }
    ensures grown { HasMoreNames terms.old terms.new }
    ensures told { TermTold terms.new line.now at result }
{
    match lex_object(alloc, line, at) {
        Ok((term, end)) => Ok((number(terms, &term.lent())?, end)),
        Err(LexStop::NoMemory) => Err(LineStop::NoMemory),
        Err(LexStop::Fault(fault)) => Err(LineStop::Fault(ProofFault::Lex(fault))),
    }
}

/// The numbers of the terms that stand from a place on.
fn read_terms(
    alloc: Global,
    terms: &mut Terms,
    line: &[u8],
    at: usize,
) -> Result<Vec<u32>, LineStop>
    requires inside { at ≤ length line.now }
    requires utf8 { IsUtf8 line.now }
    ensures grown { HasMoreNames terms.old terms.new }
    ensures told { SideTold terms.new (TermsSay line.now at) result }
{
    let mut numbers = Vec::new(alloc);
    let mut next = skip_space(line, at);
    while next != line.len() {
        if !begins_term(line, next) {
            return Err(LineStop::Fault(ProofFault::BadLine));
        }
        let (number, end) = read_term(alloc, terms, line, next)?;
        numbers.push(number)?;
        next = skip_space(line, end);
    }
    Ok(numbers)
}

/// A side of a step in version 1: this word, and terms.
pub(crate) fn spelled_side(
    alloc: Global,
    terms: &mut Terms,
    word: &[u8],
    line: &[u8],
) -> Result<Vec<u32>, LineStop>
    requires { IsUtf8 line.now }
    ensures grown { HasMoreNames terms.old terms.new }
    ensures told { (listed : List Term) → SideTold terms.new (SideSays word.now line.now listed One) result }
{
    let (begin, end) = first_word(line);
    if &line[begin..end] != word {
        return Err(LineStop::Fault(ProofFault::BadLine));
    }
    let numbers = read_terms(alloc, terms, line, end)?;
    if numbers.is_empty() {
        return Err(LineStop::Fault(ProofFault::BadLine));
    }
    Ok(numbers)
}

/// The number of the one term of a line.
pub(crate) fn one_term(alloc: Global, terms: &mut Terms, line: &[u8]) -> Result<u32, LineStop>
    requires { IsUtf8 line.now }
    ensures grown { HasMoreNames terms.old terms.new }
    ensures told { OneTermTold terms.new (OneTermSays line.now) result }
{
    let at = skip_space(line, 0);
    if !begins_term(line, at) {
        return Err(LineStop::Fault(ProofFault::BadLine));
    }
    let (number, end) = read_term(alloc, terms, line, at)?;
    if skip_space(line, end) != line.len() {
        return Err(LineStop::Fault(ProofFault::BadLine));
    }
    Ok(number)
}
