//! Lines of words alone.

ghost use Rattle.std.specs.Prelude.{◌≡◌, IfOk};
ghost use Rattle.std.specs.Option.{option_map};
ghost use Rattle.gk_base.specs.Answers.{IsSo};
ghost use Rattle.proof_file.specs.Words.{words_of, two_of};
ghost use Rattle.proof_file.specs.ProofText.{header_of, version_of, count_of, step_or_end_of, step_numbers, support_of, support_or_done_of};
ghost use Rattle.proof_file.specs.Progress.{IsExactly};

use crate::Support;
use crate::decimals::decimal_number;
use crate::fault::{LineStop, ProofFault};
use crate::step_or_end::StepOrEnd;
use crate::version::Version;
use crate::words::{next_word, two_words};
use gk_base::{NoMemory, Text};
use key_file::is_name;
use std::alloc::Global;

/// How many slots a key may have.
const MOST_SLOTS: u32 = 16;

/// The version that a word is.
fn version_of(word: &[u8]) -> Result<Version, ProofFault>
    ensures { result ≡ version_of word.now }
{
    if word == b"1".as_slice() {
        Ok(Version::One)
    } else if word == b"2".as_slice() {
        Ok(Version::Two)
    } else {
        Err(ProofFault::BadHeader)
    }
}

/// The header.
pub(crate) fn header(line: &[u8]) -> Result<Version, ProofFault>
    ensures { result ≡ header_of (two_of (words_of line.now)) }
{
    match two_words(line) {
        Some((word, version)) if word == b"gkey-proof".as_slice() => version_of(version),
        _ => Err(ProofFault::BadHeader),
    }
}

/// The number of terms.
pub(crate) fn count(line: &[u8]) -> Result<u32, ProofFault>
    ensures { result ≡ count_of (two_of (words_of line.now)) }
{
    match two_words(line) {
        Some((word, count)) if word == b"terms".as_slice() => {
            decimal_number(0, count).ok_or(ProofFault::BadLine)
        }
        _ => Err(ProofFault::BadLine),
    }
}

/// A step that begins, or the end.
pub(crate) fn step_or_end(alloc: Global, line: &[u8]) -> Result<StepOrEnd, LineStop>
    ensures { IsSo (IsExactly (step_or_end_of (two_of (words_of line.now)))) result }
{
    let Some((word, other)) = two_words(line) else {
        return Err(LineStop::Fault(ProofFault::BadLine));
    };
    if word == b"step".as_slice() {
        if !is_name(other) {
            return Err(LineStop::Fault(ProofFault::BadLine));
        }
        return Ok(StepOrEnd::Begins(Text::from_bytes(alloc, other)?));
    }
    if word == b"end".as_slice() {
        return match decimal_number(0, other) {
            Some(count) => Ok(StepOrEnd::Ends(count)),
            None => Err(LineStop::Fault(ProofFault::BadLine)),
        };
    }
    Err(LineStop::Fault(ProofFault::BadLine))
}

/// The numbers of steps that these words are.
fn step_numbers(alloc: Global, words: &[u8]) -> Result<Option<Vec<u32>>, NoMemory>
    ensures { IfOk result (λ numbers. option_map (λ v. v.items) numbers ≡ step_numbers (words_of words.now)) }
{
    let mut numbers = Vec::new(alloc);
    let mut rest = words;
    while let Some((word, more)) = next_word(rest) {
        match decimal_number(1, word) {
            Some(number) => numbers.push(number)?,
            None => return Ok(None),
        }
        rest = more;
    }
    Ok(Some(numbers))
}

/// A support at this slot with these numbers, or else the line is bad.
fn support(slot: Option<u32>, steps: Option<Vec<u32>>) -> Result<Option<Support>, ProofFault>
    ensures { result ≡ support_of slot (option_map (λ v. v.items) steps) }
{
    match (slot, steps) {
        (Some(slot), Some(steps)) if slot < MOST_SLOTS => Ok(Some(Support {
            slot: slot as u8,
            steps,
        })),
        _ => Err(ProofFault::BadLine),
    }
}

/// A support, or that the step is done.
pub(crate) fn support_or_done(alloc: Global, line: &[u8]) -> Result<Option<Support>, LineStop>
    ensures { IsSo (IsExactly (support_or_done_of (words_of line.now))) result }
{
    let Some((word, rest)) = next_word(line) else {
        return Err(LineStop::Fault(ProofFault::BadLine));
    };
    match next_word(rest) {
        None if word == b"done".as_slice() => Ok(None),
        Some((slot, numbers)) if word == b"by".as_slice() => {
            match support(decimal_number(0, slot), step_numbers(alloc, numbers)?) {
                Ok(support) => Ok(support),
                Err(fault) => Err(LineStop::Fault(fault)),
            }
        }
        _ => Err(LineStop::Fault(ProofFault::BadLine)),
    }
}
