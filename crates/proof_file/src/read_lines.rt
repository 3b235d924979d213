//! Reads the lines of a proof file.

ghost use Rattle.std.specs.Prelude.{IsTrue, IsUtf8, length};
ghost use Rattle.proof_file.specs.Progress.{progress_with, IsBelow};
ghost use Rattle.proof_file.specs.ReadLines.{HasReadLines, LineTold, LinesTold, AllLinesTold};

use crate::fault::{LineStop, ProofRefusal, ProofStop};
use crate::line::after_line;
use crate::progress::{Known, Progress};
use crate::splitting::split_line;
use crate::stage::Stage;
use crate::version::Version;
use std::alloc::Global;
use term_list::Terms;

/// What the lines that end in a text come to.
#[derive(Drop)]
pub(crate) struct ReadLines<'a> {
    pub(crate) progress: Progress,
    /// The number of the next line, from 1.
    pub(crate) number: u64,
    /// What has come of the next line.
    pub(crate) rest: &'a [u8],
    /// Whether a carriage return came last.
    pub(crate) returned: bool,
}

/// The file after the line of this number, which may be known to be UTF-8, or its refusal.
fn judge(
    alloc: Global,
    terms: &mut Terms,
    progress: Progress,
    number: u64,
    line: &[u8],
    known: bool,
) -> Result<Progress, ProofStop>
    requires below { IsBelow (length terms.old) progress }
    requires utf8 { IsTrue known → IsUtf8 line.now }
    ensures { LineTold terms.new (progress_with terms.old progress) line.now number result }
{
    match after_line(alloc, terms, progress, line, known) {
        Ok(progress) => Ok(progress),
        Err(LineStop::NoMemory) => Err(ProofStop::NoMemory),
        Err(LineStop::Fault(fault)) => Err(ProofStop::Fault(ProofRefusal {
            line: number,
            fault,
        })),
    }
}

/// Reads the lines that end in a text.
pub(crate) fn read_lines<'a>(
    alloc: Global,
    terms: &mut Terms,
    text: &'a [u8],
) -> Result<ReadLines<'a>, ProofStop>
    ensures { LinesTold terms.new text.now result }
{
    let mut progress = Progress {
        known: Known {
            version: Version::One,
            listed: Vec::new(alloc),
            steps: Vec::new(alloc),
        },
        stage: Stage::Header,
    };
    // Where the whole text is UTF-8, so is each of its lines.
    let is_utf8 = simdutf8::is_utf8(text);
    let mut number = 1u64;
    let mut rest = text;
    let mut returned = false;
    while let Some(split) = split_line(rest) {
        progress = judge(alloc, terms, progress, number, split.line, is_utf8)?;
        number += 1;
        rest = split.rest;
        returned = split.returned;
    }
    Ok(ReadLines {
        progress,
        number,
        rest,
        returned: returned && rest.is_empty(),
    })
}

/// Reads the last line of a text too, which has no end, if there is one. The lines are those of the text.
pub(crate) fn read_last(
    alloc: Global,
    terms: &mut Terms,
    text: &[u8],
    lines: ReadLines<'_>,
) -> Result<(Progress, u64), ProofStop>
    requires { HasReadLines terms.old text.now lines.progress lines.number lines.rest.now lines.returned }
    ensures { AllLinesTold terms.new text.now result }
{
    let ReadLines {
        progress,
        number,
        rest,
        ..
    } = lines;
    if rest.is_empty() {
        return Ok((progress, number.saturating_sub(1)));
    }
    let progress = judge(alloc, terms, progress, number, rest, false)?;
    Ok((progress, number))
}
