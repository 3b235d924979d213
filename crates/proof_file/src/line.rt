//! One line of a proof file.

ghost use Rattle.std.specs.Prelude.{◌≡◌, ◌↔◌, ◌++◌, ◌∷◌, [], ℕ, List, IsTrue, IsUtf8, OnOk, length, map};
ghost use Rattle.gk_base.specs.declared.term.Term.{Term};
ghost use Rattle.key_file.specs.Compile.{HasMoreNames};
ghost use Rattle.proof_file.specs.Steps.{term_at, step_with, IsNumberedBelow};
ghost use Rattle.proof_file.specs.ProofText.{SideSays, StageSays, ProofLineSays, AtHeader, AtCount, AtTerm, AtStep, AtLeft, AtRight, AtSupport, AtEnd, stage_of_terms};
ghost use Rattle.proof_file.specs.Progress.{stage_with, state_with, progress_with, AreBelow, IsKnownBelow, IsStageBelow, IsBelow, IsDone, SideTold};

use crate::fault::{LineStop, ProofFault};
use crate::progress::{Known, Progress};
use crate::sides::{numbered_side, one_term, spelled_side};
use crate::stage::Stage;
use crate::statements::{count, header, step_or_end, support_or_done};
use crate::step_or_end::StepOrEnd;
use crate::version::Version;
use crate::words::next_word;
use crate::{ProofStep, Support};
use gk_base::{LexFault, NoMemory, Text};
use std::alloc::Global;
use term_list::Terms;

/// The stage at which so many term lines come, or steps.
fn stage_of_terms(count: u32) -> Stage
    ensures stage { (terms : List Term) → stage_with terms result ≡ stage_of_terms count }
    ensures below { (bound : ℕ) → IsStageBelow bound result }
{
    if count == 0 {
        Stage::Step
    } else {
        Stage::Term(count)
    }
}

/// The header.
fn at_header(known: Known, line: &[u8]) -> Result<Progress, LineStop>
    ensures { (terms : List Term) → IsKnownBelow (length terms) known →
        IsDone terms (StageSays (state_with terms known AtHeader) AtHeader line.now) result }
{
    let Known { listed, steps, .. } = known;
    match header(line) {
        Ok(Version::One) => Ok(Progress {
            known: Known {
                version: Version::One,
                listed,
                steps,
            },
            stage: Stage::Step,
        }),
        Ok(Version::Two) => Ok(Progress {
            known: Known {
                version: Version::Two,
                listed,
                steps,
            },
            stage: Stage::Count,
        }),
        Err(fault) => Err(LineStop::Fault(fault)),
    }
}

/// The number of terms.
fn at_count(known: Known, line: &[u8]) -> Result<Progress, LineStop>
    ensures { (terms : List Term) → IsKnownBelow (length terms) known →
        IsDone terms (StageSays (state_with terms known AtCount) AtCount line.now) result }
{
    match count(line) {
        Ok(count) => Ok(Progress {
            known,
            stage: stage_of_terms(count),
        }),
        Err(fault) => Err(LineStop::Fault(fault)),
    }
}

/// A term, of so many that are to come.
fn at_term(
    alloc: Global,
    terms: &mut Terms,
    known: Known,
    count: u32,
    line: &[u8],
) -> Result<Progress, LineStop>
    requires utf8 { IsUtf8 line.now }
    requires below { IsKnownBelow (length terms.old) known }
    ensures grown { HasMoreNames terms.old terms.new }
    ensures done { IsDone terms.new (StageSays (state_with terms.old known (AtTerm count)) (AtTerm count) line.now) result }
{
    let number = one_term(alloc, terms, line)?;
    let mut known = known;
    known.listed.push(number)?;
    Ok(Progress {
        known,
        stage: stage_of_terms(count.saturating_sub(1)),
    })
}

/// A step that begins, or the end.
fn at_step(alloc: Global, known: Known, line: &[u8]) -> Result<Progress, LineStop>
    ensures { (terms : List Term) → IsKnownBelow (length terms) known →
        IsDone terms (StageSays (state_with terms known AtStep) AtStep line.now) result }
{
    match step_or_end(alloc, line)? {
        StepOrEnd::Begins(key) => Ok(Progress {
            known,
            stage: Stage::Left(key),
        }),
        StepOrEnd::Ends(count) if count as usize == known.steps.len() => Ok(Progress {
            known,
            stage: Stage::End,
        }),
        StepOrEnd::Ends(_) => Err(LineStop::Fault(ProofFault::CountDiffers)),
    }
}

/// A side of a step, which begins with this word.
fn side(
    alloc: Global,
    terms: &mut Terms,
    known: &Known,
    word: &[u8],
    line: &[u8],
) -> Result<Vec<u32>, LineStop>
    requires utf8 { IsUtf8 line.now }
    requires below { IsKnownBelow (length terms.old) known.now }
    ensures grown { HasMoreNames terms.old terms.new }
    ensures told { SideTold terms.new
        (SideSays word.now line.now (map (term_at terms.old) known.now.listed.items) known.now.version) result }
{
    match known.version {
        Version::One => spelled_side(alloc, terms, word, line),
        Version::Two => numbered_side(alloc, word, &known.listed, line),
    }
}

/// The left side of a step.
fn at_left(
    alloc: Global,
    terms: &mut Terms,
    known: Known,
    key: Text,
    line: &[u8],
) -> Result<Progress, LineStop>
    requires utf8 { IsUtf8 line.now }
    requires below { IsKnownBelow (length terms.old) known }
    ensures grown { HasMoreNames terms.old terms.new }
    ensures done { IsDone terms.new (StageSays (state_with terms.old known (AtLeft key)) (AtLeft key) line.now) result }
{
    let left = side(alloc, terms, &known, b"left", line)?;
    Ok(Progress {
        known,
        stage: Stage::Right(key, left),
    })
}

/// The right side of a step, after its left one.
fn at_right(
    alloc: Global,
    terms: &mut Terms,
    known: Known,
    key: Text,
    left: Vec<u32>,
    line: &[u8],
) -> Result<Progress, LineStop>
    requires utf8 { IsUtf8 line.now }
    requires below { IsKnownBelow (length terms.old) known }
    requires left { AreBelow (length terms.old) left.items }
    ensures grown { HasMoreNames terms.old terms.new }
    ensures done { let sides = map (term_at terms.old) left.items in
        IsDone terms.new (StageSays (state_with terms.old known (AtRight key sides)) (AtRight key sides) line.now) result }
{
    let right = side(alloc, terms, &known, b"right", line)?;
    Ok(Progress {
        known,
        stage: Stage::Support(ProofStep {
            key,
            left,
            right,
            supports: Vec::new(alloc),
        }),
    })
}

/// Puts a support behind the others. Most steps have no more than one, so there is room for no more at first.
fn put_support(supports: &mut Vec<Support>, support: Support) -> Result<(), NoMemory>
    ensures { OnOk result (supports.new.items ≡ supports.old.items ++ support ∷ []) }
{
    if supports.is_empty() {
        supports.reserve_exact(1)?;
    }
    supports.push(support)?;
    Ok(())
}

/// A support of a step, or that it is done.
fn at_support(
    alloc: Global,
    known: Known,
    step: ProofStep,
    line: &[u8],
) -> Result<Progress, LineStop>
    ensures { (terms : List Term) → IsKnownBelow (length terms) known → IsNumberedBelow (length terms) step →
        IsDone terms (StageSays (state_with terms known (AtSupport (step_with terms step))) (AtSupport (step_with terms step)) line.now) result }
{
    match support_or_done(alloc, line)? {
        Some(support) => {
            let mut step = step;
            put_support(&mut step.supports, support)?;
            Ok(Progress {
                known,
                stage: Stage::Support(step),
            })
        }
        None => {
            let mut known = known;
            known.steps.push(step)?;
            Ok(Progress {
                known,
                stage: Stage::Step,
            })
        }
    }
}

/// Nothing more.
fn at_end(known: Known, line: &[u8]) -> Result<Progress, LineStop>
    ensures { (terms : List Term) → IsKnownBelow (length terms) known →
        IsDone terms (StageSays (state_with terms known AtEnd) AtEnd line.now) result }
{
    match next_word(line) {
        None => Ok(Progress {
            known,
            stage: Stage::End,
        }),
        Some(_) => Err(LineStop::Fault(ProofFault::TextAfterTheEnd)),
    }
}

/// The line by its stage.
fn at_stage(
    alloc: Global,
    terms: &mut Terms,
    progress: Progress,
    line: &[u8],
) -> Result<Progress, LineStop>
    requires utf8 { IsUtf8 line.now }
    requires below { IsBelow (length terms.old) progress }
    ensures grown { HasMoreNames terms.old terms.new }
    ensures done { IsDone terms.new
        (StageSays (progress_with terms.old progress) (stage_with terms.old progress.stage) line.now) result }
{
    let Progress { known, stage } = progress;
    match stage {
        Stage::Header => at_header(known, line),
        Stage::Count => at_count(known, line),
        Stage::Term(count) => at_term(alloc, terms, known, count, line),
        Stage::Step => at_step(alloc, known, line),
        Stage::Left(key) => at_left(alloc, terms, known, key, line),
        Stage::Right(key, left) => at_right(alloc, terms, known, key, left, line),
        Stage::Support(step) => at_support(alloc, known, step, line),
        Stage::End => at_end(known, line),
    }
}

/// Whether a line is UTF-8. It may be known to be.
fn is_utf8(line: &[u8], known: bool) -> bool
    requires { IsTrue known → IsUtf8 line.now }
    ensures { IsTrue result ↔ IsUtf8 line.now }
{
    known || simdutf8::is_utf8(line)
}

/// The file after one more line, which has no line feed and no carriage return, and may be known to be UTF-8.
pub(crate) fn after_line(
    alloc: Global,
    terms: &mut Terms,
    progress: Progress,
    line: &[u8],
    known: bool,
) -> Result<Progress, LineStop>
    requires below { IsBelow (length terms.old) progress }
    requires utf8 { IsTrue known → IsUtf8 line.now }
    ensures grown { HasMoreNames terms.old terms.new }
    ensures done { IsDone terms.new (ProofLineSays (progress_with terms.old progress) line.now) result }
{
    if !is_utf8(line, known) {
        return Err(LineStop::Fault(ProofFault::Lex(LexFault::NotUtf8)));
    }
    at_stage(alloc, terms, progress, line)
}
