//! Reads a proof file.

ghost use Rattle.std.specs.Prelude.{◌≡◌, ◌<◌, ◌^◌, List, Result, IfOk, length, take};
ghost use Rattle.gk_base.specs.Answers.{IsSo, Gives};
ghost use Rattle.proof_file.specs.Steps.{StepShape};
ghost use Rattle.proof_file.specs.ProofText.{ProofSays, proof_ended};
ghost use Rattle.proof_file.specs.CanonicalProof.{CanBeRead};
ghost use Rattle.proof_file.specs.Progress.{progress_with, IsBelow};
ghost use Rattle.proof_file.specs.ReadLines.{next_number};
ghost use Rattle.proof_file.specs.declared.fault.ProofRefusal.{ProofRefusal};

use crate::Proof;
use crate::fault::{ProofFault, ProofRefusal, ProofStop};
use crate::progress::{Known, Progress};
use crate::read_lines::{ReadLines, read_last, read_lines};
use crate::renumbering::proof_of_steps;
use crate::stage::Stage;
use std::alloc::Global;
use term_list::Terms;

/// The proof of a file whose lines are all good, and of which the last has this number.
fn proof_of(alloc: Global, terms: Terms, progress: Progress, last: u64) -> Result<Proof, ProofStop>
    requires { IsBelow (length terms) progress }
    ensures { IsSo (λ answer. answer ≡ proof_ended (progress_with terms progress) (progress_with terms progress).stage last) result }
{
    let Progress { known, stage } = progress;
    match stage {
        Stage::End => {
            let Known { steps, .. } = known;
            Ok(proof_of_steps(alloc, terms, steps)?)
        }
        Stage::Header => Err(ProofStop::Fault(ProofRefusal {
            line: 1,
            fault: ProofFault::BadHeader,
        })),
        _ => Err(ProofStop::Fault(ProofRefusal {
            line: last,
            fault: ProofFault::FileEndsInsideAProof,
        })),
    }
}

/// The front of a file, of at most `limit` bytes.
fn front(bytes: &[u8], limit: u64) -> &[u8]
    ensures { result.now ≡ take limit bytes.now }
{
    if limit < bytes.len() as u64 {
        &bytes[..limit as usize]
    } else {
        bytes
    }
}

/// The line to which the byte after these lines belongs.
fn next_line(lines: &ReadLines<'_>, byte: u8) -> u64
    ensures { result ≡ next_number lines.now.number lines.now.returned byte }
{
    if lines.returned && byte == b'\n' {
        lines.number.saturating_sub(1)
    } else {
        lines.number
    }
}

/// Reads a proof file as `read_proof` does.
fn proof_answer(alloc: Global, bytes: &[u8], limit: u64) -> Result<Proof, ProofStop>
    ensures { IsSo (ProofSays limit bytes.now) result }
{
    let mut terms = Terms::new(alloc);
    let lines = read_lines(alloc, &mut terms, front(bytes, limit))?;
    if limit < bytes.len() as u64 {
        return Err(ProofStop::Fault(ProofRefusal {
            line: next_line(&lines, bytes[limit as usize]),
            fault: ProofFault::FileTooLong,
        }));
    }
    let (progress, last) = read_last(alloc, &mut terms, bytes, lines)?;
    proof_of(alloc, terms, progress, last)
}

/// Reads a proof file of at most `limit` bytes, of version 1 or 2. Its lines are judged in order, each that ends within the
/// limit, and a last one with no end where the whole file is within it.
///
/// It is refused at the first line that may not stand where it stands; at the byte after the limit; or at its last line,
/// where the proof has not ended. A list of terms takes no more memory than its lines, whatever number of them it announces.
pub fn read_proof(alloc: Global, bytes: &[u8], limit: u64) -> Result<Proof, ProofStop>
    // What was answered is what the file says.
    ensures says { IsSo (ProofSays limit bytes.now) result }
    // What the file says was answered, unless memory ran out.
    ensures only { (answer : Result (List StepShape) ProofRefusal) → ProofSays limit bytes.now answer → Gives result answer }
    // What was read can be written, and its text read again, where the limit is below 2 ^ 32.
    ensures readable { limit < 2 ^ 32 → IfOk result CanBeRead }
{
    proof_answer(alloc, bytes, limit)
}
