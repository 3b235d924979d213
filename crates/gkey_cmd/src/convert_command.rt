//! `convert`: the canonical text of a proof, from its file.

ghost use Rattle.std.specs.Prelude.{◌≡◌, IfOk, MatchResult};
ghost use Rattle.proof_file.specs.CanonicalProof.{proof_text};
ghost use Rattle.gkey_cmd.specs.Commands.{Converting};
ghost use Rattle.gkey_cmd.specs.Limits.{CanBeKept};
ghost use Rattle.gkey_cmd.specs.Endings.{Stopped};

use crate::ending::{Answer, Ending};
use crate::reading::read_proof;
use gk_base::{Limits, NoMemory, Text};
use gk_io::Shelf;
use proof_file::{Proof, put_proof};
use std::alloc::Global;

/// The text of a proof, in version 2. Only want of memory stops it.
fn convert_text(alloc: Global, proof: &Proof) -> Result<Vec<u8>, NoMemory>
    ensures { IfOk result (λ text. text.items ≡ proof_text proof.now) }
{
    let mut text = Vec::new(alloc);
    put_proof(&mut text, proof)?;
    Ok(text)
}

/// The text of `convert`, or the ending of a run that has none. Its one file is the proof file.
pub(crate) fn convert_command<S: Shelf>(
    alloc: Global,
    shelf: &mut S,
    proof: &Text,
    limits: &Limits,
) -> Result<Vec<u8>, Ending>
    requires { CanBeKept limits.now }
    ensures { let Stops = Stopped S.Shelf shelf.old shelf.new (Converting proof.now) limits.now in
        MatchResult result (λ text. Stops (Ending.Done Answer.Given text)) Stops }
{
    let given = read_proof(alloc, shelf, proof, limits)?;
    let text = convert_text(alloc, &given)?;
    Ok(text)
}
