//! Proofs that the checker accepts or rejects.

mod albums;
mod cases;
mod chain;
mod forms;
mod pairs;

use gk_base::Limits;
use key_file::KeyFile;
use key_lang::read_keys;
use nt_reader::Reader;
use proof_check::{Reason, Verdict, check};
use proof_file::{Proof, put_proof, read_proof};
use std::alloc::{AllocError, Global};
use std::test::Fail;
use term_list::Triples;

/// A graph, which may have more lines than those of a text, keys and a proof, and the verdict.
#[derive(Clone, Copy)]
pub(crate) struct Case {
    pub(crate) about: &'static str,
    pub(crate) graph: &'static [u8],
    pub(crate) more: &'static [u8],
    pub(crate) keys: &'static [u8],
    pub(crate) proof: &'static str,
    pub(crate) verdict: Verdict,
}

/// Lines of a proof by their numbers, counted from 1, and what stands in their place.
pub(crate) type Changes = &'static [(usize, &'static [u8])];

/// The step that is rejected and the reason, after changes.
pub(crate) type Rejected = (u32, Reason, Changes);

/// A graph, keys, and a proof of three steps or one; changes after which the proof is rejected, and changes after which it is
/// accepted.
#[derive(Clone, Copy)]
pub(crate) struct Judged {
    pub(crate) graph: &'static [u8],
    pub(crate) keys: &'static [u8],
    pub(crate) proof: &'static str,
    pub(crate) rejected: &'static [Rejected],
    pub(crate) accepted: &'static [Changes],
}

/// What proofs are judged over.
#[derive(Drop)]
struct Inputs {
    triples: Triples,
    keys: KeyFile,
}

/// The triples of the two parts of a graph, and the keys.
fn read_inputs(alloc: Global, graph: &[u8], more: &[u8], keys: &[u8]) -> Result<Inputs, Fail> {
    let mut reader = Reader::new(alloc, &Limits::STANDARD);
    reader.feed(graph)?;
    reader.feed(more)?;
    Ok(Inputs {
        triples: reader.finish()?,
        keys: read_keys(alloc, keys, 1 << 20)?,
    })
}

/// Whether this is the verdict on a proof, which has few steps.
fn has_verdict(
    alloc: Global,
    inputs: &Inputs,
    proof: &Proof,
    verdict: Verdict,
) -> Result<bool, Fail> {
    if proof.steps.len() > 1000 {
        return Ok(false);
    }
    Ok(check(alloc, &inputs.triples, &inputs.keys, proof)? == verdict)
}

/// Whether this is the verdict on the proof of a text, and on the proof of its canonical text.
fn is_verdict(alloc: Global, inputs: &Inputs, text: &[u8], verdict: Verdict) -> Result<bool, Fail> {
    let proof = read_proof(alloc, text, 1 << 20)?;
    let mut canonical = Vec::new(alloc);
    put_proof(&mut canonical, &proof)?;
    let again = read_proof(alloc, &canonical, 1 << 20)?;
    Ok(has_verdict(alloc, inputs, &proof, verdict)? && has_verdict(alloc, inputs, &again, verdict)?)
}

#[test]
fn each_proof_has_its_verdict(rt: HostRuntime) -> Result<(), Fail> {
    let alloc = rt.alloc();
    for case in cases::all() {
        let inputs = read_inputs(alloc, case.graph, case.more, case.keys)?;
        let is = is_verdict(alloc, &inputs, case.proof.as_bytes(), case.verdict)?;
        assert!(rt; is, "{}", case.about);
    }
    Ok(())
}

/// The lines of a graph in reverse order.
fn reversed(alloc: Global, graph: &[u8]) -> Result<Vec<u8>, AllocError> {
    let mut text = Vec::new(alloc);
    for line in graph.rsplit(|byte| *byte == b'\n') {
        text.extend_from_slice(line)?;
        text.push(b'\n')?;
    }
    Ok(text)
}

#[test]
fn the_order_of_triples_and_their_repeats_do_not_count(rt: HostRuntime) -> Result<(), Fail> {
    let alloc = rt.alloc();
    let of = albums::albums();
    let turned = reversed(alloc, of.graph)?;
    let inputs = read_inputs(alloc, &turned, cases::two_albums(), of.keys)?;
    let accepted = Verdict::Accepted { steps: 3 };
    assert!(rt; is_verdict(alloc, &inputs, of.proof.as_bytes(), accepted)?);
    Ok(())
}

/// What stands in the place of the line with this number, where that is changed.
fn piece_at(number: usize, changes: Changes) -> Option<&'static [u8]> {
    for (at, piece) in changes {
        if *at == number {
            return Some(piece);
        }
    }
    None
}

/// A proof with changes of its lines.
fn changed(alloc: Global, proof: &str, changes: Changes) -> Result<Vec<u8>, AllocError> {
    let mut text = Vec::new(alloc);
    for (place, line) in proof.lines().enumerate() {
        match piece_at(place.saturating_add(1), changes) {
            Some(piece) => text.extend_from_slice(piece)?,
            None => {
                text.extend_from_slice(line.as_bytes())?;
                text.push(b'\n')?;
            }
        }
    }
    Ok(text)
}

/// The first of the changed proofs that is not rejected so, or how many there are.
fn first_not_rejected(alloc: Global, of: &Judged) -> Result<usize, Fail> {
    let inputs = read_inputs(alloc, of.graph, b"", of.keys)?;
    for (place, (step, reason, changes)) in of.rejected.iter().enumerate() {
        let text = changed(alloc, of.proof, changes)?;
        let verdict = Verdict::Rejected {
            step: *step,
            reason: *reason,
        };
        if !is_verdict(alloc, &inputs, &text, verdict)? {
            return Ok(place);
        }
    }
    Ok(of.rejected.len())
}

/// The first of the changed proofs that is not accepted, or how many there are.
fn first_not_accepted(alloc: Global, of: &Judged, steps: u32) -> Result<usize, Fail> {
    let inputs = read_inputs(alloc, of.graph, b"", of.keys)?;
    for (place, changes) in of.accepted.iter().enumerate() {
        let text = changed(alloc, of.proof, changes)?;
        if !is_verdict(alloc, &inputs, &text, Verdict::Accepted { steps })? {
            return Ok(place);
        }
    }
    Ok(of.accepted.len())
}

/// What is judged, and how many steps its proof has.
fn all_judged() -> [(Judged, u32); 5] {
    [
        (chain::chain(), 3),
        (albums::albums(), 3),
        (pairs::pairs(), 3),
        (forms::folded(), 1),
        (forms::valued(), 1),
    ]
}

#[test]
fn the_first_step_that_fails_is_named_with_its_least_reason(rt: HostRuntime) -> Result<(), Fail> {
    for (of, _) in all_judged() {
        let rejected = first_not_rejected(rt.alloc(), &of)?;
        assert_eq!(rt; rejected, of.rejected.len(), "{:?}", of.proof);
    }
    Ok(())
}

#[test]
fn a_proof_may_be_changed_so_that_it_is_accepted(rt: HostRuntime) -> Result<(), Fail> {
    for (of, steps) in all_judged() {
        let accepted = first_not_accepted(rt.alloc(), &of, steps)?;
        assert_eq!(rt; accepted, of.accepted.len(), "{:?}", of.proof);
    }
    Ok(())
}
