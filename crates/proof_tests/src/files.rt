//! Proof files: what is read from them, what is written, and at which line they are refused.

mod accepted;
mod refused;

use fixtures::texts::NO_STEPS_1;
use gk_base::NoMemory;
use proof_file::{Proof, ProofFault, ProofRefusal, ProofStop, put_proof, read_proof};
use std::alloc::{AllocError, Global};
use std::test::Fail;

/// A file and the canonical text of its proof.
pub(crate) type Accepted = (&'static str, &'static str);

/// A proof of one step, in version 1.
pub(crate) const ONE_STEP_1: &str =
    "gkey-proof 1\nstep k\nleft <urn:a> \"1\"\nright <urn:b> \"1\"\ndone\nend 1\n";

/// A proof of one step, in version 2.
pub(crate) const ONE_STEP: &str =
    "gkey-proof 2\nterms 2\n<urn:a>\n\"1\"\nstep k\nleft 1 2\nright 2 1\ndone\nend 1\n";

/// The first so many lines of a proof, and what comes after them.
fn changed_after(
    alloc: Global,
    proof: &str,
    lines: usize,
    more: &[u8],
) -> Result<Vec<u8>, AllocError> {
    let mut text = Vec::new(alloc);
    for line in proof.lines().take(lines) {
        text.extend_from_slice(line.as_bytes())?;
        text.push(b'\n')?;
    }
    text.extend_from_slice(more)?;
    Ok(text)
}

/// Whether a file is refused at this line for this fault.
fn is_refused(alloc: Global, text: &[u8], limit: u64, line: u64, fault: ProofFault) -> bool {
    match read_proof(alloc, text, limit) {
        Ok(_) => false,
        Err(stop) => stop == ProofStop::Fault(ProofRefusal { line, fault }),
    }
}

/// The first of these that may come after so many lines, or is refused otherwise, or how many there are.
fn first_wrong(
    alloc: Global,
    proof: &str,
    lines: usize,
    rows: &[refused::Refused],
) -> Result<usize, AllocError> {
    for (place, (more, line, fault)) in rows.iter().enumerate() {
        let text = changed_after(alloc, proof, lines, more)?;
        if !is_refused(alloc, &text, text.len() as u64, *line, *fault) {
            return Ok(place);
        }
    }
    Ok(rows.len())
}

#[test]
fn the_first_faulty_line_is_refused(rt: HostRuntime) -> Result<(), Fail> {
    for (proof, lines, rows) in refused::all() {
        let right = first_wrong(rt.alloc(), proof, lines, rows)?;
        assert_eq!(rt; right, rows.len(), "after {lines} lines of {proof:?}");
    }
    Ok(())
}

/// Files, limits of bytes, and the line that is refused under each and why.
static LIMITED: [(&str, u16, u64, ProofFault); 17] = [
    (NO_STEPS_1, 18, 2, ProofFault::FileTooLong),
    (NO_STEPS_1, 13, 2, ProofFault::FileTooLong),
    (NO_STEPS_1, 12, 1, ProofFault::FileTooLong),
    (NO_STEPS_1, 0, 1, ProofFault::FileTooLong),
    ("", 0, 1, ProofFault::BadHeader),
    ("gkey-proof 1\r\nend 0", 13, 1, ProofFault::FileTooLong),
    ("gkey-proof 1\r\nend 0", 14, 2, ProofFault::FileTooLong),
    ("gkey-proof 1\r\nend 0", 18, 2, ProofFault::FileTooLong),
    ("gkey-proof 3\nend 0\n", 13, 1, ProofFault::BadHeader),
    ("gkey-proof 3\nend 0\n", 12, 1, ProofFault::FileTooLong),
    ("gkey-proof 3\r\nend 0\n", 13, 1, ProofFault::BadHeader),
    ("gkey-proof 1\nend 1\nx", 19, 2, ProofFault::CountDiffers),
    ("gkey-proof 1\nend 0\nx", 19, 3, ProofFault::FileTooLong),
    ("gkey-proof 1\nend 0\nx", 20, 3, ProofFault::TextAfterTheEnd),
    ("gkey-proof 1\nend 0\n\n", 19, 3, ProofFault::FileTooLong),
    (
        "gkey-proof 1\nstep k\n",
        20,
        2,
        ProofFault::FileEndsInsideAProof,
    ),
    ("gkey-proof 1\nstep k\n", 19, 2, ProofFault::FileTooLong),
];

#[test]
fn the_byte_after_the_limit_is_refused_among_the_lines(rt: HostRuntime) {
    for (text, limit, line, fault) in &LIMITED {
        let bytes = text.as_bytes();
        let is = is_refused(rt.alloc(), bytes, u64::from(*limit), *line, *fault);
        assert!(rt; is, "limit {limit}: {text:?}");
    }
}

/// The canonical text of a proof.
fn canonical_text(alloc: Global, proof: &Proof) -> Result<Vec<u8>, NoMemory> {
    let mut text = Vec::new(alloc);
    put_proof(&mut text, proof)?;
    Ok(text)
}

/// Whether this is the canonical text of the proof that a file within its own length holds.
fn is_written_so(alloc: Global, text: &str, canonical: &str) -> Result<bool, ProofStop> {
    let proof = read_proof(alloc, text.as_bytes(), text.len() as u64)?;
    Ok(canonical_text(alloc, &proof)?.as_slice() == canonical.as_bytes())
}

#[test]
fn proofs_are_written_in_one_way_and_read_again(rt: HostRuntime) -> Result<(), Fail> {
    for (text, canonical) in accepted::all() {
        assert!(rt; is_written_so(rt.alloc(), text, canonical)?, "{text:?}");
        assert!(rt;
            is_written_so(rt.alloc(), canonical, canonical)?,
            "{canonical:?}"
        );
    }
    Ok(())
}
