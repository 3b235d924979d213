//! Chases with one worker and with many: what they print, and what passes their gates.

use crate::keys::{reversed, with_types};
use crate::proofs::CHECK;
use crate::runs::{ENOUGH, files_of, words_of};
use crate::texts::{album_and_artist_keys, albums_and_artists, one_value, three_classes};
use gates::{Counts, Meeting};
use gk_base::NoMemory;
use gk_io::{SureShelf, SureSink};
use gkey_cmd::{ProgramLimits, run_gated};
use std::alloc::Global;
use std::process::Abort;
use std::sync::Wait;
use std::sync::atomic::Ordering;
use std::thread::Threads;
use steal_pool::{Gate, OpenGate};

/// The status of a run over these devices with this gate.
fn status_over<R: AllocGlobal + Threads + Wait + Sync + Abort, G: Gate>(
    rt: &R,
    words: &[&str],
    shelf: &mut SureShelf,
    out: &mut SureSink,
    err: &mut SureSink,
    gate: &G,
) -> u8 {
    let alloc = rt.alloc();
    let words = words_of(alloc, words).expect(rt, ENOUGH);
    let limits = &ProgramLimits::STANDARD;
    run_gated(rt, alloc, &words, shelf, out, err, limits, gate)
}

/// The output of a run that ends with 0 and no error text.
fn text_of<R: AllocGlobal + Abort>(rt: &R, status: u8, out: &[u8], err: &[u8]) -> Option<Vec<u8>> {
    if status == 0 && err.is_empty() {
        Some(out.to_vec(rt.alloc()).expect(rt, ENOUGH))
    } else {
        None
    }
}

/// What a run over the files `g`, `k` and `p` with this gate writes to the output, where it ends with 0 and no error text.
fn printed<R: AllocGlobal + Threads + Wait + Sync + Abort, G: Gate>(
    rt: &R,
    words: &[&str],
    graph: &[u8],
    keys: &[u8],
    proof: &[u8],
    gate: &G,
) -> Option<Vec<u8>> {
    let alloc = rt.alloc();
    let mut shelf = SureShelf::new(files_of(alloc, graph, keys, proof).expect(rt, ENOUGH));
    let mut out = SureSink::new(alloc, 10_000).expect(rt, ENOUGH);
    let mut err = SureSink::new(alloc, 100).expect(rt, ENOUGH);
    let status = status_over(rt, words, &mut shelf, &mut out, &mut err, gate);
    text_of(rt, status, out.bytes(), err.bytes())
}

/// Whether a run that no gate holds up prints this.
fn prints<R: AllocGlobal + Threads + Wait + Sync + Abort>(
    rt: &R,
    words: &[&str],
    graph: &[u8],
    proof: &[u8],
    out: &str,
) -> bool {
    match printed(rt, words, graph, album_and_artist_keys(), proof, &OpenGate) {
        Some(text) => text.as_slice() == out.as_bytes(),
        None => false,
    }
}

#[test]
fn classes_are_the_same_with_any_workers(rt: HostRuntime) {
    let turned = reversed(rt.alloc(), albums_and_artists()).expect(&rt, ENOUGH);
    for workers in ["1", "4", "64"] {
        let words = ["match", "--workers", workers, "g", "k"];
        assert!(rt;
            prints(&rt, &words, albums_and_artists(), b"", three_classes()),
            "{workers} workers"
        );
        assert!(rt;
            prints(&rt, &words, &turned, b"", three_classes()),
            "{workers} workers, reversed"
        );
    }
}

#[test]
fn proofs_are_accepted_with_any_workers(rt: HostRuntime) {
    let graph = albums_and_artists();
    for workers in ["1", "4"] {
        let words = ["prove", "--workers", workers, "g", "k"];
        let proof = printed(&rt, &words, graph, album_and_artist_keys(), b"", &OpenGate).expect(
            &rt, "a proof",
        );
        assert!(rt;
            prints(&rt, CHECK, graph, &proof, "accepted 3\n"),
            "{workers} workers"
        );
    }
}

/// A graph of so many pairs of one type, each with one value.
fn pairs_of_one_value(alloc: Global, pairs: u32) -> Result<Vec<u8>, NoMemory> {
    let mut short = String::new(alloc);
    for i in 1..pairs.saturating_add(1) {
        write!(short, "<urn:a:{i}> % <urn:T> .\n<urn:b:{i}> % <urn:T> .\n")?;
        write!(
            short,
            "<urn:a:{i}> <urn:p> \"{i}\" .\n<urn:b:{i}> <urn:p> \"{i}\" .\n"
        )?;
    }
    with_types(alloc, short.as_bytes())
}

/// How many lines a match of such a graph prints, with this gate and so many workers.
fn lines<R: AllocGlobal + Threads + Wait + Sync + Abort, G: Gate>(
    rt: &R,
    pairs: u32,
    workers: &str,
    gate: &G,
) -> usize {
    let graph = pairs_of_one_value(rt.alloc(), pairs).expect(rt, ENOUGH);
    let words = ["match", "--workers", workers, "g", "k"];
    match printed(rt, &words, &graph, one_value(), b"", gate) {
        Some(text) => text.iter().filter(|byte| **byte == b'\n').count(),
        None => 0,
    }
}

#[test]
fn each_pair_passes_the_gate_once(rt: HostRuntime) {
    let gate = Counts::new(rt.alloc(), 100).expect(&rt, ENOUGH);
    assert_eq!(&rt; lines(&rt, 100, "4", &gate), 100);
    for count in &gate.passed {
        assert_eq!(&rt; count.load(Ordering::SeqCst), 1);
    }
}

#[test]
fn one_worker_begins_with_the_last_pair(rt: HostRuntime) {
    let gate = Counts::new(rt.alloc(), 100).expect(&rt, ENOUGH);
    assert_eq!(&rt; lines(&rt, 100, "1", &gate), 100);
    assert_eq!(&rt; gate.first.load(Ordering::SeqCst), 99);
}

#[test]
fn two_workers_are_at_the_gate_at_once(rt: HostRuntime) {
    let gate = Meeting::new();
    assert_eq!(&rt; lines(&rt, 2, "2", &gate), 2);
    assert_eq!(&rt; gate.met.load(Ordering::SeqCst), 1);
}
