//! Runs over proof files that are refused or can't be read, in their place among the files of a command.

use crate::proofs::{CHECK, CONVERT, album_proof};
use crate::runs::{Case, good, holds};
use crate::texts::albums;
use fixtures::texts::{ALBUM_KEY, ALBUMS};
use gk_base::Limits;

/// A check of the albums.
fn checked() -> Case<'static> {
    Case {
        words: CHECK,
        graph: albums(),
        proof: album_proof(),
        out: b"accepted 1\n",
        ..good()
    }
}

/// A run that is refused.
fn refused<'a>(proof: &'a [u8], err: &'a str) -> Case<'a> {
    Case {
        proof,
        status: 2,
        out: b"",
        err,
        ..checked()
    }
}

/// Graphs with keys, and how a check is refused whose proof file has a bad line.
static REFUSALS: [(&[u8], &[u8], &str); 3] = [
    (b"<a>", b"x", "graph:1: relative IRI\n"),
    (ALBUMS, b"x", "keys:1: unknown statement\n"),
    (ALBUMS, ALBUM_KEY, "proof:2: bad line\n"),
];

fn refusals() -> &'static [(&'static [u8], &'static [u8], &'static str)] {
    &REFUSALS
}

#[test]
fn a_proof_file_comes_last(rt: HostRuntime) {
    for (row, (graph, keys, err)) in refusals().iter().enumerate() {
        let case = Case {
            graph,
            keys,
            ..refused(b"gkey-proof 1\nx", err)
        };
        assert!(rt; holds(&rt, &case), "row {row}");
    }
}

#[test]
fn a_proof_file_that_ends_early_or_is_too_long_is_refused(rt: HostRuntime) {
    let early = Case {
        words: CONVERT,
        ..refused(b"gkey-proof 1\n", "proof:1: proof ends early\n")
    };
    assert!(rt; holds(&rt, &early));
    let long = Case {
        words: CONVERT,
        limits: Limits {
            bytes: 10,
            ..Limits::STANDARD
        },
        ..refused(album_proof(), "proof:1: file too long\n")
    };
    assert!(rt; holds(&rt, &long));
}

/// A run that can't read its proof file.
fn unread<'a>(words: &'a [&'a str], reads: &'a [u64]) -> Case<'a> {
    Case {
        words,
        reads,
        status: 3,
        out: b"",
        err: "proof: read failed\n",
        ..checked()
    }
}

#[test]
fn a_proof_file_that_a_check_can_not_read_is_named(rt: HostRuntime) {
    for call in 7u64..10 {
        assert!(rt; holds(&rt, &unread(CHECK, &[call])), "call {call}");
    }
    assert!(rt; holds(&rt, &unread(&["check", "g", "k", "none"], &[])));
    let last = Case {
        reads: &[10],
        ..checked()
    };
    assert!(rt; holds(&rt, &last));
}

#[test]
fn a_proof_file_that_can_not_be_read_to_convert_it_is_named(rt: HostRuntime) {
    for call in 1u64..4 {
        assert!(rt; holds(&rt, &unread(CONVERT, &[call])), "call {call}");
    }
    // It makes these three calls and no other: no other file is touched.
    let converted = Case {
        words: CONVERT,
        reads: &[4],
        out: album_proof(),
        ..checked()
    };
    assert!(rt; holds(&rt, &converted));
    assert!(rt; holds(&rt, &unread(&["convert", "none"], &[])));
}
