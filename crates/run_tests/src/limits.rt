//! Limits without `--large` and with it.

use crate::proofs::album_proof;
use crate::runs::{Case, good, holds, left_by};
use gk_base::Limits;
use std::process::Abort;
use std::sync::Wait;
use std::thread::Threads;

/// The commands that go by files, with `--large`.
static LARGE: [&[&str]; 11] = [
    &["--large", "match", "g", "k"],
    &["--large", "prove", "g", "k"],
    &["--large", "check", "g", "k", "p"],
    &["--large", "convert", "p"],
    &["--large", "merge", "g", "k"],
    &["--large", "why", "g", "k", "<urn:al1>", "<urn:al2>"],
    &["--large", "grow", "g", "g", "k"],
    &["--large", "match", "--workers", "2", "g", "k"],
    &["--large", "prove", "--workers", "2", "g", "k"],
    &[
        "--large",
        "why",
        "--workers",
        "2",
        "g",
        "k",
        "<urn:al1>",
        "<urn:al2>",
    ],
    &["--large", "grow", "--workers", "2", "g", "g", "k"],
];

fn large() -> &'static [&'static [&'static str]] {
    &LARGE
}

/// Limits that leave nothing of the files.
const NOTHING: Limits = Limits {
    bytes: 0,
    key_bytes: 0,
    triples: 0,
    pairs: 0,
};

/// Each limit one below what the albums have, at it and above, and what is said of a match of them. The first two are below and
/// at the bytes of their proof.
static AT_LIMITS: [(Limits, &str); 14] = [
    (
        Limits {
            bytes: 111,
            ..Limits::STANDARD
        },
        "graph:2: file too long\n",
    ),
    (
        Limits {
            bytes: 112,
            ..Limits::STANDARD
        },
        "graph:2: file too long\n",
    ),
    (
        Limits {
            bytes: 281,
            ..Limits::STANDARD
        },
        "graph:6: file too long\n",
    ),
    (
        Limits {
            bytes: 282,
            ..Limits::STANDARD
        },
        "",
    ),
    (
        Limits {
            bytes: 283,
            ..Limits::STANDARD
        },
        "",
    ),
    (
        Limits {
            key_bytes: 82,
            ..Limits::STANDARD
        },
        "keys:6: file too long\n",
    ),
    (
        Limits {
            key_bytes: 83,
            ..Limits::STANDARD
        },
        "",
    ),
    (
        Limits {
            key_bytes: 84,
            ..Limits::STANDARD
        },
        "",
    ),
    (
        Limits {
            triples: 5,
            ..Limits::STANDARD
        },
        "graph:6: too many triples\n",
    ),
    (
        Limits {
            triples: 6,
            ..Limits::STANDARD
        },
        "",
    ),
    (
        Limits {
            triples: 7,
            ..Limits::STANDARD
        },
        "",
    ),
    (
        Limits {
            pairs: 0,
            ..Limits::STANDARD
        },
        "pairs: more than 0\n",
    ),
    (
        Limits {
            pairs: 1,
            ..Limits::STANDARD
        },
        "",
    ),
    (
        Limits {
            pairs: 2,
            ..Limits::STANDARD
        },
        "",
    ),
];

fn at_limits() -> &'static [(Limits, &'static str)] {
    &AT_LIMITS
}

#[test]
fn large_matches_have_the_limits_of_large_runs(rt: HostRuntime) {
    for (row, (limits, err)) in at_limits().iter().enumerate() {
        let within = Case {
            words: &["--large", "match", "g", "k"],
            limits: NOTHING,
            large: Some(*limits),
            ..good()
        };
        let refused = Case {
            status: 2,
            out: b"",
            err,
            ..within
        };
        let case = if err.is_empty() { within } else { refused };
        assert!(rt; holds(&rt, &case), "row {row}");
    }
}

/// Whether a run with these words under these limits leaves what one without `--large` leaves under them, and the limits of the
/// other are nothing to either.
fn leaves_alike<R: AllocGlobal + Threads + Wait + Sync + Abort>(
    rt: &R,
    words: &[&str],
    limits: Limits,
) -> bool {
    let [_, plain_words @ ..] = words else {
        return false;
    };
    let plain = Case {
        words: plain_words,
        proof: album_proof(),
        limits,
        large: Some(NOTHING),
        ..good()
    };
    let large = Case {
        words,
        limits: NOTHING,
        large: Some(limits),
        ..plain
    };
    match (left_by(rt, &plain), left_by(rt, &large)) {
        (Some(plain), Some(large)) => plain == large,
        _ => false,
    }
}

#[test]
fn large_runs_leave_what_others_do_under_their_limits(rt: HostRuntime) {
    for (row, words) in large().iter().enumerate() {
        for (limit, (limits, _)) in at_limits().iter().enumerate() {
            assert!(rt;
                leaves_alike(&rt, words, *limits),
                "words {row}, limits {limit}"
            );
        }
    }
}

/// Whether a run with these words under the limits of the program is answered, and leaves what one without `--large` leaves.
fn answers_alike<R: AllocGlobal + Threads + Wait + Sync + Abort>(rt: &R, words: &[&str]) -> bool {
    let [_, plain_words @ ..] = words else {
        return false;
    };
    let plain = Case {
        words: plain_words,
        proof: album_proof(),
        ..good()
    };
    match (left_by(rt, &plain), left_by(rt, &Case { words, ..plain })) {
        (Some(plain), Some(large)) => large.status == 0 && plain == large,
        _ => false,
    }
}

#[test]
fn large_runs_answer_as_others_do(rt: HostRuntime) {
    for (row, words) in large().iter().enumerate() {
        assert!(rt; answers_alike(&rt, words), "words {row}");
    }
}
