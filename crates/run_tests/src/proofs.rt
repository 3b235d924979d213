//! Proofs that are made, checked and converted.

use crate::runs::{Case, ENOUGH, good, holds};
use crate::texts::{album_and_artist_keys, albums_and_artists, joined};
use fixtures::texts::{
    ALBUM_AND_ARTIST_KEYS, ALBUM_AND_ARTIST_PROOF, ALBUM_AND_ARTIST_PROOF_1, ALBUM_KEY,
    ALBUM_PROOF, ALBUM_PROOF_1, ALBUMS, ALBUMS_AND_ARTISTS, ANOTHER_YEAR, ANOTHER_YEAR_PROOF_1,
    NO_STEPS, ONE_FOLDED, ONE_VALUE, STREET_PROOF_1, STREETS, YEAR_KEY,
};
use gk_base::NoMemory;
use std::alloc::Global;
use std::process::Abort;
use std::sync::Wait;
use std::thread::Threads;

/// What a command leaves of a graph, which may have more lines than those of a text, keys and a proof.
#[derive(Clone, Copy)]
struct Row {
    words: &'static [&'static str],
    graph: &'static [u8],
    more: &'static [u8],
    keys: &'static [u8],
    proof: &'static str,
    status: u8,
    out: &'static str,
}

const PROVE: &[&str] = &["prove", "g", "k"];

/// The proof of the two albums.
pub fn album_proof() -> &'static [u8] {
    ALBUM_PROOF.as_bytes()
}

/// Check the proof `p` of the graph `g` and the keys `k`.
pub const CHECK: &[&str] = &["check", "g", "k", "p"];

/// Convert the proof `p`.
pub const CONVERT: &[&str] = &["convert", "p"];

/// The albums' proof is accepted.
const ACCEPTED: Row = Row {
    words: CHECK,
    graph: ALBUMS,
    more: b"",
    keys: ALBUM_KEY,
    proof: ALBUM_PROOF,
    status: 0,
    out: "accepted 1\n",
};

/// A proof of one step that is not accepted.
const NOT_ACCEPTED: Row = Row {
    keys: YEAR_KEY,
    proof: ANOTHER_YEAR_PROOF_1,
    status: 1,
    out: "rejected 1: triple missing\n",
    ..ACCEPTED
};

/// The proof of the four albums and their artists is accepted.
const ACCEPTED_OF_FOUR: Row = Row {
    graph: ALBUMS_AND_ARTISTS,
    keys: ALBUM_AND_ARTIST_KEYS,
    proof: ALBUM_AND_ARTIST_PROOF,
    out: "accepted 3\n",
    ..ACCEPTED
};

/// A proof is converted, and no other file is looked at.
const CONVERTED: Row = Row {
    words: CONVERT,
    graph: b"",
    keys: b"",
    proof: ALBUM_PROOF_1,
    out: ALBUM_PROOF,
    ..ACCEPTED
};

static ROWS: [Row; 14] = [
    Row {
        words: PROVE,
        proof: "",
        out: ALBUM_PROOF,
        ..ACCEPTED
    },
    Row {
        words: PROVE,
        graph: b"",
        proof: "",
        out: NO_STEPS,
        ..ACCEPTED
    },
    Row {
        graph: b"",
        proof: NO_STEPS,
        out: "accepted 0\n",
        ..ACCEPTED
    },
    ACCEPTED,
    Row {
        proof: ALBUM_PROOF_1,
        ..ACCEPTED
    },
    Row {
        proof: ALBUM_AND_ARTIST_PROOF_1,
        ..ACCEPTED_OF_FOUR
    },
    ACCEPTED_OF_FOUR,
    NOT_ACCEPTED,
    Row {
        more: ANOTHER_YEAR,
        out: "rejected 1: constant differs\n",
        ..NOT_ACCEPTED
    },
    Row {
        graph: STREETS,
        keys: ONE_FOLDED,
        proof: STREET_PROOF_1,
        ..ACCEPTED
    },
    Row {
        graph: STREETS,
        keys: ONE_VALUE,
        proof: STREET_PROOF_1,
        out: "rejected 1: value differs\n",
        ..NOT_ACCEPTED
    },
    CONVERTED,
    Row {
        proof: ALBUM_AND_ARTIST_PROOF_1,
        out: ALBUM_AND_ARTIST_PROOF,
        ..CONVERTED
    },
    Row {
        graph: b"x",
        keys: b"x",
        proof: ALBUM_AND_ARTIST_PROOF,
        out: ALBUM_AND_ARTIST_PROOF,
        ..CONVERTED
    },
];

/// What a command is to leave, with one lifetime for all of it.
#[derive(Clone, Copy)]
struct Left<'a> {
    status: u8,
    out: &'a str,
    err: &'a str,
}

/// Whether a command leaves this of a graph, keys and a proof.
fn leaves<'a, R: AllocGlobal + Threads + Wait + Sync + Abort>(
    rt: &R,
    words: &'a [&'a str],
    graph: &'a [u8],
    keys: &'a [u8],
    proof: &'a [u8],
    left: Left<'a>,
) -> bool {
    let case = Case {
        words,
        graph,
        keys,
        proof,
        status: left.status,
        out: left.out.as_bytes(),
        err: left.err,
        ..good()
    };
    holds(rt, &case)
}

/// Whether a command leaves this of a graph, keys and a proof.
fn row_holds<R: AllocGlobal + Threads + Wait + Sync + Abort>(rt: &R, row: &Row) -> bool {
    let graph = joined(rt.alloc(), row.graph, row.more).expect(rt, ENOUGH);
    let left = Left {
        status: row.status,
        out: row.out,
        err: "",
    };
    leaves(rt, row.words, &graph, row.keys, row.proof.as_bytes(), left)
}

fn rows() -> &'static [Row] {
    &ROWS
}

#[test]
fn proofs_are_made_checked_and_converted(rt: HostRuntime) {
    for (row, expected) in rows().iter().enumerate() {
        assert!(rt; row_holds(&rt, expected), "row {row}");
    }
}

/// A line of a proof, what stands in its place, and what a command then leaves.
#[derive(Clone, Copy)]
struct Changed {
    words: &'static [&'static str],
    proof: &'static str,
    old: &'static str,
    new: &'static str,
    status: u8,
    out: &'static str,
    err: &'static str,
}

/// A proof of three steps with one line changed that is not accepted.
const REJECTED: Changed = Changed {
    words: CHECK,
    proof: ALBUM_AND_ARTIST_PROOF_1,
    old: "",
    new: "",
    status: 1,
    out: "",
    err: "",
};

/// One that is refused.
const REFUSED: Changed = Changed {
    words: CONVERT,
    proof: ALBUM_AND_ARTIST_PROOF,
    status: 2,
    ..REJECTED
};

static CHANGED: [Changed; 14] = [
    Changed {
        old: "by 1 1",
        new: "by 1 2",
        out: "rejected 2: support not earlier\n",
        ..REJECTED
    },
    Changed {
        old: "by 1 1",
        new: "by 1",
        out: "rejected 2: support does not lead there\n",
        ..REJECTED
    },
    Changed {
        old: "step album_year",
        new: "step nokey",
        out: "rejected 1: unknown key\n",
        ..REJECTED
    },
    Changed {
        old: "left <urn:al1> \"Anthology 2\" \"1996\"",
        new: "left <urn:al1> \"Anthology 2\"",
        out: "rejected 1: wrong shape\n",
        ..REJECTED
    },
    Changed {
        old: "left <urn:al1> \"Anthology 2\" \"1996\"",
        new: "left <urn:al9> \"Anthology 2\" \"1996\"",
        out: "rejected 1: term not in the graph\n",
        ..REJECTED
    },
    Changed {
        old: "left <urn:al1> \"Anthology 2\" \"1996\"",
        new: "left <urn:al1> \"Anthology 2\" \"Anthology 2\"",
        out: "rejected 1: term twice\n",
        ..REJECTED
    },
    Changed {
        old: "left <urn:al1> \"Anthology 2\" \"1996\"",
        new: "left <urn:ar1> \"Anthology 2\" \"1996\"",
        out: "rejected 1: wrong kind or type\n",
        ..REJECTED
    },
    Changed {
        old: "right <urn:al2> \"Anthology 2\" \"1996\"",
        new: "right <urn:al3> \"Anthology 2\" \"1996\"",
        out: "rejected 1: triple missing\n",
        ..REJECTED
    },
    Changed {
        old: "right <urn:al4> <urn:ar2> \"Help!\"",
        new: "right <urn:al2> <urn:ar2> \"Anthology 2\"",
        out: "rejected 3: value differs\n",
        ..REJECTED
    },
    Changed {
        old: "by 1 2",
        new: "by 1 3",
        out: "rejected 3: support not earlier\n",
        ..REJECTED
    },
    Changed {
        old: "end 3",
        new: "end 2",
        status: 2,
        err: "proof:16: count differs\n",
        ..REJECTED
    },
    Changed {
        old: "right 10 7 9",
        new: "right 11 7 9",
        err: "proof:24: term number out of range\n",
        ..REFUSED
    },
    Changed {
        old: "right 10 7 9",
        new: "right 010 7 9",
        err: "proof:24: bad line\n",
        ..REFUSED
    },
    Changed {
        old: "gkey-proof 2",
        new: "gkey-proof 3",
        err: "proof:1: bad header\n",
        ..REFUSED
    },
];

/// The text with this line changed.
fn with_line(alloc: Global, text: &str, old: &str, new: &str) -> Result<Vec<u8>, NoMemory> {
    let mut changed = Vec::new(alloc);
    for line in text.lines() {
        let kept = if line == old { new } else { line };
        changed.extend_from_slice(kept.as_bytes())?;
        changed.extend_from_slice(b"\n")?;
    }
    Ok(changed)
}

/// Whether a command leaves this where the line is changed.
fn change_holds<R: AllocGlobal + Threads + Wait + Sync + Abort>(rt: &R, row: &Changed) -> bool {
    let proof = with_line(rt.alloc(), row.proof, row.old, row.new).expect(rt, ENOUGH);
    let left = Left {
        status: row.status,
        out: row.out,
        err: row.err,
    };
    leaves(
        rt,
        row.words,
        albums_and_artists(),
        album_and_artist_keys(),
        &proof,
        left,
    )
}

fn changes() -> &'static [Changed] {
    &CHANGED
}

#[test]
fn the_first_step_that_fails_is_named_with_its_reason(rt: HostRuntime) {
    for (row, expected) in changes().iter().enumerate() {
        assert!(rt; change_holds(&rt, expected), "row {row}");
    }
}
