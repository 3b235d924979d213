//! Proofs for two entities, and why there is none.

use crate::runs::{Case, ENOUGH, MERGE, holds, leaves, printed, texts, usage};
use fixtures::texts::{
    ALBUM_AND_ARTIST_KEYS, ALBUM_KEY, ALBUM_PROOF, ALBUMS_AND_ARTISTS, NO_STEPS,
};
use gk_base::{Limits, Text};
use std::process::Abort;
use std::sync::Wait;
use std::thread::Threads;
use steal_pool::OpenGate;

const NOT_THE_SAME: &str = "not the same\n";

const NO_FIRST: &str = "first: no such entity\n";

const NO_SECOND: &str = "second: no such entity\n";

/// Why two of the two albums are the same.
const WHY: Case<'static> = Case {
    words: &["why", "g", "k", "<urn:al1>", "<urn:al2>"],
    out: ALBUM_PROOF,
    ..MERGE
};

/// The same.
fn why() -> Case<'static> {
    WHY
}

/// Two words, and what they lead to.
#[derive(Clone, Copy)]
struct Row {
    first: &'static str,
    second: &'static str,
    status: u8,
    out: &'static str,
    err: &'static str,
}

/// Two words for one entity.
const SAME: Row = Row {
    first: "<urn:al1>",
    second: "<urn:al1>",
    status: 0,
    out: NO_STEPS,
    err: "",
};

/// Two words of which one names no entity.
const NONE: Row = Row {
    status: 2,
    out: "",
    ..SAME
};

/// Rows over the two albums.
static ROWS: [Row; 17] = [
    SAME,
    Row {
        second: "<urn:\\u0061l1>",
        ..SAME
    },
    Row {
        first: "<urn:Album>",
        second: "<urn:Album>",
        ..SAME
    },
    Row {
        second: "<urn:al2>",
        out: ALBUM_PROOF,
        ..SAME
    },
    Row {
        first: "<urn:\\u0061l1>",
        second: "<urn:al\\U00000032>",
        out: ALBUM_PROOF,
        ..SAME
    },
    Row {
        second: "<urn:Album>",
        status: 1,
        out: NOT_THE_SAME,
        ..SAME
    },
    Row {
        second: "<urn:zz>",
        err: NO_SECOND,
        ..NONE
    },
    Row {
        first: "al1",
        second: "<urn:zz>",
        err: NO_FIRST,
        ..NONE
    },
    Row {
        first: "",
        err: NO_FIRST,
        ..NONE
    },
    Row {
        second: "\"Anthology 2\"",
        err: NO_SECOND,
        ..NONE
    },
    Row {
        first: "<urn:name>",
        err: NO_FIRST,
        ..NONE
    },
    Row {
        second: "<urn:Artist>",
        err: NO_SECOND,
        ..NONE
    },
    Row {
        second: "<urn:al2> ",
        err: NO_SECOND,
        ..NONE
    },
    Row {
        first: " <urn:al1>",
        err: NO_FIRST,
        ..NONE
    },
    Row {
        second: "<urn:al2>.",
        err: NO_SECOND,
        ..NONE
    },
    Row {
        second: "_:al2",
        err: NO_SECOND,
        ..NONE
    },
    Row {
        second: "<urn:al2",
        err: NO_SECOND,
        ..NONE
    },
];

fn rows() -> &'static [Row] {
    &ROWS
}

/// The keys of the albums and their artists.
fn album_and_artist_keys() -> &'static [u8] {
    ALBUM_AND_ARTIST_KEYS
}

/// Whether `why` leaves this of the two albums.
fn row_holds<R: AllocGlobal + Threads + Wait + Sync + Abort>(rt: &R, row: &Row) -> bool {
    let case = Case {
        words: &["why", "g", "k", row.first, row.second],
        keys: album_and_artist_keys(),
        status: row.status,
        out: row.out,
        err: row.err,
        ..why()
    };
    holds(rt, &case)
}

#[test]
fn words_name_entities_of_the_graph(rt: HostRuntime) {
    for (row, expected) in rows().iter().enumerate() {
        assert!(rt; row_holds(&rt, expected), "row {row}");
    }
}

#[test]
fn a_word_that_is_not_utf_8_names_no_entity(rt: HostRuntime) {
    let alloc = rt.alloc();
    let mut words = texts(alloc, &["why", "g", "k", "<urn:al1>"]).expect(&rt, ENOUGH);
    let no_text = Text::from_bytes(alloc, b"<urn:\xFF>").expect(&rt, ENOUGH);
    words.push(no_text).expect(&rt, ENOUGH);
    let case = Case {
        status: 2,
        out: "",
        err: NO_SECOND,
        ..why()
    };
    assert!(rt; leaves(&rt, &words, &case));
}

/// Why two entities of the four albums and their artists are the same.
const WHY_OF_FOUR: Case<'static> = Case {
    graph: ALBUMS_AND_ARTISTS,
    keys: ALBUM_AND_ARTIST_KEYS,
    ..WHY
};

fn why_of_four() -> Case<'static> {
    WHY_OF_FOUR
}

/// Whether a check leaves this of the reason why the artist is the same as another entity.
fn is_checked<R: AllocGlobal + Threads + Wait + Sync + Abort>(
    rt: &R,
    second: &str,
    out: &str,
) -> bool {
    let asked = Case {
        words: &["why", "g", "k", "<urn:ar1>", second],
        ..why_of_four()
    };
    let proof = printed(rt, &asked, &OpenGate).expect(rt, "a proof");
    let checked = Case {
        words: &["check", "g", "k", "p"],
        proof: &proof,
        out,
        ..why_of_four()
    };
    holds(rt, &checked)
}

#[test]
fn a_reason_has_the_steps_that_it_needs(rt: HostRuntime) {
    for (second, accepted) in [("<urn:ar2>", "accepted 2\n"), ("<urn:ar1>", "accepted 0\n")] {
        assert!(rt; is_checked(&rt, second, accepted), "{second}");
    }
}

#[test]
fn there_is_no_reason_for_two_that_are_not_the_same(rt: HostRuntime) {
    let apart = Case {
        words: &["why", "g", "k", "<urn:al1>", "<urn:al3>"],
        status: 1,
        out: NOT_THE_SAME,
        ..why_of_four()
    };
    assert!(rt; holds(&rt, &apart));
}

#[test]
fn reasons_are_found_with_any_workers(rt: HostRuntime) {
    for workers in ["1", "64"] {
        let case = Case {
            words: &[
                "why",
                "--workers",
                workers,
                "g",
                "k",
                "<urn:al1>",
                "<urn:al2>",
            ],
            ..why()
        };
        assert!(rt; holds(&rt, &case), "{workers} workers");
    }
}

/// A reason that is refused, since its first word names no entity.
const REFUSED: Case<'static> = Case {
    words: &["why", "g", "k", "al1", "al2"],
    limits: Limits {
        pairs: 0,
        ..Limits::STANDARD
    },
    status: 2,
    out: "",
    err: NO_FIRST,
    ..WHY
};

/// Reasons with more than one fault.
static REFUSALS: [Case<'static>; 5] = [
    REFUSED,
    Case {
        graph: b"<urn:a> <urn:p> .\n",
        keys: b"end\n",
        err: "graph:1: object expected\n",
        ..REFUSED
    },
    Case {
        keys: b"end\n",
        err: "keys:1: statement out of place\n",
        ..REFUSED
    },
    Case {
        words: &["why", "g", "k", "<urn:al1>", "<urn:al2>"],
        err: "pairs: more than 0\n",
        ..REFUSED
    },
    Case {
        words: &["why", "--workers", "4", "g", "k"],
        keys: ALBUM_KEY,
        status: 3,
        err: "graph: read failed\n",
        ..REFUSED
    },
];

fn refusals() -> &'static [Case<'static>] {
    &REFUSALS
}

#[test]
fn files_are_refused_before_words_and_words_before_pairs(rt: HostRuntime) {
    for (row, case) in refusals().iter().enumerate() {
        assert!(rt; holds(&rt, case), "row {row}");
    }
}

/// Words that ask for no command.
static NO_COMMAND: [&'static [&'static str]; 7] = [
    &["merge", "g"],
    &["merge", "g", "k", "k"],
    &["merge", "--workers", "65", "g", "k"],
    &["why", "g", "k", "<urn:al1>"],
    &["why", "--workers", "4", "g", "k", "<urn:al1>"],
    &["why", "--workers", "0", "g", "k", "<urn:al1>", "<urn:al2>"],
    &[
        "match",
        "--workers",
        "4",
        "g",
        "k",
        "<urn:al1>",
        "<urn:al2>",
    ],
];

fn no_command() -> &'static [&'static [&'static str]] {
    &NO_COMMAND
}

#[test]
fn other_words_ask_for_no_command(rt: HostRuntime) {
    for (row, words) in no_command().iter().enumerate() {
        let case = Case {
            words,
            status: 64,
            out: "",
            err: usage(),
            ..why()
        };
        assert!(rt; holds(&rt, &case), "row {row}");
    }
}
