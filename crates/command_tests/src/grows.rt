//! Graphs that grow.

use crate::runs::{Case, MERGE, holds, printed, usage};
use fixtures::texts::{
    ALBUM_AND_ARTIST_KEYS, ALBUM_KEY, ALBUMS, ALBUMS_AND_ARTISTS, ONE_VALUE, THREE_CLASSES,
    TWO_VALUES,
};
use gk_base::Limits;
use std::sync::atomic::{AtomicU64, Ordering};
use steal_pool::Gate;

/// Two entities with one value, of which one has a type.
const ONE_TYPE: &[u8] = b"\
<urn:a> <http://www.w3.org/1999/02/22-rdf-syntax-ns#type> <urn:T> .
<urn:a> <urn:p> \"1\" .
<urn:b> <urn:p> \"1\" .
";

/// The type of the other.
const OTHER_TYPE: &[u8] = b"<urn:b> <http://www.w3.org/1999/02/22-rdf-syntax-ns#type> <urn:T> .\n";

/// An entity and a blank node without a value.
const BLANK_NODE: &[u8] = b"\
_:n <http://www.w3.org/1999/02/22-rdf-syntax-ns#type> <urn:T> .
<urn:a> <http://www.w3.org/1999/02/22-rdf-syntax-ns#type> <urn:T> .
<urn:a> <urn:p> \"1\" .
";

/// Its value.
const BLANK_VALUE: &[u8] = b"_:n <urn:p> \"1\" .\n";

/// Two pairs: c and d have two values in common, and f and g one value twice, which are not two.
const TWO_PAIRS: &[u8] = b"\
<urn:c> <http://www.w3.org/1999/02/22-rdf-syntax-ns#type> <urn:T> .
<urn:d> <http://www.w3.org/1999/02/22-rdf-syntax-ns#type> <urn:T> .
<urn:f> <http://www.w3.org/1999/02/22-rdf-syntax-ns#type> <urn:T> .
<urn:g> <http://www.w3.org/1999/02/22-rdf-syntax-ns#type> <urn:T> .
<urn:c> <urn:p> \"2\" .
<urn:d> <urn:p> \"2\" .
<urn:c> <urn:q> \"3\" .
<urn:d> <urn:q> \"3\" .
<urn:f> <urn:p> \"1\" .
<urn:g> <urn:p> \"1\" .
<urn:f> <urn:q> \"1\" .
<urn:g> <urn:q> \"1\" .
";

/// A second value for f and g.
const SECOND_VALUE: &[u8] = b"<urn:f> <urn:p> \"4\" .\n<urn:g> <urn:p> \"4\" .\n";

/// The class of the two albums.
const ONE_CLASS: &str = "<urn:al1> <urn:al2>\n";

/// Two albums, to which nothing is added.
const GROW: Case<'static> = Case {
    words: &["grow", "g", "m", "k"],
    out: ONE_CLASS,
    ..MERGE
};

/// The same.
fn grow() -> Case<'static> {
    GROW
}

/// A growth that is refused.
const REFUSED: Case<'static> = Case {
    status: 2,
    out: "",
    ..GROW
};

/// Graphs, what is added to them, keys, and the report.
static GROWN: [(&[u8], &[u8], &[u8], &str); 6] = [
    (ALBUMS, b"", ALBUM_KEY, ONE_CLASS),
    (b"", ALBUMS, ALBUM_KEY, ONE_CLASS),
    (b"", b"", ALBUM_KEY, ""),
    (ALBUMS, ALBUMS, ALBUM_KEY, ONE_CLASS),
    (ONE_TYPE, OTHER_TYPE, ONE_VALUE, "<urn:a> <urn:b>\n"),
    (BLANK_NODE, BLANK_VALUE, ONE_VALUE, "<urn:a> _:n\n"),
];

fn grown() -> &'static [(&'static [u8], &'static [u8], &'static [u8], &'static str)] {
    &GROWN
}

#[test]
fn the_report_is_that_of_both_graphs(rt: HostRuntime) {
    for (row, (graph, more, keys, out)) in grown().iter().enumerate() {
        let case = Case {
            graph,
            more,
            keys,
            out,
            ..grow()
        };
        assert!(rt; holds(&rt, &case), "row {row}");
    }
}

/// Four albums by two artists. The lines of the two albums come first.
fn albums_and_artists() -> &'static [u8] {
    ALBUMS_AND_ARTISTS
}

#[test]
fn graphs_grow_the_same_with_any_workers(rt: HostRuntime) {
    let more = albums_and_artists().strip_prefix(grow().graph);
    let four = Case {
        more: more.expect(&rt, "the two albums first"),
        keys: ALBUM_AND_ARTIST_KEYS,
        out: THREE_CLASSES,
        ..grow()
    };
    assert!(rt; holds(&rt, &four));
    for workers in ["1", "3", "64"] {
        let case = Case {
            words: &["grow", "--workers", workers, "g", "m", "k"],
            ..four
        };
        assert!(rt; holds(&rt, &case), "{workers} workers");
    }
}

/// An added graph with a bad line, before keys with one.
const BAD_MORE: Case<'static> = Case {
    more: b"<urn:a> <urn:p> \"x\" .\n<a> <urn:p> \"x\" .\n",
    keys: b"end\n",
    err: "more:2: relative IRI\n",
    ..REFUSED
};

/// An added graph that is not there.
const NO_MORE: Case<'static> = Case {
    words: &["grow", "g", "none", "k"],
    status: 3,
    err: "more: read failed\n",
    ..REFUSED
};

/// Growths that are refused by one of their files, or that can't read it.
static REFUSED_FILES: [Case<'static>; 5] = [
    BAD_MORE,
    Case {
        graph: b"<urn:a> <urn:p> .\n",
        err: "graph:1: object expected\n",
        ..BAD_MORE
    },
    Case {
        keys: b"end\n",
        err: "keys:1: statement out of place\n",
        ..REFUSED
    },
    NO_MORE,
    Case {
        words: &["grow", "g", "m", "k"],
        failing: 5,
        ..NO_MORE
    },
];

fn refused_files() -> &'static [Case<'static>] {
    &REFUSED_FILES
}

#[test]
fn added_graphs_are_refused_after_the_graph_and_before_keys(rt: HostRuntime) {
    for (row, case) in refused_files().iter().enumerate() {
        assert!(rt; holds(&rt, case), "row {row}");
    }
}

/// Seven triples, of which six may be.
const SEVEN_TRIPLES: Case<'static> = Case {
    more: b"<urn:al1> <urn:by> <urn:ar1> .\n",
    limits: Limits {
        triples: 6,
        ..Limits::STANDARD
    },
    err: "more:1: too many triples\n",
    ..REFUSED
};

/// One pair, where none may be.
const ONE_PAIR: Case<'static> = Case {
    graph: ONE_TYPE,
    more: OTHER_TYPE,
    keys: ONE_VALUE,
    limits: Limits {
        pairs: 0,
        ..Limits::STANDARD
    },
    err: "pairs: more than 0\n",
    ..REFUSED
};

/// Growths beyond a limit, and at it.
static LIMITED: [Case<'static>; 4] = [
    SEVEN_TRIPLES,
    Case {
        more: b"# none\n",
        out: ONE_CLASS,
        status: 0,
        err: "",
        ..SEVEN_TRIPLES
    },
    ONE_PAIR,
    Case {
        more: b"",
        status: 0,
        err: "",
        ..ONE_PAIR
    },
];

fn limited() -> &'static [Case<'static>] {
    &LIMITED
}

#[test]
fn triples_and_pairs_of_both_graphs_are_limited_together(rt: HostRuntime) {
    for (row, case) in limited().iter().enumerate() {
        assert!(rt; holds(&rt, case), "row {row}");
    }
}

/// Words that ask for no command.
static NO_GROWTH: [&'static [&'static str]; 6] = [
    &["grow", "g", "k"],
    &["grow", "g", "m", "k", "k"],
    &["grow", "--workers", "4", "g", "k"],
    &["grow", "--workers", "0", "g", "m", "k"],
    &["grow", "--workers", "65", "g", "m", "k"],
    &["match", "--workers", "4", "g", "m", "k"],
];

fn no_growth() -> &'static [&'static [&'static str]] {
    &NO_GROWTH
}

#[test]
fn other_words_ask_for_no_growth(rt: HostRuntime) {
    for (row, words) in no_growth().iter().enumerate() {
        let case = Case {
            words,
            status: 64,
            out: "",
            err: usage(),
            ..grow()
        };
        assert!(rt; holds(&rt, &case), "row {row}");
    }
}

/// Counts the searches.
#[derive(Drop)]
struct Searches {
    passed: AtomicU64,
}

impl Gate for Searches {
    fn pass(&self, _worker: u32, _pair: u32) {
        self.passed.fetch_add(1, Ordering::SeqCst);
    }
}

/// The first graph's two pairs are searched, and then only the pair that the first chase has missed.
#[test]
fn what_was_identified_is_not_searched_again(rt: HostRuntime) {
    let searches = Searches {
        passed: AtomicU64::new(0),
    };
    let case = Case {
        words: &["grow", "--workers", "1", "g", "m", "k"],
        graph: TWO_PAIRS,
        more: SECOND_VALUE,
        keys: TWO_VALUES,
        ..grow()
    };
    let report = printed(&rt, &case, &searches).expect(&rt, "a report");
    assert!(rt; report.as_slice() == b"<urn:c> <urn:d>\n<urn:f> <urn:g>\n".as_slice());
    assert_eq!(rt; searches.passed.load(Ordering::SeqCst), 3u64);
}
