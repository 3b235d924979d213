//! Merged graphs.

use crate::runs::{Case, MERGE, holds, merge, printed};
use fixtures::texts::{
    ALBUM_AND_ARTIST_KEYS, ALBUM_KEY, ALBUMS, ALBUMS_AND_ARTISTS, ALBUMS_AND_ARTISTS_MERGED,
    ALBUMS_MERGED, ONE_VALUE,
};
use gk_base::Limits;
use steal_pool::OpenGate;

/// The two albums, sorted.
const ALBUMS_SORTED: &str = "\
<urn:al1> <http://www.w3.org/1999/02/22-rdf-syntax-ns#type> <urn:Album> .
<urn:al1> <urn:name> \"Anthology 2\" .
<urn:al1> <urn:year> \"1996\" .
<urn:al2> <http://www.w3.org/1999/02/22-rdf-syntax-ns#type> <urn:Album> .
<urn:al2> <urn:name> \"Anthology 2\" .
<urn:al2> <urn:year> \"1996\" .
";

/// An IRI and two blank nodes that are the same.
const BLANK_NODES: &[u8] = b"\
_:b.1 <http://www.w3.org/1999/02/22-rdf-syntax-ns#type> <urn:T> .
_::x <http://www.w3.org/1999/02/22-rdf-syntax-ns#type> <urn:T> .
<urn:z> <http://www.w3.org/1999/02/22-rdf-syntax-ns#type> <urn:T> .
_:b.1 <urn:p> \"1\" .
_::x <urn:p> \"1\" .
<urn:z> <urn:p> \"1\" .
";

const BLANK_NODES_MERGED: &str = "\
<urn:z> <http://www.w3.org/1999/02/22-rdf-syntax-ns#type> <urn:T> .
<urn:z> <urn:p> \"1\" .
";

/// Graphs, keys, and the merged graph.
static MERGED: [(&[u8], &[u8], &str); 5] = [
    (ALBUMS, ALBUM_KEY, ALBUMS_MERGED),
    (b"", ALBUM_KEY, ""),
    (ALBUMS, b"", ALBUMS_SORTED),
    (
        ALBUMS_AND_ARTISTS,
        ALBUM_AND_ARTIST_KEYS,
        ALBUMS_AND_ARTISTS_MERGED,
    ),
    (BLANK_NODES, ONE_VALUE, BLANK_NODES_MERGED),
];

fn merged() -> &'static [(&'static [u8], &'static [u8], &'static str)] {
    &MERGED
}

/// A merge of the four albums and their artists.
fn merge_of_four() -> Case<'static> {
    Case {
        graph: ALBUMS_AND_ARTISTS,
        keys: ALBUM_AND_ARTIST_KEYS,
        out: ALBUMS_AND_ARTISTS_MERGED,
        ..MERGE
    }
}

#[test]
fn entities_stand_as_the_first_of_their_class(rt: HostRuntime) {
    for (row, (graph, keys, out)) in merged().iter().enumerate() {
        let case = Case {
            graph,
            keys,
            out,
            ..merge()
        };
        assert!(rt; holds(&rt, &case), "row {row}");
    }
}

#[test]
fn merged_graphs_are_the_same_with_any_workers(rt: HostRuntime) {
    for workers in ["1", "3", "64"] {
        let case = Case {
            words: &["merge", "--workers", workers, "g", "k"],
            ..merge_of_four()
        };
        assert!(rt; holds(&rt, &case), "{workers} workers");
    }
}

#[test]
fn a_merged_graph_is_matched_as_any_other(rt: HostRuntime) {
    let merging = merge_of_four();
    let merged = printed(&rt, &merging, &OpenGate).expect(&rt, "a merged graph");
    let matching = Case {
        words: &["match", "g", "k"],
        graph: &merged,
        out: "",
        ..merging
    };
    assert!(rt; holds(&rt, &matching));
    let again = Case {
        graph: &merged,
        ..merging
    };
    assert!(rt; holds(&rt, &again));
}

/// A merge that is refused.
const REFUSED: Case<'static> = Case {
    status: 2,
    out: "",
    ..MERGE
};

/// Merges that are refused, or that can't read a file.
static REFUSALS: [Case<'static>; 4] = [
    Case {
        graph: b"<urn:a> <urn:p> .\n",
        err: "graph:1: object expected\n",
        ..REFUSED
    },
    Case {
        keys: b"end\n",
        err: "keys:1: statement out of place\n",
        ..REFUSED
    },
    Case {
        limits: Limits {
            pairs: 0,
            ..Limits::STANDARD
        },
        err: "pairs: more than 0\n",
        ..REFUSED
    },
    Case {
        words: &["merge", "none", "k"],
        status: 3,
        err: "graph: read failed\n",
        ..REFUSED
    },
];

fn refusals() -> &'static [Case<'static>] {
    &REFUSALS
}

#[test]
fn merges_are_refused_as_matches_are(rt: HostRuntime) {
    for (row, case) in refusals().iter().enumerate() {
        assert!(rt; holds(&rt, case), "row {row}");
    }
}
