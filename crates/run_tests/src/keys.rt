//! Small graphs with keys, and the classes that follow by hand. In the graphs and keys `%` stands for `rdf:type`.

use crate::runs::{Case, ENOUGH, good, holds};
use crate::texts::{album_and_artist_keys, album_key, albums_and_artists, three_classes};
use fixtures::texts::{
    ALBUM_AND_ARTIST_KEYS, ALBUMS_AND_ARTISTS, ONE_FOLDED, ONE_VALUE, STREETS, THREE_CLASSES,
};
use gk_base::{Limits, NoMemory};
use std::alloc::Global;
use std::process::Abort;
use std::sync::Wait;
use std::thread::Threads;

/// What a graph and keys lead to.
#[derive(Clone, Copy)]
struct Row {
    about: &'static str,
    graph: &'static [u8],
    keys: &'static [u8],
    out: &'static str,
}

/// Two entities of one value, each with its own make.
const TWO_MADE: &[u8] = b"\
<urn:s1> % <urn:T> .\n<urn:s2> % <urn:T> .\n<urn:s1> <urn:p> \"1\" .\n<urn:s2> <urn:p> \"1\" .
<urn:s1> <urn:made> <urn:m1> .\n<urn:s2> <urn:made> <urn:m2> .\n<urn:m1> % <urn:M> .\n<urn:m2> % <urn:M> .
";

const TWO_OF_T: &[u8] = b"<urn:a> % <urn:T> .\n<urn:b> % <urn:T> .\n";

/// Keys that stand on what others join, and entities that several keys join.
static JOINED: [Row; 10] = [
    Row {
        about: "albums by name and year, their artists, and then the albums of these artists",
        graph: ALBUMS_AND_ARTISTS,
        keys: ALBUM_AND_ARTIST_KEYS,
        out: THREE_CLASSES,
    },
    Row {
        about: "three keys, each on what the one before it joins",
        graph: b"\
<urn:a1> % <urn:A> .\n<urn:a2> % <urn:A> .\n<urn:a1> <urn:p> \"1\" .\n<urn:a2> <urn:p> \"1\" .
<urn:b1> % <urn:B> .\n<urn:b2> % <urn:B> .\n<urn:b1> <urn:q> <urn:a1> .\n<urn:b2> <urn:q> <urn:a2> .
<urn:c1> % <urn:C> .\n<urn:c2> % <urn:C> .\n<urn:c1> <urn:r> <urn:b1> .\n<urn:c2> <urn:r> <urn:b2> .
",
        keys: b"\
key c <urn:C>\nentity ?y <urn:B>\n?x <urn:r> ?y\nend
key b <urn:B>\nentity ?y <urn:A>\n?x <urn:q> ?y\nend
key a <urn:A>\nvalue $v\n?x <urn:p> $v\nend
",
        out: "<urn:a1> <urn:a2>\n<urn:b1> <urn:b2>\n<urn:c1> <urn:c2>\n",
    },
    Row {
        about: "two entity variables that only support each other",
        graph: b"\
<urn:a1> % <urn:A> .\n<urn:a2> % <urn:A> .\n<urn:a1> <urn:q> <urn:b1> .\n<urn:a2> <urn:q> <urn:b2> .
<urn:b1> % <urn:B> .\n<urn:b2> % <urn:B> .\n<urn:b1> <urn:r> <urn:a1> .\n<urn:b2> <urn:r> <urn:a2> .
",
        keys: b"\
key a <urn:A>\nentity ?y <urn:B>\n?x <urn:q> ?y\nend
key b <urn:B>\nentity ?y <urn:A>\n?x <urn:r> ?y\nend
",
        out: "",
    },
    Row {
        about: "the same with a way in",
        graph: b"\
<urn:a1> % <urn:A> .\n<urn:a2> % <urn:A> .\n<urn:a1> <urn:q> <urn:b1> .\n<urn:a2> <urn:q> <urn:b2> .
<urn:b1> % <urn:B> .\n<urn:b2> % <urn:B> .\n<urn:b1> <urn:r> <urn:a1> .\n<urn:b2> <urn:r> <urn:a2> .
<urn:b1> <urn:p> \"1\" .\n<urn:b2> <urn:p> \"1\" .
",
        keys: b"\
key a <urn:A>\nentity ?y <urn:B>\n?x <urn:q> ?y\nend
key b <urn:B>\nentity ?y <urn:A>\n?x <urn:r> ?y\nend
key c <urn:B>\nvalue $v\n?x <urn:p> $v\nend
",
        out: "<urn:a1> <urn:a2>\n<urn:b1> <urn:b2>\n",
    },
    Row {
        about: "two keys that find one pair",
        graph: b"\
<urn:a> % <urn:T> .\n<urn:b> % <urn:T> .\n<urn:a> <urn:p> \"1\" .\n<urn:b> <urn:p> \"1\" .
<urn:a> <urn:q> \"2\" .\n<urn:b> <urn:q> \"2\" .
",
        keys: b"\
key k <urn:T>\nvalue $v\n?x <urn:p> $v\nend
key l <urn:T>\nvalue $v\n?x <urn:q> $v\nend
",
        out: "<urn:a> <urn:b>\n",
    },
    Row {
        about: "an entity of two types, matched by each of them",
        graph: b"\
<urn:a> % <urn:T> .\n<urn:a> % <urn:U> .\n<urn:b> % <urn:T> .\n<urn:c> % <urn:U> .
<urn:a> <urn:p> \"1\" .\n<urn:b> <urn:p> \"1\" .\n<urn:a> <urn:q> \"2\" .\n<urn:c> <urn:q> \"2\" .
",
        keys: b"\
key k <urn:T>\nvalue $v\n?x <urn:p> $v\nend
key l <urn:U>\nvalue $v\n?x <urn:q> $v\nend
",
        out: "<urn:a> <urn:b> <urn:c>\n",
    },
    Row {
        about: "what is joined by way of a third is joined",
        graph: b"\
<urn:a> % <urn:T> .\n<urn:b> % <urn:T> .\n<urn:c> % <urn:T> .\n<urn:d> % <urn:D> .\n<urn:e> % <urn:D> .
<urn:a> <urn:p> \"1\" .\n<urn:b> <urn:p> \"1\" .\n<urn:b> <urn:q> \"2\" .\n<urn:c> <urn:q> \"2\" .
<urn:d> <urn:r> \"3\" .\n<urn:e> <urn:r> \"3\" .\n<urn:d> <urn:at> <urn:a> .\n<urn:e> <urn:at> <urn:c> .
",
        keys: b"\
key k <urn:T>\nvalue $v\n?x <urn:p> $v\nend
key l <urn:T>\nvalue $v\n?x <urn:q> $v\nend
key m <urn:D>\nentity ?y <urn:T>\nvalue $v\n?x <urn:r> $v\n?x <urn:at> ?y\nend
",
        out: "<urn:a> <urn:b> <urn:c>\n<urn:d> <urn:e>\n",
    },
    Row {
        about: "a triple that leads to `?x`",
        graph: b"\
<urn:a> % <urn:T> .\n<urn:b> % <urn:T> .\n<urn:y> % <urn:Y> .\n<urn:z> % <urn:Y> .\n<urn:y> <urn:has> <urn:a> .\n<urn:z> <urn:has> <urn:b> .
<urn:y> <urn:p> \"1\" .\n<urn:z> <urn:p> \"1\" .
",
        keys: b"\
key k <urn:T>\nentity ?y <urn:Y>\n?y <urn:has> ?x\nend
key l <urn:Y>\nvalue $v\n?x <urn:p> $v\nend
",
        out: "<urn:a> <urn:b>\n<urn:y> <urn:z>\n",
    },
    Row {
        about: "two classes that a later pair joins into one",
        graph: b"\
<urn:a> % <urn:T> .\n<urn:b> % <urn:T> .\n<urn:c> % <urn:T> .\n<urn:d> % <urn:T> .
<urn:a> <urn:p> \"1\" .\n<urn:b> <urn:p> \"1\" .\n<urn:c> <urn:p> \"2\" .\n<urn:d> <urn:p> \"2\" .
<urn:b> <urn:q> <urn:e> .\n<urn:c> <urn:q> <urn:f> .\n<urn:e> % <urn:E> .\n<urn:f> % <urn:E> .
<urn:e> <urn:of> <urn:a> .\n<urn:f> <urn:of> <urn:b> .
",
        keys: b"\
key k <urn:T>\nvalue $v\n?x <urn:p> $v\nend
key l <urn:E>\nentity ?y <urn:T>\n?x <urn:of> ?y\nend
key m <urn:T>\nentity ?y <urn:E>\n?x <urn:q> ?y\nend
",
        out: "<urn:a> <urn:b> <urn:c> <urn:d>\n<urn:e> <urn:f>\n",
    },
    Row {
        about: "an entity variable that is `?x` of the other side is another node",
        graph: b"<urn:a> % <urn:T> .\n<urn:b> % <urn:T> .\n<urn:a> <urn:q> <urn:b> .\n<urn:b> <urn:q> <urn:a> .\n",
        keys: b"key k <urn:T>\nentity ?y <urn:T>\n?x <urn:q> ?y\nend\n",
        out: "",
    },
];

/// What stands for a wildcard, an entity variable or a constant.
static PLACED: [Row; 10] = [
    Row {
        about: "an entity variable whose two images are one node",
        graph: b"<urn:a> % <urn:T> .\n<urn:b> % <urn:T> .\n<urn:c> % <urn:C> .\n<urn:a> <urn:q> <urn:c> .\n<urn:b> <urn:q> <urn:c> .\n",
        keys: b"key k <urn:T>\nentity ?y <urn:C>\n?x <urn:q> ?y\nend\n",
        out: "<urn:a> <urn:b>\n",
    },
    Row {
        about: "a wildcard that both sides share, and a side that has none",
        graph: b"\
<urn:a> % <urn:T> .\n<urn:b> % <urn:T> .\n<urn:d> % <urn:T> .\n<urn:c> % <urn:C> .
<urn:a> <urn:q> <urn:c> .\n<urn:b> <urn:q> <urn:c> .\n<urn:d> <urn:q> \"c\" .
",
        keys: b"key k <urn:T>\nany _y <urn:C>\n?x <urn:q> _y\nend\n",
        out: "<urn:a> <urn:b>\n",
    },
    Row {
        about: "a wildcard with two different images",
        graph: TWO_MADE,
        keys: b"key k <urn:T>\nany _w <urn:M>\nvalue $v\n?x <urn:p> $v\n?x <urn:made> _w\nend\n",
        out: "<urn:s1> <urn:s2>\n",
    },
    Row {
        about: "an entity variable in place of the wildcard",
        graph: TWO_MADE,
        keys: b"key k <urn:T>\nentity ?w <urn:M>\nvalue $v\n?x <urn:p> $v\n?x <urn:made> ?w\nend\n",
        out: "",
    },
    Row {
        about: "a constant behind a wildcard",
        graph: b"\
<urn:a> % <urn:T> .\n<urn:b> % <urn:T> .\n<urn:c> % <urn:T> .\n<urn:m> % <urn:M> .\n<urn:n> % <urn:M> .\n<urn:o> % <urn:M> .
<urn:a> <urn:made> <urn:m> .\n<urn:b> <urn:made> <urn:n> .\n<urn:c> <urn:made> <urn:o> .
<urn:m> <urn:in> <urn:X> .\n<urn:n> <urn:in> <urn:X> .\n<urn:o> <urn:in> <urn:Y> .
",
        keys: b"key k <urn:T>\nany _m <urn:M>\n?x <urn:made> _m\n_m <urn:in> <urn:X>\nend\n",
        out: "<urn:a> <urn:b>\n",
    },
    Row {
        about: "a constant that has the key's type: it is no image of `?x`",
        graph: b"\
<urn:a> % <urn:T> .\n<urn:b> % <urn:T> .\n<urn:c> % <urn:T> .
<urn:a> <urn:q> <urn:a> .\n<urn:b> <urn:q> <urn:a> .\n<urn:c> <urn:q> <urn:a> .
",
        keys: b"key k <urn:T>\n?x <urn:q> <urn:a>\nend\n",
        out: "<urn:b> <urn:c>\n",
    },
    Row {
        about: "a constant stands for that very node, and not for its class",
        graph: b"\
<urn:a> % <urn:T> .\n<urn:b> % <urn:T> .\n<urn:a> <urn:q> <urn:c> .\n<urn:b> <urn:q> <urn:d> .
<urn:c> % <urn:C> .\n<urn:d> % <urn:C> .\n<urn:c> <urn:p> \"1\" .\n<urn:d> <urn:p> \"1\" .
",
        keys: b"\
key k <urn:T>\n?x <urn:q> <urn:c>\nend
key l <urn:C>\nvalue $v\n?x <urn:p> $v\nend
",
        out: "<urn:c> <urn:d>\n",
    },
    Row {
        about: "two wildcards need two nodes on each side",
        graph: b"\
<urn:a> % <urn:T> .\n<urn:b> % <urn:T> .\n<urn:c> % <urn:T> .\n<urn:m> % <urn:M> .\n<urn:n> % <urn:M> .
<urn:a> <urn:made> <urn:m> .\n<urn:a> <urn:made> <urn:n> .\n<urn:b> <urn:made> <urn:m> .
<urn:c> <urn:made> <urn:n> .\n<urn:c> <urn:made> <urn:m> .
",
        keys: b"key k <urn:T>\nany _m <urn:M>\nany _n <urn:M>\n?x <urn:made> _m\n?x <urn:made> _n\nend\n",
        out: "<urn:a> <urn:c>\n",
    },
    Row {
        about: "a key with a predicate that the graph lacks, beside one that matches; labels with dots and colons",
        graph: b"\
<urn:z> % <urn:T> .\n_:b.1 % <urn:T> .\n_::x % <urn:T> .\n<urn:z> <urn:p> \"1\" .\n_:b.1 <urn:p> \"1\" .\n_::x <urn:p> \"1\" .
",
        keys: b"\
key k <urn:T>\nvalue $v\n?x <urn:p> $v\nend
key kc <urn:T>\n?x <urn:q> <urn:absent>\nend
",
        out: "<urn:z> _::x _:b.1\n",
    },
    Row {
        about: "a literal as constant",
        graph: b"\
<urn:a> % <urn:T> .\n<urn:b> % <urn:T> .\n<urn:c> % <urn:T> .\n<urn:a> <urn:p> \"1\" .\n<urn:b> <urn:p> \"1\" .\n<urn:c> <urn:p> \"1\"@en .
<urn:a> <urn:q> \"2\" .\n<urn:b> <urn:q> \"2\" .\n<urn:c> <urn:q> \"2\" .
",
        keys: b"key k <urn:T>\nvalue $v\n?x <urn:p> \"1\"\n?x <urn:q> $v\nend\n",
        out: "<urn:a> <urn:b>\n",
    },
];

/// Values, types, and triples between the same nodes.
static VALUED: [Row; 10] = [
    Row {
        about: "a triple from a variable to itself",
        graph: b"\
<urn:a> % <urn:T> .\n<urn:b> % <urn:T> .\n<urn:c> % <urn:T> .\n<urn:a> <urn:q> <urn:a> .\n<urn:b> <urn:q> <urn:b> .
<urn:c> <urn:q> <urn:a> .\n<urn:a> <urn:p> \"1\" .\n<urn:b> <urn:p> \"1\" .\n<urn:c> <urn:p> \"1\" .
",
        keys: b"key k <urn:T>\nvalue $v\n?x <urn:p> $v\n?x <urn:q> ?x\nend\n",
        out: "<urn:a> <urn:b>\n",
    },
    Row {
        about: "two triples between the same nodes",
        graph: b"\
<urn:a> % <urn:T> .\n<urn:b> % <urn:T> .\n<urn:c> % <urn:T> .\n<urn:a> <urn:p> \"1\" .\n<urn:b> <urn:p> \"1\" .\n<urn:c> <urn:p> \"1\" .
<urn:a> <urn:q> \"1\" .\n<urn:b> <urn:q> \"1\" .\n<urn:c> <urn:q> \"2\" .
",
        keys: b"key k <urn:T>\nvalue $v\n?x <urn:p> $v\n?x <urn:q> $v\nend\n",
        out: "<urn:a> <urn:b>\n",
    },
    Row {
        about: "two values under one predicate",
        graph: b"\
<urn:a> % <urn:T> .\n<urn:b> % <urn:T> .\n<urn:c> % <urn:T> .\n<urn:a> <urn:p> \"1\" .\n<urn:a> <urn:p> \"2\" .
<urn:b> <urn:p> \"2\" .\n<urn:b> <urn:p> \"1\" .\n<urn:c> <urn:p> \"1\" .\n<urn:c> <urn:p> \"3\" .
",
        keys: b"key k <urn:T>\nvalue $v\nvalue $w\n?x <urn:p> $v\n?x <urn:p> $w\nend\n",
        out: "<urn:a> <urn:b>\n",
    },
    Row {
        about: "folded values",
        graph: STREETS,
        keys: ONE_FOLDED,
        out: "<urn:u1> <urn:u2>\n",
    },
    Row {
        about: "the same as values",
        graph: STREETS,
        keys: ONE_VALUE,
        out: "",
    },
    Row {
        about: "an entity without the type",
        graph: b"<urn:a> % <urn:T> .\n<urn:a> <urn:p> \"1\" .\n<urn:b> <urn:p> \"1\" .\n",
        keys: ONE_VALUE,
        out: "",
    },
    Row {
        about: "integers that are written in two ways are two literals",
        graph: b"\
<urn:a> % <urn:T> .\n<urn:b> % <urn:T> .\n<urn:a> <urn:p> \"1\"^^<urn:int> .\n<urn:b> <urn:p> \"01\"^^<urn:int> .
",
        keys: ONE_VALUE,
        out: "",
    },
    Row {
        about: "`rdf:type` as a triple of the key",
        graph: b"\
<urn:a> % <urn:T> .\n<urn:b> % <urn:T> .\n<urn:c> % <urn:T> .\n<urn:a> % <urn:U> .\n<urn:b> % <urn:U> .
<urn:a> <urn:p> \"1\" .\n<urn:b> <urn:p> \"1\" .\n<urn:c> <urn:p> \"1\" .
",
        keys: b"key k <urn:T>\nvalue $v\n?x <urn:p> $v\n?x % <urn:U>\nend\n",
        out: "<urn:a> <urn:b>\n",
    },
    Row {
        about: "a value variable takes no IRI",
        graph: b"<urn:a> % <urn:T> .\n<urn:b> % <urn:T> .\n<urn:a> <urn:p> <urn:c> .\n<urn:b> <urn:p> <urn:c> .\n",
        keys: ONE_VALUE,
        out: "",
    },
    Row {
        about: "no keys",
        graph: TWO_OF_T,
        keys: b"# none",
        out: "",
    },
];

/// The text with `rdf:type` in each place of `%`.
pub fn with_types(alloc: Global, short: &[u8]) -> Result<Vec<u8>, NoMemory> {
    let mut text = Vec::new(alloc);
    for byte in short {
        if *byte == b'%' {
            text.extend_from_slice(b"<http://www.w3.org/1999/02/22-rdf-syntax-ns#type>")?;
        } else {
            text.push(*byte)?;
        }
    }
    Ok(text)
}

/// The bytes from one place up to another, where there are such.
fn part(text: &[u8], from: usize, to: usize) -> &[u8] {
    if from <= to && to <= text.len() {
        &text[from..to]
    } else {
        b""
    }
}

/// The lines of a text, the last one first.
pub fn reversed(alloc: Global, text: &[u8]) -> Result<Vec<u8>, NoMemory> {
    let mut lines = Vec::new(alloc);
    let mut end = text.len();
    for place in 1..text.len() {
        let at = text.len() - place;
        if text[at - 1] == b'\n' {
            lines.extend_from_slice(part(text, at, end))?;
            end = at;
        }
    }
    lines.extend_from_slice(part(text, 0, end))?;
    Ok(lines)
}

/// Whether a run over a graph and keys prints this.
fn prints<'a, R: AllocGlobal + Threads + Wait + Sync + Abort>(
    rt: &R,
    graph: &'a [u8],
    keys: &'a [u8],
    out: &'a str,
) -> bool {
    let case = Case {
        graph,
        keys,
        out: out.as_bytes(),
        ..good()
    };
    holds(rt, &case)
}

/// Whether a graph and keys lead to these classes, with the graph's lines in order and in reverse order.
fn row_holds<R: AllocGlobal + Threads + Wait + Sync + Abort>(
    rt: &R,
    graph: &[u8],
    keys: &[u8],
    out: &str,
) -> bool {
    let graph = with_types(rt.alloc(), graph).expect(rt, ENOUGH);
    let keys = with_types(rt.alloc(), keys).expect(rt, ENOUGH);
    let turned = reversed(rt.alloc(), &graph).expect(rt, ENOUGH);
    prints(rt, &graph, &keys, out) && prints(rt, &turned, &keys, out)
}

fn joined() -> &'static [Row] {
    &JOINED
}

fn placed() -> &'static [Row] {
    &PLACED
}

fn valued() -> &'static [Row] {
    &VALUED
}

/// Stops at the first of these rows that does not hold.
fn check_rows<R: AllocGlobal + Threads + Wait + Sync + Abort>(rt: &R, rows: &[Row]) {
    for row in rows {
        assert!(rt;
            row_holds(rt, row.graph, row.keys, row.out),
            "{}",
            row.about
        );
    }
}

#[test]
fn classes_are_those_that_keys_join_one_by_another(rt: HostRuntime) {
    check_rows(&rt, joined());
}

#[test]
fn classes_are_those_of_wildcards_entity_variables_and_constants(rt: HostRuntime) {
    check_rows(&rt, placed());
}

#[test]
fn classes_are_those_of_values_and_types(rt: HostRuntime) {
    check_rows(&rt, valued());
}

#[test]
fn albums_and_artists_that_only_support_each_other_stay_apart(rt: HostRuntime) {
    // Without the key for albums by name and year, which comes first, there is no way in.
    let keys = album_and_artist_keys().strip_prefix(album_key());
    let keys = keys.expect(&rt, "the key of albums first");
    assert!(rt; row_holds(&rt, albums_and_artists(), keys, ""));
}

#[test]
fn candidate_pairs_are_counted_against_the_limit(rt: HostRuntime) {
    let few = Case {
        graph: albums_and_artists(),
        keys: album_and_artist_keys(),
        limits: Limits {
            pairs: 2,
            ..Limits::STANDARD
        },
        status: 2,
        out: b"",
        err: "pairs: more than 2\n",
        ..good()
    };
    assert!(rt; holds(&rt, &few));
    let enough = Case {
        limits: Limits {
            pairs: 3,
            ..Limits::STANDARD
        },
        status: 0,
        out: three_classes().as_bytes(),
        err: "",
        ..few
    };
    assert!(rt; holds(&rt, &enough));
}

const WITH_WILDCARDS: &str =
    "key k <urn:T>\nvalue $v\nany _w <urn:M>\nany _z <urn:M>\n?x <urn:p> $v\n_w <urn:q> _z\nend\n";

/// Keys that are refused, and how.
static REFUSALS: [(&str, &str); 5] = [
    (
        "key k <urn:T>\nvalue $v\n",
        "keys:2: file ends inside a key\n",
    ),
    (WITH_WILDCARDS, "keys:7: not connected\n"),
    (
        "key k <urn:T>\nvalue $v\nany _w <urn:M>\nany _z <urn:M>\n?x <urn:p> $v\nend\n",
        "keys:6: variable not used\n",
    ),
    (
        "key k <urn:T>\nvalue $v\nfolded $v\n",
        "keys:3: variable declared twice\n",
    ),
    ("key k <T>\n", "keys:1: relative IRI\n"),
];

fn refusals() -> &'static [(&'static str, &'static str)] {
    &REFUSALS
}

#[test]
fn refused_keys_name_their_first_line(rt: HostRuntime) {
    for (row, (keys, err)) in refusals().iter().enumerate() {
        let case = Case {
            keys: keys.as_bytes(),
            status: 2,
            out: b"",
            err,
            ..good()
        };
        assert!(rt; holds(&rt, &case), "row {row}");
    }
}
