//! Graphs in all forms of N-Triples, and graphs that are refused.

use crate::runs::{Case, ENOUGH, GOOD, good, holds};
use crate::texts::{albums, joined, line_ends};
use fixtures::texts::{ALBUMS, BOOKS, LINE_ENDS, ONE_VALUE, SPELLINGS};
use std::process::Abort;
use std::sync::Wait;
use std::thread::Threads;

const THREE_VALUES: &[u8] = b"\
key k <urn:T>
value $p
value $q
value $r
?x <urn:p> $p
?x <urn:q> $q
?x <urn:r> $r
end
";

const ISBN: &[u8] = b"\
key isbn <http://schema.org/Book>
value $i
?x <http://schema.org/isbn> $i
end
";

/// A line with a relative IRI.
const RELATIVE: &[u8] = b"<a> <urn:p> \"x\" .\n";

/// A line whose string is not closed.
const NOT_CLOSED: &[u8] = b"<urn:a> <urn:p> \"x";

/// A run that is refused.
const REFUSED: Case<'static> = Case {
    status: 2,
    out: b"",
    ..GOOD
};

fn refused() -> Case<'static> {
    REFUSED
}

/// Graphs with keys, and what is printed.
static READ: [(&[u8], &[u8], &str); 3] = [
    (SPELLINGS, THREE_VALUES, "<urn:u1> <urn:u2>\n"),
    (LINE_ENDS, ONE_VALUE, "<urn:a> <urn:b>\n"),
    (BOOKS, ISBN, "<http://ex.org/b1> _:n4\n"),
];

fn read() -> &'static [(&'static [u8], &'static [u8], &'static str)] {
    &READ
}

#[test]
fn all_forms_of_terms_and_lines_are_read(rt: HostRuntime) {
    for (row, (graph, keys, out)) in read().iter().enumerate() {
        for most in [1usize, 2, 3, 65_536] {
            let case = Case {
                graph,
                keys,
                most,
                out: out.as_bytes(),
                ..good()
            };
            assert!(rt; holds(&rt, &case), "row {row}, {most} bytes at once");
        }
    }
}

/// Graphs with a line behind each, and how they are refused.
static REFUSALS: [(&[u8], &[u8], &str); 3] = [
    (ALBUMS, RELATIVE, "graph:7: relative IRI\n"),
    (ALBUMS, NOT_CLOSED, "graph:7: string not closed\n"),
    (b"", b"\x1F\x8B\n", "graph:1: not UTF-8\n"),
];

fn refusals() -> &'static [(&'static [u8], &'static [u8], &'static str)] {
    &REFUSALS
}

/// Whether a graph with this line behind it is refused so, where a call gives so many bytes at the most.
fn is_refused<R: AllocGlobal + Threads + Wait + Sync + Abort>(
    rt: &R,
    graph: &[u8],
    line: &[u8],
    most: usize,
    err: &str,
) -> bool {
    let longer = joined(rt.alloc(), graph, line).expect(rt, ENOUGH);
    let case = Case {
        graph: &longer,
        most,
        err,
        ..refused()
    };
    holds(rt, &case)
}

#[test]
fn refused_graphs_name_their_first_line(rt: HostRuntime) {
    let (_, no_last_dot) = line_ends().split_last().expect(&rt, "no graph");
    for most in [1usize, 2, 3, 65_536] {
        for (row, (graph, line, err)) in refusals().iter().enumerate() {
            assert!(rt;
                is_refused(&rt, graph, line, most, err),
                "row {row}, {most} bytes at once"
            );
        }
        assert!(rt;
            is_refused(&rt, no_last_dot, b"", most, "graph:5: dot expected\n"),
            "no last dot, {most} bytes at once"
        );
    }
}

/// Lines, and their faults.
static FAULTS: [(&str, &str); 9] = [
    (
        "\u{FEFF}<urn:a> <urn:p> \"1\" .",
        "graph:1: subject expected\n",
    ),
    ("<urn:a> <urn:p> \"\\q\" .", "graph:1: bad escape\n"),
    (
        "<urn:a> <urn:p> \"x\"^ <urn:t> .",
        "graph:1: dot expected\n",
    ),
    ("<urn:a> <urn:p> \"x\"^^ \"y\" .", "graph:1: bad IRI\n"),
    ("<urn:a> <urn:p> _: .", "graph:1: bad blank node label\n"),
    ("<urn:a> <urn:p> \"x\"@ .", "graph:1: bad language tag\n"),
    ("<urn:a> \"p\" \"x\" .", "graph:1: predicate expected\n"),
    ("<urn:a> <urn:p> .", "graph:1: object expected\n"),
    ("<urn:a> <urn:p> \"x\" . x", "graph:1: text after the dot\n"),
];

fn faults() -> &'static [(&'static str, &'static str)] {
    &FAULTS
}

#[test]
fn each_fault_of_a_line_has_its_text(rt: HostRuntime) {
    for (row, (line, err)) in faults().iter().enumerate() {
        let case = Case {
            graph: line.as_bytes(),
            err,
            ..refused()
        };
        assert!(rt; holds(&rt, &case), "row {row}");
    }
}

/// Calls 2 to 5 give the first four bytes. The line is refused at its end, so the sixth call never comes.
#[test]
fn no_byte_is_read_after_a_refused_line(rt: HostRuntime) {
    let early = Case {
        graph: b"<a>\nx",
        reads: &[6],
        most: 1,
        err: "graph:1: relative IRI\n",
        ..refused()
    };
    assert!(rt; holds(&rt, &early));
    let unread = Case {
        reads: &[5],
        status: 3,
        err: "graph: read failed\n",
        ..early
    };
    assert!(rt; holds(&rt, &unread));
}

#[test]
fn a_refused_graph_comes_before_a_missing_key_file(rt: HostRuntime) {
    let longer = joined(rt.alloc(), albums(), RELATIVE).expect(&rt, ENOUGH);
    let no_keys = Case {
        words: &["match", "g", "none"],
        graph: &longer,
        err: "graph:7: relative IRI\n",
        ..refused()
    };
    assert!(rt; holds(&rt, &no_keys));
}
