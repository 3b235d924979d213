ghost use Rattle.std.specs.Prelude.{All, IsTrue};
ghost use Rattle.merge_graph.specs.MergedGraph.{IsWithin};

use fixtures::texts::{ALBUMS, ALBUMS_AND_ARTISTS, ALBUMS_AND_ARTISTS_MERGED, ALBUMS_MERGED};
use gk_base::{Limits, NoMemory, ReadStop, Term, Text};
use merge_graph::{MergedText, merge};
use nt_reader::Reader;
use std::alloc::Global;
use std::process::Abort;
use std::test::Fail;
use term_list::Triples;
use term_table::Names;

/// A graph, the labels of its names in the order in which they first come, and the merged graph.
struct Merging {
    graph: &'static [u8],
    labels: &'static [u32],
    merged: &'static str,
}

static MERGED: [Merging; 7] = [
    // The first two albums are one.
    Merging {
        graph: ALBUMS,
        labels: &[0, 1, 2, 0, 4, 5, 6, 7],
        merged: ALBUMS_MERGED,
    },
    // Two albums each, and the artists, are one.
    Merging {
        graph: ALBUMS_AND_ARTISTS,
        labels: &[0, 1, 2, 0, 4, 5, 6, 7, 9, 9, 10, 13, 12, 13, 14, 15],
        merged: ALBUMS_AND_ARTISTS_MERGED,
    },
    Merging {
        graph: b"",
        labels: &[],
        merged: "",
    },
    // Blank nodes and an IRI are one. The IRI comes last, and has the first text.
    Merging {
        graph: b"\
_:b.1 <urn:p> \"1\" .
_::x <urn:p> \"1\" .
<urn:z> <urn:p> \"1\" .
<urn:a> <urn:q> _::x .
",
        labels: &[4_000_000_000, 1, 2, 4_000_000_000, 4_000_000_000, 5, 6],
        merged: "\
<urn:a> <urn:q> <urn:z> .
<urn:z> <urn:p> \"1\" .
",
    },
    // A predicate stays, though it is one with the subject. Nothing else is one, and a triple comes twice.
    Merging {
        graph: b"\
<urn:b> <urn:p> <urn:p> .
<urn:a> <urn:q> \"1\"@en .
<urn:b> <urn:p> <urn:p> .
<urn:a> <urn:q> \"1\" .
",
        labels: &[0, 0, 2, 3, 4, 5],
        merged: "\
<urn:a> <urn:q> \"1\" .
<urn:a> <urn:q> \"1\"@en .
<urn:b> <urn:p> <urn:b> .
",
    },
    // All triples become one.
    Merging {
        graph: b"\
_:c <urn:p> _:b .
_:b <urn:p> _:c .
_:a <urn:p> _:a .
_:c <urn:p> _:a .
",
        labels: &[0, 1, 0, 0],
        merged: "\
_:a <urn:p> _:a .
",
    },
    // Some texts begin with the whole of another.
    Merging {
        graph: b"\
_:b0 <urn:p> \"1\" .
_:b <urn:p> \"1\" .
<urn:a> <urn:q> \"1\"^^<urn:t> .
<urn:a> <urn:q> \"1\" .
",
        labels: &[0, 1, 2, 3, 4, 5, 6],
        merged: "\
<urn:a> <urn:q> \"1\" .
<urn:a> <urn:q> \"1\"^^<urn:t> .
_:b <urn:p> \"1\" .
_:b0 <urn:p> \"1\" .
",
    },
];

/// A function hands the table out, so that no proof looks into it.
fn cases() -> &'static [Merging] {
    &MERGED
}

/// The triples of a graph.
fn read(alloc: Global, graph: &[u8]) -> Result<Triples, ReadStop> {
    let mut reader = Reader::new(alloc, &Limits::STANDARD);
    reader.feed(graph)?;
    reader.finish()
}

/// The numbers in threes.
fn in_rows(alloc: Global, numbers: &[u32]) -> Result<Vec<[u32; 3]>, NoMemory> {
    let mut rows = Vec::new(alloc);
    for three in numbers.chunks_exact(3) {
        if let [subject, predicate, object] = three {
            rows.push([*subject, *predicate, *object])?;
        }
    }
    Ok(rows)
}

/// Whether each number of the row is below the count.
fn is_within(row: &[u32; 3], count: u32) -> bool
    ensures { IsTrue result → IsWithin count row.now }
{
    row[0] < count && row[1] < count && row[2] < count
}

/// Whether each number of the rows is below the count.
fn are_within(rows: &[[u32; 3]], count: u32) -> bool
    ensures { IsTrue result → All (IsWithin count) rows.now }
{
    for row in rows {
        if !is_within(row, count) {
            return false;
        }
    }
    true
}

/// The names of a graph, and the numbers of its triples.
fn names_and_rows(
    rt: &impl Abort,
    alloc: Global,
    graph: &[u8],
) -> Result<(Names, Vec<[u32; 3]>), NoMemory> {
    let triples = read(alloc, graph).expect(rt, "the graph is good");
    assert!(rt; triples.terms().len() < 1000);
    let mut names = Names::new(alloc);
    let numbers = names.intern_all(triples.terms())?;
    let rows = in_rows(alloc, &numbers)?;
    Ok((names, rows))
}

/// The merged graph of a case.
fn merged(rt: &impl Abort, alloc: Global, case: &Merging) -> Result<MergedText, NoMemory> {
    let (names, rows) = names_and_rows(rt, alloc, case.graph)?;
    assert_eq!(rt; names.len() as usize, case.labels.len());
    assert!(rt; are_within(&rows, names.len()));
    merge(alloc, &names, &rows, case.labels)
}

#[test]
fn each_name_stands_as_the_first_of_its_class(rt: HostRuntime) -> Result<(), Fail> {
    for case in cases() {
        let merged = merged(&rt, rt.alloc(), case)?;
        assert_eq!(rt; merged.bytes(), case.merged.as_bytes());
        assert_eq!(rt; merged.into_vec().as_slice(), case.merged.as_bytes());
    }
    Ok(())
}

/// The number of a term, where there is room for one more.
fn number_of(names: &mut Names, term: Term) -> Result<u32, NoMemory> {
    if names.len() == u32::MAX {
        return Err(NoMemory);
    }
    names.intern(term)
}

/// Names that are blank nodes with these labels, and then the IRI `urn:p`.
fn names_with_labels(alloc: Global, labels: &[&[u8]]) -> Result<Names, NoMemory> {
    let mut names = Names::new(alloc);
    for label in labels {
        let _ = number_of(&mut names, Term::Blank(Text::from_bytes(alloc, label)?))?;
    }
    let predicate = Term::Iri(Text::from_bytes(alloc, b"urn:p")?);
    let _ = number_of(&mut names, predicate)?;
    Ok(names)
}

/// The merged graph, where there is one label for each name and each number of the rows is a name.
fn merged_of(
    alloc: Global,
    names: &Names,
    rows: &[[u32; 3]],
    labels: &[u32],
) -> Result<Option<MergedText>, NoMemory> {
    if names.len() as usize != labels.len() || !are_within(rows, names.len()) {
        return Ok(None);
    }
    Ok(Some(merge(alloc, names, rows, labels)?))
}

#[test]
fn names_that_no_file_spells_are_sorted_by_lines(rt: HostRuntime) -> Result<(), Fail> {
    let alloc = rt.alloc();
    let names = names_with_labels(alloc, &[b"b", b"b !", b"b\x01"])?;
    let rows = [[0, 3, 0], [1, 3, 1], [2, 3, 2], [0, 3, 0]];
    let merged = merged_of(alloc, &names, &rows, &[0, 1, 2, 3])?.expect(&rt, "all are names");
    let lines = "_:b\x01 <urn:p> _:b\x01 .\n_:b ! <urn:p> _:b ! .\n_:b <urn:p> _:b .\n";
    assert_eq!(rt; merged.bytes(), lines.as_bytes());
    Ok(())
}
