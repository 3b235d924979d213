use crate::sample::Sample;
use gk_base::{LexFault, LexStop, Term};
use nt_lex::{
    LexedTerm, lex_blank, lex_iri, lex_object, read_blank, read_iri, read_literal, read_object,
    skip_space,
};
use std::alloc::Global;
use term_list::TermRef;

/// What the reader of the kind of term answers that begins with the first byte.
fn read_first(alloc: Global, line: &str) -> Result<(Term, usize), LexStop> {
    let bytes = line.as_bytes();
    if bytes.is_empty() {
        return read_object(alloc, bytes, 0);
    }
    match bytes[0] {
        b'<' => read_iri(alloc, bytes, 0),
        b'_' => read_blank(alloc, bytes, 0),
        b'"' => read_literal(alloc, bytes, 0),
        _ => read_object(alloc, bytes, 0),
    }
}

/// The same with the readers that lend.
fn lex_first(alloc: Global, line: &str) -> Result<(LexedTerm<'_>, usize), LexStop> {
    let bytes = line.as_bytes();
    if bytes.is_empty() {
        return lex_object(alloc, bytes, 0);
    }
    match bytes[0] {
        b'<' => lex_iri(alloc, bytes, 0),
        b'_' => lex_blank(bytes, 0),
        _ => lex_object(alloc, bytes, 0),
    }
}

/// What is to be answered: a term and the place after it, or a fault.
type Expected = Result<(Sample, usize), LexFault>;

/// Whether a reader answered so.
fn is_read(answer: &Result<(Term, usize), LexStop>, expected: &Expected) -> bool {
    match (answer, expected) {
        (Ok((term, place)), Ok((sample, end))) => {
            sample.is(&TermRef::of(term)) && *place == *end
        }
        (Err(LexStop::Fault(found)), Err(fault)) => *found == *fault,
        _ => false,
    }
}

/// Whether a reader that lends answered so.
fn is_lexed(answer: &Result<(LexedTerm<'_>, usize), LexStop>, expected: &Expected) -> bool {
    match (answer, expected) {
        (Ok((term, place)), Ok((sample, end))) => sample.is(&term.lent()) && *place == *end,
        (Err(LexStop::Fault(found)), Err(fault)) => *found == *fault,
        _ => false,
    }
}

/// Whether all readers answer so.
fn answers(alloc: Global, line: &str, expected: &Expected) -> bool {
    is_read(&read_first(alloc, line), expected)
        && is_read(&read_object(alloc, line.as_bytes(), 0), expected)
        && is_lexed(&lex_first(alloc, line), expected)
        && is_lexed(&lex_object(alloc, line.as_bytes(), 0), expected)
}

/// Lines, and the terms with which they begin.
static TERMS: [(&str, Sample, usize); 7] = [
    ("<urn:a\\u0020b>", Sample::Iri(b"urn:a b"), 14),
    ("_:a.b.", Sample::Blank(b"a.b"), 5),
    ("_:a..", Sample::Blank(b"a"), 3),
    ("\"x\"@EN-us .", Sample::Lang(b"x", b"en-us"), 9),
    (
        "\"1\"^^<http://www.w3.org/2001/XMLSchema#string>",
        Sample::Plain(b"1"),
        46,
    ),
    ("\"1\" ^ .", Sample::Plain(b"1"), 3),
    (
        "\"\\t\\U000000E9\" ^^\t<urn:t>.",
        Sample::Typed(b"\t\xc3\xa9", b"urn:t"),
        25,
    ),
];

#[test]
fn terms_are_read_and_end_where_they_stop(rt: HostRuntime) {
    for (line, sample, end) in &TERMS {
        assert!(rt; answers(rt.alloc(), line, &Ok((*sample, *end))), "{line}");
    }
    assert!(rt; skip_space(b" \t x", 1) == 3 && skip_space(b" \t ", 0) == 3);
}

/// Lines, and their faults.
static FAULTS: [(&str, LexFault); 11] = [
    ("", LexFault::ObjectExpected),
    (".", LexFault::ObjectExpected),
    ("<urn:a b>", LexFault::BadIri),
    ("<urn:a", LexFault::BadIri),
    ("\"x\"^^ y", LexFault::BadIri),
    ("<a>", LexFault::RelativeIri),
    ("<urn:\\n>", LexFault::BadEscape),
    ("\"\\uD800\"", LexFault::BadEscape),
    ("\"x", LexFault::StringNotClosed),
    ("_:.a", LexFault::BadBlankNodeLabel),
    ("\"x\"@en- .", LexFault::BadLanguageTag),
];

#[test]
fn faults_are_named(rt: HostRuntime) {
    for (line, fault) in &FAULTS {
        assert!(rt; answers(rt.alloc(), line, &Err(*fault)), "{line}");
    }
}

/// Lines, and whether the texts of their terms are parts of them, so that none is one of its own.
static LENT: [(&str, bool); 8] = [
    ("<urn:a>", true),
    ("_:a.b.", true),
    ("\"x\"", true),
    ("\"x\"@en-us .", true),
    ("\"1\"^^<urn:t>", true),
    ("<urn:a\\u0020b>", false),
    ("\"\\t\"", false),
    ("\"x\"@EN", false),
];

/// Whether a term is read whose texts are parts of the line, or else one that has a text of its own.
fn is_lent(alloc: Global, line: &str, lent: bool) -> bool {
    match lex_object(alloc, line.as_bytes(), 0) {
        Ok((term, _)) => term.is_part_of_the_line() == lent,
        Err(_) => false,
    }
}

#[test]
fn texts_that_stand_in_the_line_are_lent(rt: HostRuntime) {
    for (line, lent) in &LENT {
        assert!(rt; is_lent(rt.alloc(), line, *lent), "{line}");
    }
}
