ghost use Rattle.std.specs.Prelude.{◌+◌, ◌<◌, ◌^◌};

use crate::sample::Sample;
use gk_base::{LexFault, LexStop, Limits, NoMemory, ReadFault, ReadRefusal, ReadStop, Triple};
use nt_reader::{Reader, read_line};
use std::alloc::{AllocError, Global};
use term_list::{TermRef, Terms, Triples};

mod characters;
mod files;
mod lines;
mod literals;
mod names;

/// What a line says: nothing, a triple with this object, or a fault.
pub(crate) enum Says {
    Nothing,
    Iri(&'static [u8]),
    Blank(&'static [u8]),
    Plain(&'static [u8]),
    Typed(&'static [u8], &'static [u8]),
    Lang(&'static [u8], &'static [u8]),
    Fault(LexFault),
}

/// The subject, the predicate and the object of a triple.
pub(crate) type Row = (Sample, Sample, Sample);

/// What a reader is to answer: what its only line says, these triples, how many of them, or a refusal.
#[derive(Clone, Copy)]
enum Expected<'a> {
    Line(&'a Says),
    Rows(&'a [Row]),
    Count(usize),
    Refused(u64, ReadFault),
}

/// Whether a line with this object says so.
fn is_object(term: &TermRef<'_>, says: &Says) -> bool {
    match *says {
        Says::Iri(name) => Sample::Iri(name).is(term),
        Says::Blank(label) => Sample::Blank(label).is(term),
        Says::Plain(form) => Sample::Plain(form).is(term),
        Says::Typed(form, datatype) => Sample::Typed(form, datatype).is(term),
        Says::Lang(form, tag) => Sample::Lang(form, tag).is(term),
        Says::Nothing | Says::Fault(_) => false,
    }
}

/// Whether the triple whose terms begin at this place is this row.
fn is_row(terms: &Terms, at: usize, row: &Row) -> bool {
    if terms.len() < at || terms.len() - at < 3 {
        return false;
    }
    row.0.is(&terms.get(at)) && row.1.is(&terms.get(at + 1)) && row.2.is(&terms.get(at + 2))
}

/// Whether these are the terms of the rows.
fn are_rows(terms: &Terms, rows: &[Row]) -> bool {
    let mut at: usize = 0;
    'rows: for row in rows {
        if !is_row(terms, at, row) {
            return false;
        }
        at = at.saturating_add(3);
    }
    terms.len() == at
}

/// What the reader of a line answers. It promises nothing, so that the proof of its caller has little to carry.
fn answer_to_line(alloc: Global, line: &[u8]) -> Result<Option<Triple>, LexStop> {
    read_line(alloc, line)
}

/// Whether a line with this fault says so.
fn is_fault(found: LexFault, says: &Says) -> bool {
    match says {
        Says::Fault(fault) => found == *fault,
        _ => false,
    }
}

fn line_says(alloc: Global, line: &[u8], says: &Says) -> bool {
    match answer_to_line(alloc, line) {
        Ok(Some(triple)) => is_object(&TermRef::of(&triple.object), says),
        Ok(None) => matches!(says, Says::Nothing),
        Err(LexStop::Fault(found)) => is_fault(found, says),
        Err(_) => false,
    }
}

/// Whether these are the terms of the triples that are expected.
fn are_expected(terms: &Terms, expected: &Expected<'_>) -> bool {
    match expected {
        Expected::Line(Says::Nothing) => terms.is_empty(),
        Expected::Line(says) => terms.len() == 3 && is_object(&terms.get(2), says),
        Expected::Rows(rows) => are_rows(terms, rows),
        Expected::Count(count) => terms.len() / 3 == *count && terms.len() % 3 == 0,
        Expected::Refused(_, _) => false,
    }
}

fn is_refused(stop: ReadStop, line: u64, fault: ReadFault) -> bool {
    stop == ReadStop::Fault(ReadRefusal { line, fault })
}

fn is_expected(answer: Result<Terms, ReadStop>, expected: &Expected<'_>) -> bool {
    match (answer, expected) {
        (Ok(terms), expected) => are_expected(&terms, expected),
        (Err(stop), Expected::Line(Says::Fault(fault))) => {
            is_refused(stop, 1, ReadFault::Lex(*fault))
        }
        (Err(stop), Expected::Refused(line, fault)) => is_refused(stop, *line, *fault),
        _ => false,
    }
}

/// Puts the terms of triples at the end of a list.
fn put_terms(terms: &mut Terms, triples: &Triples) -> Result<(), NoMemory> {
    let more = triples.terms();
    for at in 0..more.len() {
        terms.push(&more.get(at))?;
    }
    Ok(())
}

/// What the reader answers at the end: the terms of its triples.
fn ended(alloc: Global, reader: Reader) -> Result<Terms, ReadStop> {
    let mut terms = Terms::new(alloc);
    put_terms(&mut terms, &reader.finish()?)?;
    Ok(terms)
}

/// The answer to a file in three pieces. It is asked for at the end, whatever `feed` answered.
fn in_pieces(
    alloc: Global,
    limits: &Limits,
    first: &[u8],
    second: &[u8],
    third: &[u8],
) -> Result<Terms, ReadStop>
    requires { limits.now.bytes + 1 < 2 ^ 64 }
{
    let mut reader = Reader::new(alloc, limits);
    let _ = reader.feed(first);
    let _ = reader.feed(second);
    let _ = reader.feed(third);
    ended(alloc, reader)
}

fn byte_by_byte(alloc: Global, limits: &Limits, text: &[u8]) -> Result<Terms, ReadStop>
    requires { limits.now.bytes + 1 < 2 ^ 64 }
{
    let mut reader = Reader::new(alloc, limits);
    'bytes: for b in text {
        let piece = [*b];
        let _ = reader.feed(&piece);
    }
    ended(alloc, reader)
}

/// Takes the triples that the reader has, and puts their terms at the end of a list.
fn take_terms(alloc: Global, reader: &mut Reader, terms: &mut Terms) -> Result<(), NoMemory> {
    let mut taken = Triples::new(alloc);
    reader.take_triples(&mut taken);
    put_terms(terms, &taken)
}

/// The same, with the triples of each line taken as soon as it has ended.
fn taken_as_they_come(alloc: Global, limits: &Limits, text: &[u8]) -> Result<Terms, ReadStop>
    requires { limits.now.bytes + 1 < 2 ^ 64 }
{
    let mut reader = Reader::new(alloc, limits);
    let mut terms = Terms::new(alloc);
    'bytes: for b in text {
        let piece = [*b];
        let _ = reader.feed(&piece);
        take_terms(alloc, &mut reader, &mut terms)?;
    }
    put_terms(&mut terms, &reader.finish()?)?;
    Ok(terms)
}

/// Whether this is the answer to the file whole, byte by byte, cut at each place, and taken line by line.
fn answers(alloc: Global, bytes: u64, triples: u64, text: &[u8], expected: &Expected<'_>) -> bool
    requires { bytes < 1000000 }
{
    let limits = Limits {
        bytes,
        triples,
        ..Limits::STANDARD
    };
    'cuts: for cut in 0..text.len() {
        let answer = in_pieces(alloc, &limits, &text[..cut], &text[cut..], b"");
        if !is_expected(answer, expected) {
            return false;
        }
    }
    is_expected(in_pieces(alloc, &limits, text, b"", b""), expected)
        && is_expected(byte_by_byte(alloc, &limits, text), expected)
        && is_expected(taken_as_they_come(alloc, &limits, text), expected)
}

fn joined(alloc: Global, front: &[u8], back: &[u8]) -> Result<Vec<u8>, AllocError> {
    let mut text = Vec::from_slice(alloc, front)?;
    text.extend_from_slice(back)?;
    Ok(text)
}

/// Whether the line says so, by itself and as a file.
fn is_said(alloc: Global, line: &[u8], says: &Says) -> bool {
    line_says(alloc, line, says) && answers(alloc, 1000, 9, line, &Expected::Line(says))
}

/// Whether the line of a subject, a predicate and this rest says so.
fn is_said_after(alloc: Global, rest: &[u8], says: &Says) -> bool {
    match joined(alloc, b"<urn:a> <urn:p> ", rest) {
        Ok(line) => is_said(alloc, &line, says),
        Err(_) => false,
    }
}

/// The first row of the table that is not as the reader has it, or the length of the table.
fn first_wrong(alloc: Global, rows: &[(&'static [u8], Says)], after: bool) -> usize {
    'rows: for (i, row) in rows.iter().enumerate() {
        let right = if after {
            is_said_after(alloc, row.0, &row.1)
        } else {
            is_said(alloc, row.0, &row.1)
        };
        if !right {
            return i;
        }
    }
    rows.len()
}

#[test]
fn lines_say_what_the_grammar_says_in_any_cutting(rt: HostRuntime) {
    // Each table, and whether a subject and a predicate go before its lines.
    let tables = [
        (lines::lines(), false),
        (lines::ends(), true),
        (literals::strings(), true),
        (literals::suffixes(), true),
        (names::iris(), true),
        (names::labels(), true),
    ];
    for (rows, after) in tables {
        assert_eq!(rt; first_wrong(rt.alloc(), rows, after), rows.len());
    }
}

/// Whether a label that begins with the character is read, or refused as a label.
fn begins_label(alloc: Global, c: char, is_good: bool) -> bool {
    let mut buffer = [0u8; 4];
    let first = c.encode_utf8(&mut buffer);
    let answer = in_pieces(
        alloc,
        &Limits::STANDARD,
        b"_:",
        first.as_bytes(),
        b"<urn:p>\"1\".",
    );
    if is_good {
        is_expected(answer, &Expected::Count(1))
    } else {
        is_expected(
            answer,
            &Expected::Line(&Says::Fault(LexFault::BadBlankNodeLabel)),
        )
    }
}

#[test]
fn labels_begin_with_the_characters_of_the_grammar(rt: HostRuntime) {
    'inside: for c in characters::inside() {
        assert!(rt; begins_label(rt.alloc(), *c, true));
    }
    'outside: for c in characters::outside() {
        assert!(rt; begins_label(rt.alloc(), *c, false));
    }
}

#[test]
fn files_say_the_triples_of_their_lines(rt: HostRuntime) {
    let files = [
        (files::albums(), files::album_rows()),
        (files::spellings(), files::spelling_rows()),
        (files::books(), files::book_rows()),
        (files::ends(), files::end_rows()),
    ];
    for (text, rows) in files {
        assert!(rt; answers(rt.alloc(), 2000, 9, text, &Expected::Rows(rows)));
    }
}

/// Whether the file is refused at this line with this fault of a line in any cutting.
fn is_refused_at(alloc: Global, text: &[u8], line: u64, fault: LexFault) -> bool {
    let expected = Expected::Refused(line, ReadFault::Lex(fault));
    answers(alloc, 2000, 9, text, &expected)
}

/// What comes after the albums, the line of it that is refused, and why.
static BEHIND: [(&[u8], u64, LexFault); 4] = [
    (b"<urn:a> <urn:p> \"x", 7, LexFault::StringNotClosed),
    (
        b"\r\n<urn:a> <urn:p> \"x\ny\" .\n",
        8,
        LexFault::StringNotClosed,
    ),
    (
        b"\r<urn:a> <urn:p> \"x\r\ny\" .",
        8,
        LexFault::StringNotClosed,
    ),
    (b"<a> <urn:p> \"x\" .\n", 7, LexFault::RelativeIri),
];

#[test]
fn files_are_refused_at_their_first_faulty_line(rt: HostRuntime) {
    let alloc = rt.alloc();
    for (more, line, fault) in &BEHIND {
        let text = joined(alloc, files::albums(), more).expect(&rt, "enough memory");
        assert!(rt; is_refused_at(alloc, &text, *line, *fault));
    }
    let (_, front) = files::ends().split_last().expect(&rt, "no file");
    assert!(rt; is_refused_at(alloc, front, 5, LexFault::DotExpected));
}

const ONE: &[u8] = b"<urn:a> <urn:p> \"1\" .\r\n";

const MIXED: &[u8] = b"<urn:a><urn:p>_:b.\r\n\r#x\n<urn:a><urn:p><urn:c>.";

const TWICE: &[u8] = b"<urn:a><urn:p>_:b.\n\n<urn:a><urn:p>_:b.\nx";

const SUBJECT: ReadFault = ReadFault::Lex(LexFault::SubjectExpected);

/// Files, limits of bytes and of triples, and what is answered under them.
static LIMITED: [(&[u8], u16, u64, Expected<'static>); 10] = [
    (ONE, 22, 9, Expected::Refused(1, ReadFault::TooLong)),
    (ONE, 23, 9, Expected::Count(1)),
    (MIXED, 100, 9, Expected::Count(2)),
    (b"\r\n\n\rx", 100, 9, Expected::Refused(4, SUBJECT)),
    (TWICE, 100, 9, Expected::Refused(4, SUBJECT)),
    (
        TWICE,
        100,
        1,
        Expected::Refused(3, ReadFault::TooManyTriples),
    ),
    (b"\nab", 2, 9, Expected::Refused(2, ReadFault::TooLong)),
    (b"\r\r", 1, 9, Expected::Refused(2, ReadFault::TooLong)),
    (b"x\ny", 2, 9, Expected::Refused(1, SUBJECT)),
    (b"x\ny", 1, 9, Expected::Refused(1, ReadFault::TooLong)),
];

#[test]
fn files_are_kept_to_limits(rt: HostRuntime) {
    let alloc = rt.alloc();
    for (text, bytes, triples, expected) in &LIMITED {
        assert!(rt; answers(alloc, u64::from(*bytes), *triples, text, expected));
    }
    let many = Expected::Refused(6, ReadFault::TooManyTriples);
    assert!(rt; answers(alloc, 2000, 5, files::albums(), &many));
    let long = Expected::Refused(1, ReadFault::TooLong);
    assert!(rt; answers(alloc, 10, 9, files::albums(), &long));
}
