//! What files of several lines say.

use super::Row;
use crate::sample::Sample;
use fixtures::texts::{ALBUMS, BOOKS, LINE_ENDS, SPELLINGS};

/// `rdf:type`.
const TYPE: &[u8] = b"http://www.w3.org/1999/02/22-rdf-syntax-ns#type";

/// The triples of the two albums.
static ALBUM_ROWS: [Row; 6] = [
    (
        Sample::Iri(b"urn:al1"),
        Sample::Iri(TYPE),
        Sample::Iri(b"urn:Album"),
    ),
    (
        Sample::Iri(b"urn:al2"),
        Sample::Iri(TYPE),
        Sample::Iri(b"urn:Album"),
    ),
    (
        Sample::Iri(b"urn:al1"),
        Sample::Iri(b"urn:name"),
        Sample::Plain(b"Anthology 2"),
    ),
    (
        Sample::Iri(b"urn:al2"),
        Sample::Iri(b"urn:name"),
        Sample::Plain(b"Anthology 2"),
    ),
    (
        Sample::Iri(b"urn:al1"),
        Sample::Iri(b"urn:year"),
        Sample::Plain(b"1996"),
    ),
    (
        Sample::Iri(b"urn:al2"),
        Sample::Iri(b"urn:year"),
        Sample::Plain(b"1996"),
    ),
];

/// The triples of the two spellings of three values.
static SPELLING_ROWS: [Row; 8] = [
    (
        Sample::Iri(b"urn:u1"),
        Sample::Iri(TYPE),
        Sample::Iri(b"urn:T"),
    ),
    (
        Sample::Iri(b"urn:u1"),
        Sample::Iri(b"urn:p"),
        Sample::Plain(b"a"),
    ),
    (
        Sample::Iri(b"urn:u1"),
        Sample::Iri(b"urn:q"),
        Sample::Lang(b"b", b"en"),
    ),
    (
        Sample::Iri(b"urn:u1"),
        Sample::Iri(b"urn:r"),
        Sample::Plain(b"ac"),
    ),
    (
        Sample::Iri(b"urn:u2"),
        Sample::Iri(TYPE),
        Sample::Iri(b"urn:T"),
    ),
    (
        Sample::Iri(b"urn:u2"),
        Sample::Iri(b"urn:p"),
        Sample::Plain(b"a"),
    ),
    (
        Sample::Iri(b"urn:u2"),
        Sample::Iri(b"urn:q"),
        Sample::Lang(b"b", b"en"),
    ),
    (
        Sample::Iri(b"urn:u2"),
        Sample::Iri(b"urn:r"),
        Sample::Plain(b"ac"),
    ),
];

/// The triples of the books.
static BOOK_ROWS: [Row; 7] = [
    (
        Sample::Iri(b"http://ex.org/b1"),
        Sample::Iri(TYPE),
        Sample::Iri(b"http://schema.org/Book"),
    ),
    (
        Sample::Iri(b"http://ex.org/b1"),
        Sample::Iri(TYPE),
        Sample::Iri(b"http://schema.org/CreativeWork"),
    ),
    (
        Sample::Iri(b"http://ex.org/b1"),
        Sample::Iri(b"http://schema.org/isbn"),
        Sample::Plain(b"9780140449136"),
    ),
    (
        Sample::Iri(b"http://ex.org/b1"),
        Sample::Iri(b"http://schema.org/name"),
        Sample::Lang(b"Crime and Punishment", b"en"),
    ),
    (
        Sample::Blank(b"n4"),
        Sample::Iri(TYPE),
        Sample::Iri(b"http://schema.org/Book"),
    ),
    (
        Sample::Blank(b"n4"),
        Sample::Iri(b"http://schema.org/isbn"),
        Sample::Plain(b"9780140449136"),
    ),
    (
        Sample::Blank(b"n4"),
        Sample::Iri(b"http://schema.org/datePublished"),
        Sample::Typed(b"2003-01-30", b"http://www.w3.org/2001/XMLSchema#date"),
    ),
];

/// The triples of the lines with all kinds of ends.
static END_ROWS: [Row; 4] = [
    (
        Sample::Iri(b"urn:a"),
        Sample::Iri(TYPE),
        Sample::Iri(b"urn:T"),
    ),
    (
        Sample::Iri(b"urn:b"),
        Sample::Iri(TYPE),
        Sample::Iri(b"urn:T"),
    ),
    (
        Sample::Iri(b"urn:a"),
        Sample::Iri(b"urn:p"),
        Sample::Plain(b"1"),
    ),
    (
        Sample::Iri(b"urn:b"),
        Sample::Iri(b"urn:p"),
        Sample::Plain(b"1"),
    ),
];

pub(crate) fn albums() -> &'static [u8] {
    ALBUMS
}

pub(crate) fn album_rows() -> &'static [Row] {
    &ALBUM_ROWS
}

pub(crate) fn spellings() -> &'static [u8] {
    SPELLINGS
}

pub(crate) fn spelling_rows() -> &'static [Row] {
    &SPELLING_ROWS
}

pub(crate) fn books() -> &'static [u8] {
    BOOKS
}

pub(crate) fn book_rows() -> &'static [Row] {
    &BOOK_ROWS
}

pub(crate) fn ends() -> &'static [u8] {
    LINE_ENDS
}

pub(crate) fn end_rows() -> &'static [Row] {
    &END_ROWS
}
