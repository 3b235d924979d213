//! IRIs and labels made from the grammar, and what they say as objects.

use super::Says;
use gk_base::LexFault;

/// IRIs.
static IRIS: [(&[u8], Says); 36] = [
    // raw and escaped characters of an IRI
    (b"<urn:a b> .", Says::Fault(LexFault::BadIri)),
    (b"<urn:a\"b> .", Says::Fault(LexFault::BadIri)),
    (b"<urn:a<b> .", Says::Fault(LexFault::BadIri)),
    (b"<urn:{> .", Says::Fault(LexFault::BadIri)),
    (b"<urn:}> .", Says::Fault(LexFault::BadIri)),
    (b"<urn:|> .", Says::Fault(LexFault::BadIri)),
    (b"<urn:^> .", Says::Fault(LexFault::BadIri)),
    (b"<urn:`> .", Says::Fault(LexFault::BadIri)),
    (b"<urn:\x00> .", Says::Fault(LexFault::BadIri)),
    (b"<urn:\x1f> .", Says::Fault(LexFault::BadIri)),
    (b"<urn:\t> .", Says::Fault(LexFault::BadIri)),
    (b"<urn:b .", Says::Fault(LexFault::BadIri)),
    (b"<urn:b", Says::Fault(LexFault::BadIri)),
    (b"<", Says::Fault(LexFault::BadIri)),
    (
        b"<urn:!#$%&'()*+,-./:;=?@[]_~\x7f> .",
        Says::Iri(b"urn:!#$%&'()*+,-./:;=?@[]_~\x7f"),
    ),
    (
        b"<urn:\xc3\xa9\xe6\x9d\xb1\xf0\x9f\x98\x80> .",
        Says::Iri(b"urn:\xc3\xa9\xe6\x9d\xb1\xf0\x9f\x98\x80"),
    ),
    (b"<urn:\\u0020\\u003E> .", Says::Iri(b"urn: >")),
    (
        b"<urn:\\U0010FFFF\\u0000> .",
        Says::Iri(b"urn:\xf4\x8f\xbf\xbf\x00"),
    ),
    (b"<urn:\\t> .", Says::Fault(LexFault::BadEscape)),
    (b"<urn:\\\\> .", Says::Fault(LexFault::BadEscape)),
    (b"<urn:\\> .", Says::Fault(LexFault::BadEscape)),
    (b"<urn:\\uD800> .", Says::Fault(LexFault::BadEscape)),
    (b"<urn:\\U00110000> .", Says::Fault(LexFault::BadEscape)),
    (b"<urn:\\u00> .", Says::Fault(LexFault::BadEscape)),
    // absolute and relative IRIs
    (b"<a:> .", Says::Iri(b"a:")),
    (b"<Z9+-.:b> .", Says::Iri(b"Z9+-.:b")),
    (b"<\\u0061:b> .", Says::Iri(b"a:b")),
    (b"<> .", Says::Fault(LexFault::RelativeIri)),
    (b"<b> .", Says::Fault(LexFault::RelativeIri)),
    (b"<:b> .", Says::Fault(LexFault::RelativeIri)),
    (b"<1a:b> .", Says::Fault(LexFault::RelativeIri)),
    (b"<+a:b> .", Says::Fault(LexFault::RelativeIri)),
    (b"<a/b:c> .", Says::Fault(LexFault::RelativeIri)),
    (b"<\xc3\xa9:b> .", Says::Fault(LexFault::RelativeIri)),
    (b"<a_b:c> .", Says::Fault(LexFault::RelativeIri)),
    (b"<#a:b> .", Says::Fault(LexFault::RelativeIri)),
];

/// Labels of blank nodes.
static LABELS: [(&[u8], Says); 36] = [
    // labels
    (b"_:b .", Says::Blank(b"b")),
    (b"_:b.", Says::Blank(b"b")),
    (b"_:a.b.", Says::Blank(b"a.b")),
    (b"_:a...b.", Says::Blank(b"a...b")),
    (b"_:a..", Says::Fault(LexFault::TextAfterTheDot)),
    (b"_:a.b..", Says::Fault(LexFault::TextAfterTheDot)),
    (b"_:a.b", Says::Fault(LexFault::DotExpected)),
    (b"_:a", Says::Fault(LexFault::DotExpected)),
    (b"_:a-.", Says::Blank(b"a-")),
    (b"_:1-x .", Says::Blank(b"1-x")),
    (b"_:9 .", Says::Blank(b"9")),
    (b"_:_ .", Says::Blank(b"_")),
    (b"_:: .", Says::Blank(b":")),
    (b"_:a: .", Says::Blank(b"a:")),
    (b"_:a.# c", Says::Blank(b"a")),
    (b"_:a# c", Says::Fault(LexFault::DotExpected)),
    (b"_:-a .", Says::Fault(LexFault::BadBlankNodeLabel)),
    (b"_:.a .", Says::Fault(LexFault::BadBlankNodeLabel)),
    (b"_: a .", Says::Fault(LexFault::BadBlankNodeLabel)),
    (b"_: .", Says::Fault(LexFault::BadBlankNodeLabel)),
    (b"_:", Says::Fault(LexFault::BadBlankNodeLabel)),
    (b"_", Says::Fault(LexFault::BadBlankNodeLabel)),
    (b"_a .", Says::Fault(LexFault::BadBlankNodeLabel)),
    (b"_ :a .", Says::Fault(LexFault::BadBlankNodeLabel)),
    (b"_:# c", Says::Fault(LexFault::BadBlankNodeLabel)),
    (b"_:<urn:b> .", Says::Fault(LexFault::BadBlankNodeLabel)),
    (
        b"_:a\xc2\xb7\xcc\x80\xcd\xaf\xe2\x80\xbf\xe2\x81\x80 .",
        Says::Blank(b"a\xc2\xb7\xcc\x80\xcd\xaf\xe2\x80\xbf\xe2\x81\x80"),
    ),
    (b"_:\xc2\xb7 .", Says::Fault(LexFault::BadBlankNodeLabel)),
    (b"_:\xcc\x80 .", Says::Fault(LexFault::BadBlankNodeLabel)),
    (
        b"_:\xe2\x80\xbf .",
        Says::Fault(LexFault::BadBlankNodeLabel),
    ),
    (b"_:a\xc2\xb6 .", Says::Fault(LexFault::DotExpected)),
    (b"_:a\xc2\xb8 .", Says::Fault(LexFault::DotExpected)),
    (b"_:a\xe2\x80\xbe .", Says::Fault(LexFault::DotExpected)),
    (b"_:a\xe2\x81\x81 .", Says::Fault(LexFault::DotExpected)),
    (
        b"_:a.\xe2\x81\x81 .",
        Says::Fault(LexFault::TextAfterTheDot),
    ),
    (
        b"_:\xc3\xa9\xe6\x9d\xb1 .",
        Says::Blank(b"\xc3\xa9\xe6\x9d\xb1"),
    ),
];

pub(crate) fn iris() -> &'static [(&'static [u8], Says)] {
    &IRIS
}

pub(crate) fn labels() -> &'static [(&'static [u8], Says)] {
    &LABELS
}
