//! Lines made from the grammar, and what they say.

use super::Says;
use gk_base::LexFault;

/// Whole lines.
static LINES: [(&[u8], Says); 43] = [
    // nothing
    (b"", Says::Nothing),
    (b" \t", Says::Nothing),
    (b"# c", Says::Nothing),
    (b"#", Says::Nothing),
    (b" \t# <urn:a", Says::Nothing),
    (b"# \xc3\xa9\xe6\x9d\xb1", Says::Nothing),
    // white space, or none
    (b"<urn:a><urn:p>\"1\".", Says::Plain(b"1")),
    (b"_:a<urn:p>_:b.", Says::Blank(b"b")),
    (b"_:a <urn:p> _:b . # c", Says::Blank(b"b")),
    (b"\t<urn:a>\t<urn:p>\t\"1\"\t.\t#", Says::Plain(b"1")),
    (b"  <urn:a>  <urn:p>  <urn:c>  .  ", Says::Iri(b"urn:c")),
    (
        b"\x0b<urn:a> <urn:p> \"1\" .",
        Says::Fault(LexFault::SubjectExpected),
    ),
    (
        b"\xc2\xa0<urn:a> <urn:p> \"1\" .",
        Says::Fault(LexFault::SubjectExpected),
    ),
    (
        b"<urn:a>\xc2\xa0<urn:p> \"1\" .",
        Says::Fault(LexFault::PredicateExpected),
    ),
    // subjects and predicates
    (
        b"\"x\" <urn:p> \"1\" .",
        Says::Fault(LexFault::SubjectExpected),
    ),
    (b"x", Says::Fault(LexFault::SubjectExpected)),
    (b".", Says::Fault(LexFault::SubjectExpected)),
    (
        b"\xef\xbb\xbf<urn:a> <urn:p> \"1\" .",
        Says::Fault(LexFault::SubjectExpected),
    ),
    (
        b"<urn:a> _:b \"1\" .",
        Says::Fault(LexFault::PredicateExpected),
    ),
    (
        b"<urn:a> \"p\" \"x\" .",
        Says::Fault(LexFault::PredicateExpected),
    ),
    (b"<urn:a>", Says::Fault(LexFault::PredicateExpected)),
    (b"<urn:a> .", Says::Fault(LexFault::PredicateExpected)),
    (b"<urn:a># c", Says::Fault(LexFault::PredicateExpected)),
    (b"<urn:a> # c", Says::Fault(LexFault::PredicateExpected)),
    (b"_:a# c", Says::Fault(LexFault::PredicateExpected)),
    (b"_:a", Says::Fault(LexFault::PredicateExpected)),
    (
        b"<urn:a> a <urn:b> .",
        Says::Fault(LexFault::PredicateExpected),
    ),
    (b"<urn:a> <urn:p># c", Says::Fault(LexFault::ObjectExpected)),
    // the leftmost fault decides
    (b"<a> \"p\" x", Says::Fault(LexFault::RelativeIri)),
    (b"<urn:a b> <p> x", Says::Fault(LexFault::BadIri)),
    (b"<urn:\\n> <p> x", Says::Fault(LexFault::BadEscape)),
    (b"_a <p> x", Says::Fault(LexFault::BadBlankNodeLabel)),
    (b"<urn:a> <p> \"x", Says::Fault(LexFault::RelativeIri)),
    (
        b"<urn:a> <urn:p> \"\\q\" \"x",
        Says::Fault(LexFault::BadEscape),
    ),
    // bytes that are not UTF-8, before all other faults
    (b"\xff", Says::Fault(LexFault::NotUtf8)),
    (b"\x1f\x8b", Says::Fault(LexFault::NotUtf8)),
    (b"<a> \xff", Says::Fault(LexFault::NotUtf8)),
    (b"# \xc3", Says::Fault(LexFault::NotUtf8)),
    (b"x \xc0\x80", Says::Fault(LexFault::NotUtf8)),
    (b"\"\xed\xa0\x80\"", Says::Fault(LexFault::NotUtf8)),
    (b"\"\xf4\x90\x80\x80\"", Says::Fault(LexFault::NotUtf8)),
    (
        b"<urn:a> <urn:p> \"\xe2\x82\" .",
        Says::Fault(LexFault::NotUtf8),
    ),
    (
        b"<urn:a> <urn:p> \"1\" . # \x80",
        Says::Fault(LexFault::NotUtf8),
    ),
];

/// What comes after a subject and a predicate: other objects, and ends.
static ENDS: [(&[u8], Says); 21] = [
    // what follows the object, or stands in its place
    (b"\"1\".", Says::Plain(b"1")),
    (b"\"1\".#", Says::Plain(b"1")),
    (b"\"1\" . # c", Says::Plain(b"1")),
    (b"\"1\"\t.\t \t", Says::Plain(b"1")),
    (b"<urn:b>.# \\ \" <", Says::Iri(b"urn:b")),
    (b"\"1\"", Says::Fault(LexFault::DotExpected)),
    (b"\"1\" # c", Says::Fault(LexFault::DotExpected)),
    (b"\"1\" x .", Says::Fault(LexFault::DotExpected)),
    (b"\"1\" , \"2\" .", Says::Fault(LexFault::DotExpected)),
    (b"\"1\" \"2\" .", Says::Fault(LexFault::DotExpected)),
    (b"\"1\" . x", Says::Fault(LexFault::TextAfterTheDot)),
    (b"\"1\" . .", Says::Fault(LexFault::TextAfterTheDot)),
    (b"\"1\" . <urn:b>", Says::Fault(LexFault::TextAfterTheDot)),
    (
        b"\"1\" .\xc2\xa0# c",
        Says::Fault(LexFault::TextAfterTheDot),
    ),
    (b".", Says::Fault(LexFault::ObjectExpected)),
    (b"", Says::Fault(LexFault::ObjectExpected)),
    (b"# c", Says::Fault(LexFault::ObjectExpected)),
    (b"x .", Says::Fault(LexFault::ObjectExpected)),
    (b"?x .", Says::Fault(LexFault::ObjectExpected)),
    (b"\\u003Curn:b> .", Says::Fault(LexFault::ObjectExpected)),
    (b"@en .", Says::Fault(LexFault::ObjectExpected)),
];

pub(crate) fn lines() -> &'static [(&'static [u8], Says)] {
    &LINES
}

pub(crate) fn ends() -> &'static [(&'static [u8], Says)] {
    &ENDS
}
