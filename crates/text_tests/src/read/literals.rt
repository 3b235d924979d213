//! Literals made from the grammar, and what they say as objects.

use super::Says;
use gk_base::LexFault;

/// Strings and their escapes.
static STRINGS: [(&[u8], Says); 54] = [
    // ECHAR
    (b"\"\\t\" .", Says::Plain(b"\t")),
    (b"\"\\b\" .", Says::Plain(b"\x08")),
    (b"\"\\n\" .", Says::Plain(b"\n")),
    (b"\"\\r\" .", Says::Plain(b"\r")),
    (b"\"\\f\" .", Says::Plain(b"\x0c")),
    (b"\"\\\"\" .", Says::Plain(b"\"")),
    (b"\"\\'\" .", Says::Plain(b"'")),
    (b"\"\\\\\" .", Says::Plain(b"\\")),
    (b"\"\\a\" .", Says::Fault(LexFault::BadEscape)),
    (b"\"\\v\" .", Says::Fault(LexFault::BadEscape)),
    (b"\"\\0\" .", Says::Fault(LexFault::BadEscape)),
    (b"\"\\N\" .", Says::Fault(LexFault::BadEscape)),
    (b"\"\\q\" .", Says::Fault(LexFault::BadEscape)),
    (b"\"\\ \" .", Says::Fault(LexFault::BadEscape)),
    (b"\"\\x41\" .", Says::Fault(LexFault::BadEscape)),
    (b"\"a\\", Says::Fault(LexFault::BadEscape)),
    (b"\"\\\"", Says::Fault(LexFault::StringNotClosed)),
    (b"\"\\\\\\\" .", Says::Fault(LexFault::StringNotClosed)),
    // UCHAR of four digits
    (b"\"\\u0000\" .", Says::Plain(b"\x00")),
    (b"\"\\u00e9\" .", Says::Plain(b"\xc3\xa9")),
    (b"\"\\u00E9\" .", Says::Plain(b"\xc3\xa9")),
    (b"\"\\uD7FF\" .", Says::Plain(b"\xed\x9f\xbf")),
    (b"\"\\uD800\" .", Says::Fault(LexFault::BadEscape)),
    (b"\"\\uDFFF\" .", Says::Fault(LexFault::BadEscape)),
    (b"\"\\uE000\" .", Says::Plain(b"\xee\x80\x80")),
    (b"\"\\uFFFF\" .", Says::Plain(b"\xef\xbf\xbf")),
    (b"\"\\uD83D\\uDE00\" .", Says::Fault(LexFault::BadEscape)),
    (b"\"\\u00410\" .", Says::Plain(b"A0")),
    (b"\"\\u00E\" .", Says::Fault(LexFault::BadEscape)),
    (b"\"\\u00g0\" .", Says::Fault(LexFault::BadEscape)),
    (b"\"\\u", Says::Fault(LexFault::BadEscape)),
    (b"\"\\u004", Says::Fault(LexFault::BadEscape)),
    // UCHAR of eight digits
    (b"\"\\U00000000\" .", Says::Plain(b"\x00")),
    (b"\"\\U0000D7FF\" .", Says::Plain(b"\xed\x9f\xbf")),
    (b"\"\\U0000D800\" .", Says::Fault(LexFault::BadEscape)),
    (b"\"\\U0000DFFF\" .", Says::Fault(LexFault::BadEscape)),
    (b"\"\\U0000E000\" .", Says::Plain(b"\xee\x80\x80")),
    (b"\"\\U00010000\" .", Says::Plain(b"\xf0\x90\x80\x80")),
    (b"\"\\U0001F600\" .", Says::Plain(b"\xf0\x9f\x98\x80")),
    (b"\"\\U0001f600\" .", Says::Plain(b"\xf0\x9f\x98\x80")),
    (b"\"\\U0010FFFF\" .", Says::Plain(b"\xf4\x8f\xbf\xbf")),
    (b"\"\\U00110000\" .", Says::Fault(LexFault::BadEscape)),
    (b"\"\\UFFFFFFFF\" .", Says::Fault(LexFault::BadEscape)),
    (b"\"\\U001F600\" .", Says::Fault(LexFault::BadEscape)),
    (b"\"\\U0001F60", Says::Fault(LexFault::BadEscape)),
    // raw characters of a string
    (b"\"\" .", Says::Plain(b"")),
    (b"\"\x00\x01\x1f\x7f\" .", Says::Plain(b"\x00\x01\x1f\x7f")),
    (
        b"\"\x0b\x0c\xc2\x85\xe2\x80\xa8\" .",
        Says::Plain(b"\x0b\x0c\xc2\x85\xe2\x80\xa8"),
    ),
    (
        b"\"a\tb\xc3\xa9\xe6\x9d\xb1\xf0\x9f\x98\x80\" .",
        Says::Plain(b"a\tb\xc3\xa9\xe6\x9d\xb1\xf0\x9f\x98\x80"),
    ),
    (b"\"'<>{}|^`#@\" .", Says::Plain(b"'<>{}|^`#@")),
    (b"\"a", Says::Fault(LexFault::StringNotClosed)),
    (b"\"", Says::Fault(LexFault::StringNotClosed)),
    (b"\"\\t", Says::Fault(LexFault::StringNotClosed)),
    (b"'x' .", Says::Fault(LexFault::ObjectExpected)),
];

/// Tags and datatypes.
static SUFFIXES: [(&[u8], Says); 40] = [
    // tags
    (b"\"x\"@EN-us .", Says::Lang(b"x", b"en-us")),
    (b"\"x\"@a-1-b2 .", Says::Lang(b"x", b"a-1-b2")),
    (b"\"x\"@en-US-x-twain.", Says::Lang(b"x", b"en-us-x-twain")),
    (b"\"x\" @en .", Says::Lang(b"x", b"en")),
    (b"\"x\"\t \t@en .", Says::Lang(b"x", b"en")),
    (b"\"x\"@en.", Says::Lang(b"x", b"en")),
    (b"\"\"@Z .", Says::Lang(b"", b"z")),
    (b"\"x\"@1 .", Says::Fault(LexFault::BadLanguageTag)),
    (b"\"x\"@a- .", Says::Fault(LexFault::BadLanguageTag)),
    (b"\"x\"@en--us .", Says::Fault(LexFault::BadLanguageTag)),
    (
        b"\"x\"@en-\xc3\xa9 .",
        Says::Fault(LexFault::BadLanguageTag),
    ),
    (b"\"x\"@ .", Says::Fault(LexFault::BadLanguageTag)),
    (b"\"x\"@ en .", Says::Fault(LexFault::BadLanguageTag)),
    (b"\"x\"@", Says::Fault(LexFault::BadLanguageTag)),
    (b"\"x\"@-en .", Says::Fault(LexFault::BadLanguageTag)),
    (b"\"x\"@\xc3\xa9 .", Says::Fault(LexFault::BadLanguageTag)),
    (b"\"x\"@en1 .", Says::Fault(LexFault::DotExpected)),
    (b"\"x\"@en_us .", Says::Fault(LexFault::DotExpected)),
    (b"\"x\"@en -us .", Says::Fault(LexFault::DotExpected)),
    (b"\"x\"@en@de .", Says::Fault(LexFault::DotExpected)),
    (b"\"x\"@en^^<urn:t> .", Says::Fault(LexFault::DotExpected)),
    // datatypes
    (b"\"x\"^^<urn:t>.", Says::Typed(b"x", b"urn:t")),
    (b"\"x\" ^^ <urn:t> .", Says::Typed(b"x", b"urn:t")),
    (b"\"x\"\t^^ \t<urn:t>\t.", Says::Typed(b"x", b"urn:t")),
    (b"\"x\"^^<urn:\\u0074> .", Says::Typed(b"x", b"urn:t")),
    (
        b"\"x\"^^<http://www.w3.org/2001/XMLSchema#string> .",
        Says::Plain(b"x"),
    ),
    (
        b"\"x\"^^<http://www.w3.org/2001/XMLSchema#str\\u0069ng> .",
        Says::Plain(b"x"),
    ),
    (
        b"\"x\"^^<http://www.w3.org/2001/XMLSchema#String> .",
        Says::Typed(b"x", b"http://www.w3.org/2001/XMLSchema#String"),
    ),
    (
        b"\"1\"^^<http://www.w3.org/2001/XMLSchema#integer> .",
        Says::Typed(b"1", b"http://www.w3.org/2001/XMLSchema#integer"),
    ),
    (b"\"x\"^<urn:t> .", Says::Fault(LexFault::DotExpected)),
    (b"\"x\"^ <urn:t> .", Says::Fault(LexFault::DotExpected)),
    (b"\"x\"^ ^<urn:t> .", Says::Fault(LexFault::DotExpected)),
    (b"\"x\"^^ \"y\" .", Says::Fault(LexFault::BadIri)),
    (b"\"x\"^^_:b .", Says::Fault(LexFault::BadIri)),
    (b"\"x\"^^ # c", Says::Fault(LexFault::BadIri)),
    (b"\"x\"^^", Says::Fault(LexFault::BadIri)),
    (b"\"x\"^^<urn:t", Says::Fault(LexFault::BadIri)),
    (b"\"x\"^^<t> .", Says::Fault(LexFault::RelativeIri)),
    (b"\"x\"^^<urn:\\n> .", Says::Fault(LexFault::BadEscape)),
    (b"\"x\"^^<urn:t>@en .", Says::Fault(LexFault::DotExpected)),
];

pub(crate) fn strings() -> &'static [(&'static [u8], Says)] {
    &STRINGS
}

pub(crate) fn suffixes() -> &'static [(&'static [u8], Says)] {
    &SUFFIXES
}
