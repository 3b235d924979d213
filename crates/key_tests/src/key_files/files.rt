//! Whole key files, each with its answer by hand.

use super::{ONE_CONSTANT, Says};
use fixtures::texts::{ALBUM_AND_ARTIST_KEYS, BASE_AND_LINK_KEYS};
use key_lang::KeyFault;

/// Key files, and what they say.
static FILES: [(&[u8], Says); 103] = [
    (b"", Says::Keys(b"")),
    (b"# none", Says::Keys(b"")),
    (b"\n \t\n# c\n", Says::Keys(b"")),
    (b"end", Says::Refused(1, KeyFault::StatementOutOfPlace)),
    (b"foo", Says::Refused(1, KeyFault::UnknownStatement)),
    (b"key A <urn:T>", Says::Refused(1, KeyFault::BadName)),
    (b"key k <T>", Says::Refused(1, KeyFault::RelativeIri)),
    (
        b"key k <urn:T> more",
        Says::Refused(1, KeyFault::UnknownStatement),
    ),
    (
        b"key k <urn:T>",
        Says::Refused(1, KeyFault::FileEndsInsideAKey),
    ),
    (
        b"key k <urn:T>\nend",
        Says::Refused(2, KeyFault::KeyWithoutTriples),
    ),
    (
        b"key k <urn:T>\nentity ?x <urn:T>",
        Says::Refused(2, KeyFault::VariableDeclaredTwice),
    ),
    (
        b"key k <urn:T>\n?x <urn:p> $v",
        Says::Refused(2, KeyFault::VariableNotDeclared),
    ),
    (
        b"key k <urn:T>\nvalue $v\n$v <urn:p> ?x",
        Says::Refused(3, KeyFault::SubjectMustBeAnEntityVariableOrWildcard),
    ),
    (
        b"key k <urn:T>\n?x <urn:p> \"1\"\nend\nkey k <urn:T>",
        Says::Refused(4, KeyFault::NameUsedTwice),
    ),
    (
        b"key k <urn:T>\n?x <urn:p> _:b",
        Says::Refused(2, KeyFault::BadName),
    ),
    (
        b"key k <urn:T>\nvalue $v\nfolded $v",
        Says::Refused(3, KeyFault::VariableDeclaredTwice),
    ),
    (
        b"key k <urn:T>\nfolded $v\nvalue $v",
        Says::Refused(3, KeyFault::VariableDeclaredTwice),
    ),
    (
        b"key k <urn:T>\nvalue $v\nany _w <urn:M>\nany _z <urn:M>\n?x <urn:p> $v\n_w <urn:q> _z\nend",
        Says::Refused(7, KeyFault::NotConnected),
    ),
    (
        b"key k <urn:T>\nvalue $v\nany _w <urn:M>\nany _z <urn:M>\n?x <urn:p> $v\nend",
        Says::Refused(6, KeyFault::VariableNotUsed),
    ),
    (b"foo \xff", Says::Refused(1, KeyFault::NotUtf8)),
    (b"# \xff", Says::Refused(1, KeyFault::NotUtf8)),
    (
        b"key k <urn:T>\n?x <urn:p> \"\xc3\"",
        Says::Refused(2, KeyFault::NotUtf8),
    ),
    (
        b"key k <urn:T>\nfoo",
        Says::Refused(2, KeyFault::UnknownStatement),
    ),
    (
        b"keys k <urn:T>",
        Says::Refused(1, KeyFault::UnknownStatement),
    ),
    (b"end#", Says::Refused(1, KeyFault::UnknownStatement)),
    (b"end more", Says::Refused(1, KeyFault::StatementOutOfPlace)),
    (b"entity y", Says::Refused(1, KeyFault::StatementOutOfPlace)),
    (b"any", Says::Refused(1, KeyFault::StatementOutOfPlace)),
    (b"value", Says::Refused(1, KeyFault::StatementOutOfPlace)),
    (b"folded", Says::Refused(1, KeyFault::StatementOutOfPlace)),
    (
        b"key k <urn:T>\nkey A <T>",
        Says::Refused(2, KeyFault::StatementOutOfPlace),
    ),
    (
        b"$v <urn:p> ?x",
        Says::Refused(1, KeyFault::StatementOutOfPlace),
    ),
    (b"<urn:a>", Says::Refused(1, KeyFault::StatementOutOfPlace)),
    (b"key", Says::Refused(1, KeyFault::BadName)),
    (b"key # c", Says::Refused(1, KeyFault::BadName)),
    (b"key k", Says::Refused(1, KeyFault::BadIri)),
    (b"key k # c", Says::Refused(1, KeyFault::BadIri)),
    (b"key k urn:T", Says::Refused(1, KeyFault::BadIri)),
    (b"key k <urn:T", Says::Refused(1, KeyFault::BadIri)),
    (b"key k <urn:\\x>", Says::Refused(1, KeyFault::BadEscape)),
    (b"key k# <urn:T>", Says::Refused(1, KeyFault::BadName)),
    (b"key k<urn:T>", Says::Refused(1, KeyFault::BadName)),
    (b"key A <T>", Says::Refused(1, KeyFault::BadName)),
    (
        b"key k <urn:T>\nentity y <urn:T>",
        Says::Refused(2, KeyFault::BadName),
    ),
    (
        b"key k <urn:T>\nentity $y <urn:T>",
        Says::Refused(2, KeyFault::BadName),
    ),
    (
        b"key k <urn:T>\nentity _y <urn:T>",
        Says::Refused(2, KeyFault::BadName),
    ),
    (
        b"key k <urn:T>\nentity ?Y <T>",
        Says::Refused(2, KeyFault::BadName),
    ),
    (
        b"key k <urn:T>\nentity ?y <T>",
        Says::Refused(2, KeyFault::RelativeIri),
    ),
    (
        b"key k <urn:T>\nentity ? <urn:T>",
        Says::Refused(2, KeyFault::BadName),
    ),
    (
        b"key k <urn:T>\nany ?w <urn:M>",
        Says::Refused(2, KeyFault::BadName),
    ),
    (b"key k <urn:T>\nany _w", Says::Refused(2, KeyFault::BadIri)),
    (
        b"key k <urn:T>\nvalue ?n",
        Says::Refused(2, KeyFault::BadName),
    ),
    (
        b"key k <urn:T>\nfolded _n",
        Says::Refused(2, KeyFault::BadName),
    ),
    (b"key k <urn:T>\nvalue", Says::Refused(2, KeyFault::BadName)),
    (
        b"key k <urn:T>\n?Z <T> $v",
        Says::Refused(2, KeyFault::BadName),
    ),
    (
        b"key k <urn:T>\n?z <T> $v",
        Says::Refused(2, KeyFault::VariableNotDeclared),
    ),
    (
        b"key k <urn:T>\n$Z <T>",
        Says::Refused(2, KeyFault::SubjectMustBeAnEntityVariableOrWildcard),
    ),
    (
        b"key k <urn:T>\n<T>",
        Says::Refused(2, KeyFault::SubjectMustBeAnEntityVariableOrWildcard),
    ),
    (
        b"key k <urn:T>\n\"a",
        Says::Refused(2, KeyFault::SubjectMustBeAnEntityVariableOrWildcard),
    ),
    (
        b"key k <urn:T>\n_x <urn:p> \"1\"",
        Says::Refused(2, KeyFault::VariableNotDeclared),
    ),
    (
        b"key k <urn:T>\n?x p $v",
        Says::Refused(2, KeyFault::BadIri),
    ),
    (
        b"key k <urn:T>\n?x <T> $v",
        Says::Refused(2, KeyFault::RelativeIri),
    ),
    (b"key k <urn:T>\n?x", Says::Refused(2, KeyFault::BadIri)),
    (
        b"key k <urn:T>\n?x <urn:p>",
        Says::Refused(2, KeyFault::UnknownStatement),
    ),
    (
        b"key k <urn:T>\n?x <urn:p> # c",
        Says::Refused(2, KeyFault::UnknownStatement),
    ),
    (
        b"key k <urn:T>\n?x <urn:p> foo",
        Says::Refused(2, KeyFault::UnknownStatement),
    ),
    (
        b"key k <urn:T>\n?x <urn:p> $V",
        Says::Refused(2, KeyFault::BadName),
    ),
    (
        b"key k <urn:T>\n?x <urn:p> \"a",
        Says::Refused(2, KeyFault::StringNotClosed),
    ),
    (
        b"key k <urn:T>\n?x <urn:p> \"\\z\"",
        Says::Refused(2, KeyFault::BadEscape),
    ),
    (
        b"key k <urn:T>\n?x <urn:p> \"a\"@1",
        Says::Refused(2, KeyFault::BadLanguageTag),
    ),
    (
        b"key k <urn:T>\n?x <urn:p> \"a\"^^<T>",
        Says::Refused(2, KeyFault::RelativeIri),
    ),
    (
        b"key k <urn:T>\n?x <urn:p> \"a\"^^x",
        Says::Refused(2, KeyFault::BadIri),
    ),
    (
        b"key k <urn:T>\n?x <urn:p> <T>",
        Says::Refused(2, KeyFault::RelativeIri),
    ),
    (
        b"key k <urn:T>\n?x <urn:p> $v more",
        Says::Refused(2, KeyFault::VariableNotDeclared),
    ),
    (
        b"key k <urn:T>\n?x <urn:p> \"1\" .",
        Says::Refused(2, KeyFault::UnknownStatement),
    ),
    (
        b"key k <urn:T> <urn:U>",
        Says::Refused(1, KeyFault::UnknownStatement),
    ),
    (
        b"key k <urn:T>\n?x <urn:p> \"1\"\nend\nkey k <urn:T> x",
        Says::Refused(4, KeyFault::UnknownStatement),
    ),
    (
        b"key k <urn:T>\nentity ?x <urn:T> x",
        Says::Refused(2, KeyFault::UnknownStatement),
    ),
    (
        b"key k <urn:T>\nvalue $n <urn:T>",
        Says::Refused(2, KeyFault::UnknownStatement),
    ),
    (
        b"key k <urn:T>\nend x",
        Says::Refused(2, KeyFault::UnknownStatement),
    ),
    (
        b"key k <urn:T>\nany _w <urn:M>\n_w <urn:q> \"1\"\nend",
        Says::Refused(4, KeyFault::VariableNotUsed),
    ),
    (
        b"key k <urn:T>\nany _w <urn:M>\nany _z <urn:M>\nvalue $v\n_w <urn:q> _z\nend",
        Says::Refused(6, KeyFault::VariableNotUsed),
    ),
    (
        b"key k <urn:T>\nany _w <urn:M>\nany _z <urn:M>\n_w <urn:q> <urn:c>\n_z <urn:q> <urn:c>\n?x <urn:p> <urn:d>\nend",
        Says::Refused(7, KeyFault::NotConnected),
    ),
    (
        b"key k <urn:T>\nany _w <urn:M>\n_w <urn:q> <urn:c>\n?x <urn:p> <urn:c>\nend\n",
        Says::Keys(b"key k <urn:T>\nany _w <urn:M>\n_w <urn:q> <urn:c>\n?x <urn:p> <urn:c>\nend\n"),
    ),
    (
        b"key k <urn:T># c",
        Says::Refused(1, KeyFault::FileEndsInsideAKey),
    ),
    (
        b"key k <urn:T>\n\n# c\n",
        Says::Refused(3, KeyFault::FileEndsInsideAKey),
    ),
    (
        b"key k <urn:T>\n?x <urn:p> \"1\"",
        Says::Refused(2, KeyFault::FileEndsInsideAKey),
    ),
    (
        b"key k <urn:T>\n?x <urn:p> \"1\"\nend",
        Says::Keys(ONE_CONSTANT),
    ),
    (
        b"\tkey\tk\t<urn:T>\t# c\n ?x\t<urn:p>\"1\"# c\n\tend\t#\n",
        Says::Keys(ONE_CONSTANT),
    ),
    (
        b"key k <urn:T>\r\n?x <urn:p> \"1\"\rend\r\n",
        Says::Keys(ONE_CONSTANT),
    ),
    (b"\r\r\nfoo", Says::Refused(3, KeyFault::UnknownStatement)),
    (
        b"key k <urn:T>\nentity ?y <urn:T># c\nany _y <urn:T> #\nvalue $y # c\n?x <urn:p>?y # c\n?y <urn:p> _y #\n_y <urn:p>$y\nend # c",
        Says::Keys(
            b"key k <urn:T>\nentity ?y <urn:T>\nany _y <urn:T>\nvalue $y\n?x <urn:p> ?y\n?y <urn:p> _y\n_y <urn:p> $y\nend\n",
        ),
    ),
    (
        b"key k <urn:\\u0054>\n?x <urn:p> \"\\u0031\"\nend\n",
        Says::Keys(ONE_CONSTANT),
    ),
    (
        b"key k <urn:T>\n?x <urn:p> \"1\"^^<http://www.w3.org/2001/XMLSchema#string>\nend\n",
        Says::Keys(ONE_CONSTANT),
    ),
    (
        b"key k <urn:T>\n?x <urn:p> \"a\"@EN\n?x <urn:p> \"1\"^^<urn:d>\nend\n",
        Says::Keys(b"key k <urn:T>\n?x <urn:p> \"a\"@en\n?x <urn:p> \"1\"^^<urn:d>\nend\n"),
    ),
    (
        b"key k <urn:T>\n?x <urn:p> <urn:c>\nfolded $v\n?x <urn:q> $v\n?x <urn:p> <urn:c>\nend\n",
        Says::Keys(b"key k <urn:T>\nfolded $v\n?x <urn:p> <urn:c>\n?x <urn:q> $v\nend\n"),
    ),
    (
        b"key a0123456789_0123456789_0123456789 <T>",
        Says::Refused(1, KeyFault::BadName),
    ),
    (
        b"key a0123456789_0123456789_012345678 <T>",
        Says::Refused(1, KeyFault::RelativeIri),
    ),
    (
        b"key k <urn:T>\n?x <urn:p> ?x\nend\nkey k2 <urn:T>\n?x <urn:p> ?x\nend\n",
        Says::Keys(b"key k <urn:T>\n?x <urn:p> ?x\nend\nkey k2 <urn:T>\n?x <urn:p> ?x\nend\n"),
    ),
    (ALBUM_AND_ARTIST_KEYS, Says::Keys(ALBUM_AND_ARTIST_KEYS)),
    (BASE_AND_LINK_KEYS, Says::Keys(BASE_AND_LINK_KEYS)),
    (
        b"key k <urn:T>\n?x <urn:p> <urn:c\n",
        Says::Refused(2, KeyFault::BadIri),
    ),
    (
        b"key k <urn:T>\nany _a <urn:M>\n?x <urn:p> \"1\"@en-GB\n_a <urn:q> \"1\"@en-gb\nend\n",
        Says::Keys(
            b"key k <urn:T>\nany _a <urn:M>\n?x <urn:p> \"1\"@en-gb\n_a <urn:q> \"1\"@en-gb\nend\n",
        ),
    ),
];

/// The key files, with what they say. A function hands them out, so that no proof looks into the table.
pub(super) fn all() -> &'static [(&'static [u8], Says)] {
    &FILES
}
