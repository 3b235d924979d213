//! Proof files that are refused, each at a line and for a fault that were found by hand.

use super::{ONE_STEP, ONE_STEP_1};
use fixtures::texts::{ALBUM_AND_ARTIST_PROOF, ALBUM_AND_ARTIST_PROOF_1};
use gk_base::LexFault;
use proof_file::ProofFault;

/// What comes after good lines, the line that is refused, and why.
pub(crate) type Refused = (&'static [u8], u64, ProofFault);

/// Files that have no good first line, or nothing after it.
static HEADER: [Refused; 19] = [
    (b"", 1, ProofFault::BadHeader),
    (b"\n", 1, ProofFault::BadHeader),
    (b"\ngkey-proof 1\nend 0\n", 1, ProofFault::BadHeader),
    (b"gkey-proof 3\n", 1, ProofFault::BadHeader),
    (b"gkey-proof 01\n", 1, ProofFault::BadHeader),
    (b"gkey-proof\n", 1, ProofFault::BadHeader),
    (b"gkey-proof 1 1\n", 1, ProofFault::BadHeader),
    (b"gkey-proof1\n", 1, ProofFault::BadHeader),
    (b"Gkey-proof 1\n", 1, ProofFault::BadHeader),
    (b"step k\n", 1, ProofFault::BadHeader),
    (b"# gkey-proof 1\n", 1, ProofFault::BadHeader),
    (b"\xEF\xBB\xBFgkey-proof 1\n", 1, ProofFault::BadHeader),
    (b"\xFFgkey-proof 1\n", 1, ProofFault::Lex(LexFault::NotUtf8)),
    (
        b"gkey-proof 3 \xC3\n",
        1,
        ProofFault::Lex(LexFault::NotUtf8),
    ),
    (b"gkey-proof 1", 1, ProofFault::FileEndsInsideAProof),
    (b"gkey-proof 2\r\n", 1, ProofFault::FileEndsInsideAProof),
    (b"gkey-proof 1\r", 1, ProofFault::FileEndsInsideAProof),
    (b"gkey-proof 1\n\r", 2, ProofFault::BadLine),
    (b"gkey-proof 1\r\n\r\n", 2, ProofFault::BadLine),
];

/// Lines where a step may begin, in version 1.
static STEP: [Refused; 31] = [
    (b"\n", 2, ProofFault::BadLine),
    (b" \t\n", 2, ProofFault::BadLine),
    (b"step\n", 2, ProofFault::BadLine),
    (b"step k k\n", 2, ProofFault::BadLine),
    (b"step K\n", 2, ProofFault::BadLine),
    (b"step a-b\n", 2, ProofFault::BadLine),
    (
        b"step a0123456789_0123456789_0123456789\n",
        2,
        ProofFault::BadLine,
    ),
    (b"Step k\n", 2, ProofFault::BadLine),
    (b"stepk\n", 2, ProofFault::BadLine),
    (b"left <urn:a>\n", 2, ProofFault::BadLine),
    (b"by 1\n", 2, ProofFault::BadLine),
    (b"done\n", 2, ProofFault::BadLine),
    (b"terms 0\n", 2, ProofFault::BadLine),
    (b"gkey-proof 1\n", 2, ProofFault::BadLine),
    (b"# c\n", 2, ProofFault::BadLine),
    (b"end\n", 2, ProofFault::BadLine),
    (b"end 00\n", 2, ProofFault::BadLine),
    (b"end 01\n", 2, ProofFault::BadLine),
    (b"end +0\n", 2, ProofFault::BadLine),
    (b"end -0\n", 2, ProofFault::BadLine),
    (b"end 0x0\n", 2, ProofFault::BadLine),
    (b"end 0 0\n", 2, ProofFault::BadLine),
    (b"end 0 # c\n", 2, ProofFault::BadLine),
    (b"end 4294967296\n", 2, ProofFault::BadLine),
    (b"end 18446744073709551616\n", 2, ProofFault::BadLine),
    (b"end 4294967295\n", 2, ProofFault::CountDiffers),
    (b"end 1\n", 2, ProofFault::CountDiffers),
    (b"end 1", 2, ProofFault::CountDiffers),
    (b"end 1 \xFF\n", 2, ProofFault::Lex(LexFault::NotUtf8)),
    (b"step k", 2, ProofFault::FileEndsInsideAProof),
    (b"step k\r\n", 2, ProofFault::FileEndsInsideAProof),
];

/// Lines where the left side of a step comes, in version 1.
static LEFT: [Refused; 37] = [
    (b"\n", 3, ProofFault::BadLine),
    (b"left\n", 3, ProofFault::BadLine),
    (b"left \t\n", 3, ProofFault::BadLine),
    (b"right <urn:a>\n", 3, ProofFault::BadLine),
    (b"step k\n", 3, ProofFault::BadLine),
    (b"done\n", 3, ProofFault::BadLine),
    (b"left<urn:a>\n", 3, ProofFault::BadLine),
    (b"left 1\n", 3, ProofFault::BadLine),
    (b"left <urn:a> x\n", 3, ProofFault::BadLine),
    (b"left <urn:a> # c\n", 3, ProofFault::BadLine),
    (b"left <urn:a>.\n", 3, ProofFault::BadLine),
    (b"left _:a.\n", 3, ProofFault::BadLine),
    (b"left \"x\"^ <urn:d>\n", 3, ProofFault::BadLine),
    (b"left <a>\n", 3, ProofFault::Lex(LexFault::RelativeIri)),
    (b"left <>\n", 3, ProofFault::Lex(LexFault::RelativeIri)),
    (b"left <urn:a b>\n", 3, ProofFault::Lex(LexFault::BadIri)),
    (b"left <urn:a\n", 3, ProofFault::Lex(LexFault::BadIri)),
    (b"left \"x\"^^y\n", 3, ProofFault::Lex(LexFault::BadIri)),
    (
        b"left \"x\"^^<d>\n",
        3,
        ProofFault::Lex(LexFault::RelativeIri),
    ),
    (
        b"left <urn:\\u00e>\n",
        3,
        ProofFault::Lex(LexFault::BadEscape),
    ),
    (b"left <urn:\\n>\n", 3, ProofFault::Lex(LexFault::BadEscape)),
    (
        b"left \"\\uD800\"\n",
        3,
        ProofFault::Lex(LexFault::BadEscape),
    ),
    (b"left \"\\x\"\n", 3, ProofFault::Lex(LexFault::BadEscape)),
    (b"left \"x\\\n", 3, ProofFault::Lex(LexFault::BadEscape)),
    (b"left \"x\n", 3, ProofFault::Lex(LexFault::StringNotClosed)),
    (b"left \"x", 3, ProofFault::Lex(LexFault::StringNotClosed)),
    (
        b"left _:\n",
        3,
        ProofFault::Lex(LexFault::BadBlankNodeLabel),
    ),
    (
        b"left _x\n",
        3,
        ProofFault::Lex(LexFault::BadBlankNodeLabel),
    ),
    (
        b"left _:-a\n",
        3,
        ProofFault::Lex(LexFault::BadBlankNodeLabel),
    ),
    (
        b"left \"x\"@\n",
        3,
        ProofFault::Lex(LexFault::BadLanguageTag),
    ),
    (
        b"left \"x\"@en-\n",
        3,
        ProofFault::Lex(LexFault::BadLanguageTag),
    ),
    (
        b"left \"x\"@1\n",
        3,
        ProofFault::Lex(LexFault::BadLanguageTag),
    ),
    (
        b"left <urn:a> <b> x\n",
        3,
        ProofFault::Lex(LexFault::RelativeIri),
    ),
    (b"left x <b>\n", 3, ProofFault::BadLine),
    (b"right <b>\n", 3, ProofFault::BadLine),
    (b"left <\xFF>\n", 3, ProofFault::Lex(LexFault::NotUtf8)),
    (b"left <urn:a>", 3, ProofFault::FileEndsInsideAProof),
];

/// Lines where the right side of a step comes, in version 1.
static RIGHT: [Refused; 11] = [
    (b"\n", 4, ProofFault::BadLine),
    (b"left <urn:a>\n", 4, ProofFault::BadLine),
    (b"right\n", 4, ProofFault::BadLine),
    (b"done\n", 4, ProofFault::BadLine),
    (b"by 1\n", 4, ProofFault::BadLine),
    (b"right 1\n", 4, ProofFault::BadLine),
    (b"right <b>\n", 4, ProofFault::Lex(LexFault::RelativeIri)),
    (
        b"right <urn:b> \"1\n",
        4,
        ProofFault::Lex(LexFault::StringNotClosed),
    ),
    (
        b"right _:.\n",
        4,
        ProofFault::Lex(LexFault::BadBlankNodeLabel),
    ),
    (b"right \xC3\n", 4, ProofFault::Lex(LexFault::NotUtf8)),
    (b"right <urn:b>", 4, ProofFault::FileEndsInsideAProof),
];

/// Lines where a support or the end of a step comes.
static SUPPORT: [Refused; 24] = [
    (b"\n", 5, ProofFault::BadLine),
    (b"by\n", 5, ProofFault::BadLine),
    (b"by x\n", 5, ProofFault::BadLine),
    (b"by 16\n", 5, ProofFault::BadLine),
    (b"by 01\n", 5, ProofFault::BadLine),
    (b"by -1\n", 5, ProofFault::BadLine),
    (b"by 4294967297\n", 5, ProofFault::BadLine),
    (b"by 1 0\n", 5, ProofFault::BadLine),
    (b"by 1 01\n", 5, ProofFault::BadLine),
    (b"by 1 +1\n", 5, ProofFault::BadLine),
    (b"by 1 4294967296\n", 5, ProofFault::BadLine),
    (b"by 1 1 x\n", 5, ProofFault::BadLine),
    (b"by 1,2\n", 5, ProofFault::BadLine),
    (b"by 1 1 # c\n", 5, ProofFault::BadLine),
    (b"by1 1\n", 5, ProofFault::BadLine),
    (b"done 1\n", 5, ProofFault::BadLine),
    (b"Done\n", 5, ProofFault::BadLine),
    (b"end 0\n", 5, ProofFault::BadLine),
    (b"end 1\n", 5, ProofFault::BadLine),
    (b"step k\n", 5, ProofFault::BadLine),
    (b"right <urn:b>\n", 5, ProofFault::BadLine),
    (b"by 1 \xC0\x80\n", 5, ProofFault::Lex(LexFault::NotUtf8)),
    (b"by 15 4294967295", 5, ProofFault::FileEndsInsideAProof),
    (b"by 1\nby 16\n", 6, ProofFault::BadLine),
];

/// Lines after a step.
static NEXT: [Refused; 9] = [
    (b"", 5, ProofFault::FileEndsInsideAProof),
    (b" ", 6, ProofFault::BadLine),
    (b"done\n", 6, ProofFault::BadLine),
    (b"by 1\n", 6, ProofFault::BadLine),
    (b"left <urn:a>\n", 6, ProofFault::BadLine),
    (b"end 0\n", 6, ProofFault::CountDiffers),
    (b"end 2\n", 6, ProofFault::CountDiffers),
    (b"end 1 1\n", 6, ProofFault::BadLine),
    (b"end 01\n", 6, ProofFault::BadLine),
];

/// Lines after the end.
static OVER: [Refused; 7] = [
    (b"x\n", 7, ProofFault::TextAfterTheEnd),
    (b"end 1\n", 7, ProofFault::TextAfterTheEnd),
    (b"gkey-proof 1\n", 7, ProofFault::TextAfterTheEnd),
    (b"\n\nx", 9, ProofFault::TextAfterTheEnd),
    (b" \t\n\t#\n", 8, ProofFault::TextAfterTheEnd),
    (b"\x0C\n", 7, ProofFault::TextAfterTheEnd),
    (b"\xFF\n", 7, ProofFault::Lex(LexFault::NotUtf8)),
];

/// Lines where the number of terms comes, in version 2.
static COUNT: [Refused; 15] = [
    (b"\n", 2, ProofFault::BadLine),
    (b"terms\n", 2, ProofFault::BadLine),
    (b"terms 01\n", 2, ProofFault::BadLine),
    (b"terms -1\n", 2, ProofFault::BadLine),
    (b"terms 4294967296\n", 2, ProofFault::BadLine),
    (b"terms 1 1\n", 2, ProofFault::BadLine),
    (b"Terms 1\n", 2, ProofFault::BadLine),
    (b"step k\n", 2, ProofFault::BadLine),
    (b"end 0\n", 2, ProofFault::BadLine),
    (b"<urn:a>\n", 2, ProofFault::BadLine),
    (b"terms 1 \xFF\n", 2, ProofFault::Lex(LexFault::NotUtf8)),
    (b"terms 4294967295\n", 2, ProofFault::FileEndsInsideAProof),
    (b"terms 0\n", 2, ProofFault::FileEndsInsideAProof),
    (b"terms 0\n<urn:a>\n", 3, ProofFault::BadLine),
    (b"terms 0\nterms 0\n", 3, ProofFault::BadLine),
];

/// Lines where a term is listed, in version 2.
static TERM: [Refused; 20] = [
    (b"\n", 3, ProofFault::BadLine),
    (b"x\n", 3, ProofFault::BadLine),
    (b"1 <urn:a>\n", 3, ProofFault::BadLine),
    (b"<urn:a> <urn:b>\n", 3, ProofFault::BadLine),
    (b"<urn:a> x\n", 3, ProofFault::BadLine),
    (b"<urn:a> # c\n", 3, ProofFault::BadLine),
    (b"<urn:a> <b>\n", 3, ProofFault::BadLine),
    (b"<urn:a>.\n", 3, ProofFault::BadLine),
    (b"step k\n", 3, ProofFault::BadLine),
    (b"end 0\n", 3, ProofFault::BadLine),
    (b"<a>\n", 3, ProofFault::Lex(LexFault::RelativeIri)),
    (b"<urn:a\n", 3, ProofFault::Lex(LexFault::BadIri)),
    (b"<urn:\\q>\n", 3, ProofFault::Lex(LexFault::BadEscape)),
    (b"\"x\n", 3, ProofFault::Lex(LexFault::StringNotClosed)),
    (b"_:\n", 3, ProofFault::Lex(LexFault::BadBlankNodeLabel)),
    (b"\"x\"@\n", 3, ProofFault::Lex(LexFault::BadLanguageTag)),
    (b"\xFF\n", 3, ProofFault::Lex(LexFault::NotUtf8)),
    (b"<urn:a>\nstep k\n", 4, ProofFault::BadLine),
    (b"<urn:a>\n", 3, ProofFault::FileEndsInsideAProof),
    (b"<urn:a>\n<urn:b>\n<urn:c>\n", 5, ProofFault::BadLine),
];

/// Lines where the left side of a step comes, in version 2.
static LEFT_NUMBERS: [Refused; 14] = [
    (b"left\n", 6, ProofFault::BadLine),
    (b"left 0\n", 6, ProofFault::BadLine),
    (b"left 01\n", 6, ProofFault::BadLine),
    (b"left <urn:a>\n", 6, ProofFault::BadLine),
    (b"left x 3\n", 6, ProofFault::BadLine),
    (b"left 1 2 00\n", 6, ProofFault::BadLine),
    (b"left 4294967296\n", 6, ProofFault::BadLine),
    (b"left 18446744073709551617\n", 6, ProofFault::BadLine),
    (b"right 3\n", 6, ProofFault::BadLine),
    (b"left 3\n", 6, ProofFault::TermNumberOutOfRange),
    (b"left 1 3 x\n", 6, ProofFault::TermNumberOutOfRange),
    (b"left 4294967295\n", 6, ProofFault::TermNumberOutOfRange),
    (b"left 3 \xFF\n", 6, ProofFault::Lex(LexFault::NotUtf8)),
    (b"left 1", 6, ProofFault::FileEndsInsideAProof),
];

/// Lines where the right side of a step comes, in version 2.
static RIGHT_NUMBERS: [Refused; 7] = [
    (b"right 3 1\n", 7, ProofFault::TermNumberOutOfRange),
    (b"right 1 2 3\n", 7, ProofFault::TermNumberOutOfRange),
    (b"right 2 0\n", 7, ProofFault::BadLine),
    (b"right 1 \"1\"\n", 7, ProofFault::BadLine),
    (b"right\n", 7, ProofFault::BadLine),
    (b"left 1 2\n", 7, ProofFault::BadLine),
    (b"done\n", 7, ProofFault::BadLine),
];

/// Last lines of a proof of three steps.
static ALBUMS: [Refused; 3] = [
    (b"", 15, ProofFault::FileEndsInsideAProof),
    (b"end 2\n", 16, ProofFault::CountDiffers),
    (b"end 03\n", 16, ProofFault::BadLine),
];

/// Right sides of the last step of the same proof in version 2.
static ALBUM_NUMBERS: [Refused; 3] = [
    (b"right 11 7 9\n", 24, ProofFault::TermNumberOutOfRange),
    (b"right 010 7 9\n", 24, ProofFault::BadLine),
    (b"right 10 7 9 0\n", 24, ProofFault::BadLine),
];

/// Lines after both sides of a step, in version 2.
static LATER: [Refused; 6] = [
    (b"by 16\n", 8, ProofFault::BadLine),
    (b"by 1 00\n", 8, ProofFault::BadLine),
    (b"done\nend 0\n", 9, ProofFault::CountDiffers),
    (b"done\nend 1\nend 1\n", 10, ProofFault::TextAfterTheEnd),
    (b"done\n<urn:c>\n", 9, ProofFault::BadLine),
    (b"done\n", 8, ProofFault::FileEndsInsideAProof),
];

/// Proofs, how many of their lines come first, and what may not come after these. A function hands them out, so that no proof
/// looks into the tables.
pub(super) fn all() -> [(&'static str, usize, &'static [Refused]); 14] {
    [
        ("", 0, &HEADER),
        (ONE_STEP_1, 1, &STEP),
        (ONE_STEP_1, 2, &LEFT),
        (ONE_STEP_1, 3, &RIGHT),
        (ONE_STEP_1, 4, &SUPPORT),
        (ONE_STEP_1, 5, &NEXT),
        (ONE_STEP_1, 6, &OVER),
        (ONE_STEP, 1, &COUNT),
        (ONE_STEP, 2, &TERM),
        (ONE_STEP, 5, &LEFT_NUMBERS),
        (ONE_STEP, 6, &RIGHT_NUMBERS),
        (ONE_STEP, 7, &LATER),
        (ALBUM_AND_ARTIST_PROOF_1, 15, &ALBUMS),
        (ALBUM_AND_ARTIST_PROOF, 23, &ALBUM_NUMBERS),
    ]
}
