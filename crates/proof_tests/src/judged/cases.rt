//! Graphs, key files and proofs, each with its verdict.

use super::Case;
use fixtures::texts::{
    ALBUM_AND_ARTIST_KEYS, ALBUM_AND_ARTIST_PROOF, ALBUM_KEY, ALBUM_PROOF, ALBUM_PROOF_1, ALBUMS,
    ALBUMS_AND_ARTISTS, ANOTHER_YEAR, ANOTHER_YEAR_PROOF_1, NO_STEPS, NO_STEPS_1, YEAR_KEY,
};
use proof_check::{Reason, Verdict};

/// The two albums.
const ALBUMS_ALONE: Case = Case {
    about: "two albums alone",
    graph: ALBUMS,
    more: b"",
    keys: ALBUM_KEY,
    proof: ALBUM_PROOF,
    verdict: Verdict::Accepted { steps: 1 },
};

/// Graphs, keys and proofs.
static CASES: [Case; 10] = [
    Case {
        about: "the albums' proof in version 2",
        graph: ALBUMS_AND_ARTISTS,
        keys: ALBUM_AND_ARTIST_KEYS,
        proof: ALBUM_AND_ARTIST_PROOF,
        verdict: Verdict::Accepted { steps: 3 },
        ..ALBUMS_ALONE
    },
    Case {
        about: "a proof without steps",
        graph: b"",
        proof: NO_STEPS_1,
        verdict: Verdict::Accepted { steps: 0 },
        ..ALBUMS_ALONE
    },
    Case {
        about: "a proof without steps, and no keys",
        graph: b"",
        keys: b"",
        proof: NO_STEPS,
        verdict: Verdict::Accepted { steps: 0 },
        ..ALBUMS_ALONE
    },
    ALBUMS_ALONE,
    Case {
        about: "a step without a key",
        keys: b"",
        proof: ALBUM_PROOF_1,
        verdict: Verdict::Rejected {
            step: 1,
            reason: Reason::UnknownKey,
        },
        ..ALBUMS_ALONE
    },
    Case {
        about: "a step in an empty graph",
        graph: b"",
        proof: ALBUM_PROOF_1,
        verdict: Verdict::Rejected {
            step: 1,
            reason: Reason::TermNotInTheGraph,
        },
        ..ALBUMS_ALONE
    },
    Case {
        about: "another term at a constant, without its triple",
        keys: YEAR_KEY,
        proof: ANOTHER_YEAR_PROOF_1,
        verdict: Verdict::Rejected {
            step: 1,
            reason: Reason::TripleMissing,
        },
        ..ALBUMS_ALONE
    },
    Case {
        about: "another term at a constant, with its triple",
        more: ANOTHER_YEAR,
        keys: YEAR_KEY,
        proof: ANOTHER_YEAR_PROOF_1,
        verdict: Verdict::Rejected {
            step: 1,
            reason: Reason::ConstantDiffers,
        },
        ..ALBUMS_ALONE
    },
    Case {
        about: "a constant that only the key names",
        keys: b"\
            key c <urn:Album>\n\
            ?x <urn:year> \"1997\"\n\
            end\n",
        proof: "\
            gkey-proof 1\n\
            step c\n\
            left <urn:al1> \"1997\"\n\
            right <urn:al2> \"1997\"\n\
            done\n\
            end 1\n",
        verdict: Verdict::Rejected {
            step: 1,
            reason: Reason::TermNotInTheGraph,
        },
        ..ALBUMS_ALONE
    },
    Case {
        about: "a type that only another key names, in the last step",
        keys: b"\
            key album_year <urn:Album>\n\
            value $n\n\
            value $y\n\
            ?x <urn:name> $n\n\
            ?x <urn:year> $y\n\
            end\n\
            key s <urn:Single>\n\
            value $n\n\
            ?x <urn:name> $n\n\
            end\n",
        proof: "\
            gkey-proof 1\n\
            step album_year\n\
            left <urn:al1> \"Anthology 2\" \"1996\"\n\
            right <urn:al2> \"Anthology 2\" \"1996\"\n\
            done\n\
            step album_year\n\
            left <urn:al2> \"Anthology 2\" \"1996\"\n\
            right <urn:al1> \"Anthology 2\" \"1996\"\n\
            done\n\
            step s\n\
            left <urn:al1> \"Anthology 2\"\n\
            right <urn:Single> \"Anthology 2\"\n\
            done\n\
            end 3\n",
        verdict: Verdict::Rejected {
            step: 3,
            reason: Reason::TermNotInTheGraph,
        },
        ..ALBUMS_ALONE
    },
];

/// The cases. A function hands them out, so that no proof looks into the table.
pub(super) fn all() -> &'static [Case] {
    &CASES
}

/// The graph of the two albums. Its triples are among those of the four albums and their artists.
pub(super) fn two_albums() -> &'static [u8] {
    ALBUMS
}
