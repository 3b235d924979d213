//! Albums and artists.

use super::{Changes, Judged, Rejected};
use fixtures::texts::{ALBUM_AND_ARTIST_KEYS, ALBUM_AND_ARTIST_PROOF_1, ALBUMS_AND_ARTISTS};
use proof_check::Reason;

/// Changes after which the proof is rejected, with the step and the reason.
static REJECTED: [Rejected; 10] = [
    (2, Reason::SupportNotEarlier, &[(9, b"by 1 2\n")]),
    (2, Reason::SupportDoesNotLeadThere, &[(9, b"by 1\n")]),
    (1, Reason::UnknownKey, &[(2, b"step nokey\n")]),
    (
        1,
        Reason::WrongShape,
        &[(3, b"left <urn:al1> \"Anthology 2\"\n")],
    ),
    (
        1,
        Reason::TermNotInTheGraph,
        &[(3, b"left <urn:al9> \"Anthology 2\" \"1996\"\n")],
    ),
    (
        1,
        Reason::TermTwice,
        &[(3, b"left <urn:al1> \"Anthology 2\" \"Anthology 2\"\n")],
    ),
    (
        1,
        Reason::WrongKindOrType,
        &[(3, b"left <urn:ar1> \"Anthology 2\" \"1996\"\n")],
    ),
    (
        1,
        Reason::TripleMissing,
        &[(4, b"right <urn:al3> \"Anthology 2\" \"1996\"\n")],
    ),
    (
        3,
        Reason::ValueDiffers,
        &[(13, b"right <urn:al2> <urn:ar2> \"Anthology 2\"\n")],
    ),
    (3, Reason::SupportNotEarlier, &[(14, b"by 1 3\n")]),
];

/// Changes after which it is accepted. The first row changes nothing.
static ACCEPTED: [Changes; 1] = [&[]];

/// A function hands the texts and the tables out, so that no proof looks into them.
pub(super) fn albums() -> Judged {
    Judged {
        graph: ALBUMS_AND_ARTISTS,
        keys: ALBUM_AND_ARTIST_KEYS,
        proof: ALBUM_AND_ARTIST_PROOF_1,
        rejected: &REJECTED,
        accepted: &ACCEPTED,
    }
}
