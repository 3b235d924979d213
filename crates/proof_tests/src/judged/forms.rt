//! Forms that differ in case.

use super::{Changes, Judged, Rejected};
use fixtures::texts::{ONE_FOLDED, ONE_VALUE, STREET_PROOF_1, STREETS};
use proof_check::Reason;

/// By the folded variable that is accepted, and not where a tag differs.
static FOLDED_REJECTED: [Rejected; 1] = [(
    1,
    Reason::ValueDiffers,
    &[(4, b"right <urn:u3> \"strasse\"@de\n")],
)];

static FOLDED_ACCEPTED: [Changes; 2] = [&[], &[(4, b"right <urn:u1> \"Stra\xC3\x9Fe\"\n")]];

/// By the value variable an entity is the same as itself alone.
static VALUED_REJECTED: [Rejected; 2] = [
    (1, Reason::ValueDiffers, &[]),
    (
        1,
        Reason::ValueDiffers,
        &[(4, b"right <urn:u3> \"strasse\"@de\n")],
    ),
];

static VALUED_ACCEPTED: [Changes; 1] = [&[(4, b"right <urn:u1> \"Stra\xC3\x9Fe\"\n")]];

/// A function hands the texts and the tables out, so that no proof looks into them.
pub(super) fn folded() -> Judged {
    Judged {
        graph: STREETS,
        keys: ONE_FOLDED,
        proof: STREET_PROOF_1,
        rejected: &FOLDED_REJECTED,
        accepted: &FOLDED_ACCEPTED,
    }
}

/// The same with the value variable.
pub(super) fn valued() -> Judged {
    Judged {
        graph: STREETS,
        keys: ONE_VALUE,
        proof: STREET_PROOF_1,
        rejected: &VALUED_REJECTED,
        accepted: &VALUED_ACCEPTED,
    }
}
