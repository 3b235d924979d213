//! A key with a wildcard and two entity variables after it.

use super::{Changes, Judged, Rejected};
use proof_check::Reason;

/// Two entities that share one thing and have two others each.
static GRAPH: &[u8] = b"\
        <urn:x1> <http://www.w3.org/1999/02/22-rdf-syntax-ns#type> <urn:T> .\n\
        <urn:x2> <http://www.w3.org/1999/02/22-rdf-syntax-ns#type> <urn:T> .\n\
        <urn:y1> <http://www.w3.org/1999/02/22-rdf-syntax-ns#type> <urn:T> .\n\
        <urn:y2> <http://www.w3.org/1999/02/22-rdf-syntax-ns#type> <urn:T> .\n\
        <urn:z1> <http://www.w3.org/1999/02/22-rdf-syntax-ns#type> <urn:T> .\n\
        <urn:z2> <http://www.w3.org/1999/02/22-rdf-syntax-ns#type> <urn:T> .\n\
        <urn:w> <http://www.w3.org/1999/02/22-rdf-syntax-ns#type> <urn:T> .\n\
        <urn:x1> <urn:p> <urn:w> .\n\
        <urn:x1> <urn:q> <urn:y1> .\n\
        <urn:x1> <urn:r> <urn:z1> .\n\
        <urn:y1> <urn:n> \"y\" .\n\
        <urn:z1> <urn:n> \"z\" .\n\
        <urn:x2> <urn:p> <urn:w> .\n\
        <urn:x2> <urn:q> <urn:y2> .\n\
        <urn:x2> <urn:r> <urn:z2> .\n\
        <urn:y2> <urn:n> \"y\" .\n\
        <urn:z2> <urn:n> \"z\" .\n";

/// The key, and one by which the others are the same.
static KEYS: &[u8] = b"\
        key two <urn:T>\n\
        any _w <urn:T>\n\
        entity ?y <urn:T>\n\
        entity ?z <urn:T>\n\
        ?x <urn:p> _w\n\
        ?x <urn:q> ?y\n\
        ?x <urn:r> ?z\n\
        end\n\
        key named <urn:T>\n\
        value $n\n\
        ?x <urn:n> $n\n\
        end\n";

/// The others are the same, and so are the two.
static PROOF: &str = "\
gkey-proof 1
step named
left <urn:y1> \"y\"
right <urn:y2> \"y\"
done
step named
left <urn:z2> \"z\"
right <urn:z1> \"z\"
done
step two
left <urn:x1> <urn:w> <urn:y1> <urn:z1>
right <urn:x2> <urn:w> <urn:y2> <urn:z2>
by 2 1
by 3 2
done
end 3
";

/// Changes after which the proof is rejected, with the step and the reason.
static REJECTED: [Rejected; 10] = [
    (
        3,
        Reason::WrongShape,
        &[(13, b"by 3 2\n"), (14, b"by 2 1\n")],
    ),
    (3, Reason::WrongShape, &[(13, b"by 1\nby 2 1\n")]),
    (3, Reason::WrongShape, &[(14, b"")]),
    (3, Reason::WrongShape, &[(13, b"")]),
    (3, Reason::WrongShape, &[(14, b"by 2 1\n")]),
    (
        3,
        Reason::SupportDoesNotLeadThere,
        &[(13, b"by 2 2\n"), (14, b"by 3 1\n")],
    ),
    (3, Reason::SupportDoesNotLeadThere, &[(14, b"by 3\n")]),
    (3, Reason::SupportNotEarlier, &[(14, b"by 3 3\n")]),
    (
        3,
        Reason::SupportNotEarlier,
        &[(13, b"by 2\n"), (14, b"by 3 3\n")],
    ),
    (
        1,
        Reason::WrongShape,
        &[(2, b"step two\n"), (4, b"right <urn:x2> \"y\"\n")],
    ),
];

/// Changes after which it is accepted. The first row changes nothing.
static ACCEPTED: [Changes; 3] = [
    &[],
    &[(13, b"by 2 1 1 1\n"), (14, b"by 3 2 2 2\n")],
    &[
        (11, b"left <urn:x2> <urn:w> <urn:y2> <urn:z2>\n"),
        (12, b"right <urn:x1> <urn:w> <urn:y1> <urn:z1>\n"),
    ],
];

/// A function hands the texts and the tables out, so that no proof looks into them.
pub(super) fn pairs() -> Judged {
    Judged {
        graph: GRAPH,
        keys: KEYS,
        proof: PROOF,
        rejected: &REJECTED,
        accepted: &ACCEPTED,
    }
}
