//! Entities in two chains, and a key that has each kind of slot.

use super::{Changes, Judged, Rejected};
use proof_check::Reason;

/// Six entities, which have a wildcard, a value, a folded value and a constant each, and further ones to be tried.
static GRAPH: &[u8] = b"\
        <urn:a0> <http://www.w3.org/1999/02/22-rdf-syntax-ns#type> <urn:T> .\n\
        <urn:a1> <http://www.w3.org/1999/02/22-rdf-syntax-ns#type> <urn:T> .\n\
        <urn:a1> <urn:next> <urn:a0> .\n\
        <urn:a1> <urn:name> \"n\" .\n\
        <urn:a1> <urn:tag> \"Strasse\" .\n\
        <urn:a1> <urn:kind> \"c\" .\n\
        _:w1 <urn:of> <urn:a1> .\n\
        <urn:a1> <urn:kind> \"d\" .\n\
        <urn:a2> <http://www.w3.org/1999/02/22-rdf-syntax-ns#type> <urn:T> .\n\
        <urn:a2> <urn:next> <urn:a0> .\n\
        <urn:a2> <urn:name> \"n\" .\n\
        <urn:a2> <urn:tag> \"stra\xC3\x9Fe\" .\n\
        <urn:a2> <urn:kind> \"c\" .\n\
        _:w2 <urn:of> <urn:a2> .\n\
        <urn:a2> <urn:kind> \"e\" .\n\
        <urn:a2> <urn:name> \"m\" .\n\
        <urn:a2> <urn:name> \"n\"@en .\n\
        <urn:a2> <urn:tag> \"x\" .\n\
        <urn:a2> <urn:tag> \"STRASSE\" .\n\
        <urn:a2> <urn:tag> \"strasse\"@de .\n\
        <urn:a3> <http://www.w3.org/1999/02/22-rdf-syntax-ns#type> <urn:T> .\n\
        <urn:a3> <urn:next> <urn:a1> .\n\
        <urn:a3> <urn:name> \"n\" .\n\
        <urn:a3> <urn:tag> \"Strasse\" .\n\
        <urn:a3> <urn:kind> \"c\" .\n\
        _:w1 <urn:of> <urn:a3> .\n\
        <urn:a3> <urn:kind> \"d\" .\n\
        <urn:a4> <http://www.w3.org/1999/02/22-rdf-syntax-ns#type> <urn:T> .\n\
        <urn:a4> <urn:next> <urn:a2> .\n\
        <urn:a4> <urn:name> \"n\" .\n\
        <urn:a4> <urn:tag> \"stra\xC3\x9Fe\" .\n\
        <urn:a4> <urn:kind> \"c\" .\n\
        _:w2 <urn:of> <urn:a4> .\n\
        <urn:a4> <urn:kind> \"e\" .\n\
        <urn:a4> <urn:name> \"m\" .\n\
        <urn:a4> <urn:name> \"n\"@en .\n\
        <urn:a4> <urn:tag> \"x\" .\n\
        <urn:a4> <urn:tag> \"STRASSE\" .\n\
        <urn:a4> <urn:tag> \"strasse\"@de .\n\
        <urn:a5> <http://www.w3.org/1999/02/22-rdf-syntax-ns#type> <urn:T> .\n\
        <urn:a5> <urn:next> <urn:a3> .\n\
        <urn:a5> <urn:name> \"n\" .\n\
        <urn:a5> <urn:tag> \"Strasse\" .\n\
        <urn:a5> <urn:kind> \"c\" .\n\
        _:w1 <urn:of> <urn:a5> .\n\
        <urn:a5> <urn:kind> \"d\" .\n\
        <urn:a6> <http://www.w3.org/1999/02/22-rdf-syntax-ns#type> <urn:T> .\n\
        <urn:a6> <urn:next> <urn:a4> .\n\
        <urn:a6> <urn:name> \"n\" .\n\
        <urn:a6> <urn:tag> \"stra\xC3\x9Fe\" .\n\
        <urn:a6> <urn:kind> \"c\" .\n\
        _:w2 <urn:of> <urn:a6> .\n\
        <urn:a6> <urn:kind> \"e\" .\n\
        <urn:a6> <urn:name> \"m\" .\n\
        <urn:a6> <urn:name> \"n\"@en .\n\
        <urn:a6> <urn:tag> \"x\" .\n\
        <urn:a6> <urn:tag> \"STRASSE\" .\n\
        <urn:a6> <urn:tag> \"strasse\"@de .\n\
        _:w1 <http://www.w3.org/1999/02/22-rdf-syntax-ns#type> <urn:W> .\n\
        _:w2 <http://www.w3.org/1999/02/22-rdf-syntax-ns#type> <urn:W> .\n\
        <urn:o> <http://www.w3.org/1999/02/22-rdf-syntax-ns#type> <urn:U> .\n\
        <urn:a2> <urn:next> <urn:a5> .\n";

/// The key.
static KEYS: &[u8] = b"\
        key k <urn:T>\n\
        entity ?y <urn:T>\n\
        any _w <urn:W>\n\
        value $n\n\
        folded $f\n\
        ?x <urn:next> ?y\n\
        _w <urn:of> ?x\n\
        ?x <urn:name> $n\n\
        ?x <urn:tag> $f\n\
        ?x <urn:kind> \"c\"\n\
        end\n";

/// The two chains are the same, link by link.
static PROOF: &str = "\
gkey-proof 1
step k
left <urn:a1> <urn:a0> _:w1 \"n\" \"Strasse\" \"c\"
right <urn:a2> <urn:a0> _:w2 \"n\" \"stra\u{DF}e\" \"c\"
by 1
done
step k
left <urn:a3> <urn:a1> _:w1 \"n\" \"Strasse\" \"c\"
right <urn:a4> <urn:a2> _:w2 \"n\" \"stra\u{DF}e\" \"c\"
by 1 1
done
step k
left <urn:a5> <urn:a3> _:w1 \"n\" \"Strasse\" \"c\"
right <urn:a6> <urn:a4> _:w2 \"n\" \"stra\u{DF}e\" \"c\"
by 1 2
done
end 3
";

/// Changes after which the proof is rejected, with the step and the reason.
static REJECTED: [Rejected; 66] = [
    (1, Reason::UnknownKey, &[(2, b"step other\n")]),
    (2, Reason::UnknownKey, &[(7, b"step kk\n")]),
    (3, Reason::UnknownKey, &[(12, b"step 0\n")]),
    (
        1,
        Reason::WrongShape,
        &[(3, b"left <urn:a1> <urn:a0> _:w1 \"n\" \"Strasse\"\n")],
    ),
    (1, Reason::WrongShape, &[(5, b"")]),
    (1, Reason::WrongShape, &[(5, b"by 0\nby 1\n")]),
    (
        2,
        Reason::WrongShape,
        &[(
            9,
            b"right <urn:a4> <urn:a2> _:w2 \"n\" \"stra\xC3\x9Fe\" \"c\" \"n\"\n",
        )],
    ),
    (2, Reason::WrongShape, &[(10, b"by 2 1\n")]),
    (2, Reason::WrongShape, &[(10, b"by 1 1\nby 1 1\n")]),
    (3, Reason::WrongShape, &[(15, b"by 1 2\nby 2 1\n")]),
    (3, Reason::WrongShape, &[(13, b"left <urn:a5>\n")]),
    (3, Reason::WrongShape, &[(15, b"by 0 2\n")]),
    (3, Reason::WrongShape, &[(15, b"by 1 2\nby 6\n")]),
    (
        1,
        Reason::TermNotInTheGraph,
        &[(3, b"left <urn:a9> <urn:a0> _:w1 \"n\" \"Strasse\" \"c\"\n")],
    ),
    (
        2,
        Reason::TermNotInTheGraph,
        &[(
            9,
            b"right <urn:a4> <urn:a2> _:w2 \"zz\" \"stra\xC3\x9Fe\" \"c\"\n",
        )],
    ),
    (
        3,
        Reason::TermNotInTheGraph,
        &[(
            14,
            b"right <urn:a6> <urn:a4> <urn:of> \"n\" \"stra\xC3\x9Fe\" \"c\"\n",
        )],
    ),
    (
        3,
        Reason::TermNotInTheGraph,
        &[(13, b"left <urn:a5> <urn:a3> _:w1 \"n\" \"Strasse\" \"C\"\n")],
    ),
    (
        1,
        Reason::TermNotInTheGraph,
        &[(
            4,
            b"right <urn:a2> <urn:a0> _:w2 \"n\"@fr \"stra\xC3\x9Fe\" \"c\"\n",
        )],
    ),
    (
        1,
        Reason::TermTwice,
        &[(3, b"left <urn:a1> <urn:a0> _:w1 \"c\" \"Strasse\" \"c\"\n")],
    ),
    (
        2,
        Reason::TermTwice,
        &[(
            9,
            b"right <urn:a4> <urn:a4> _:w2 \"n\" \"stra\xC3\x9Fe\" \"c\"\n",
        )],
    ),
    (
        3,
        Reason::TermTwice,
        &[(
            13,
            b"left <urn:a5> <urn:a3> <urn:a3> \"n\" \"Strasse\" \"c\"\n",
        )],
    ),
    (
        3,
        Reason::TermTwice,
        &[(14, b"right <urn:a6> <urn:a4> _:w2 \"c\" \"c\" \"c\"\n")],
    ),
    (
        1,
        Reason::WrongKindOrType,
        &[(3, b"left \"m\" <urn:a0> _:w1 \"n\" \"Strasse\" \"c\"\n")],
    ),
    (
        1,
        Reason::WrongKindOrType,
        &[(
            4,
            b"right <urn:a2> <urn:o> _:w2 \"n\" \"stra\xC3\x9Fe\" \"c\"\n",
        )],
    ),
    (
        2,
        Reason::WrongKindOrType,
        &[(
            9,
            b"right <urn:a4> <urn:a2> <urn:o> \"n\" \"stra\xC3\x9Fe\" \"c\"\n",
        )],
    ),
    (
        2,
        Reason::WrongKindOrType,
        &[(9, b"right <urn:a4> <urn:a2> _:w2 \"n\" <urn:T> \"c\"\n")],
    ),
    (
        2,
        Reason::WrongKindOrType,
        &[(8, b"left <urn:a3> <urn:a1> \"m\" \"n\" \"Strasse\" \"c\"\n")],
    ),
    (
        3,
        Reason::WrongKindOrType,
        &[(13, b"left <urn:a5> <urn:a3> _:w1 _:w2 \"Strasse\" \"c\"\n")],
    ),
    (
        3,
        Reason::WrongKindOrType,
        &[(13, b"left <urn:a5> <urn:o> _:w1 \"n\" \"Strasse\" \"c\"\n")],
    ),
    (
        1,
        Reason::TripleMissing,
        &[(
            4,
            b"right <urn:a2> <urn:a1> _:w2 \"n\" \"stra\xC3\x9Fe\" \"c\"\n",
        )],
    ),
    (
        2,
        Reason::TripleMissing,
        &[(8, b"left <urn:a3> <urn:a1> _:w2 \"n\" \"Strasse\" \"c\"\n")],
    ),
    (
        3,
        Reason::TripleMissing,
        &[(13, b"left <urn:a5> <urn:a3> _:w1 \"m\" \"Strasse\" \"c\"\n")],
    ),
    (
        3,
        Reason::TripleMissing,
        &[(
            14,
            b"right <urn:a6> <urn:a4> _:w2 \"n\" \"stra\xC3\x9Fe\" \"d\"\n",
        )],
    ),
    (
        3,
        Reason::TripleMissing,
        &[(13, b"left <urn:a5> <urn:a3> _:w1 \"n\" \"x\" \"c\"\n")],
    ),
    (
        1,
        Reason::ConstantDiffers,
        &[(3, b"left <urn:a1> <urn:a0> _:w1 \"n\" \"Strasse\" \"d\"\n")],
    ),
    (
        2,
        Reason::ConstantDiffers,
        &[(
            9,
            b"right <urn:a4> <urn:a2> _:w2 \"n\" \"stra\xC3\x9Fe\" \"e\"\n",
        )],
    ),
    (
        3,
        Reason::ConstantDiffers,
        &[
            (13, b"left <urn:a5> <urn:a3> _:w1 \"n\" \"Strasse\" \"d\"\n"),
            (
                14,
                b"right <urn:a6> <urn:a4> _:w2 \"n\" \"stra\xC3\x9Fe\" \"e\"\n",
            ),
        ],
    ),
    (
        1,
        Reason::ValueDiffers,
        &[(
            4,
            b"right <urn:a2> <urn:a0> _:w2 \"m\" \"stra\xC3\x9Fe\" \"c\"\n",
        )],
    ),
    (
        1,
        Reason::ValueDiffers,
        &[(
            4,
            b"right <urn:a2> <urn:a0> _:w2 \"n\" \"strasse\"@de \"c\"\n",
        )],
    ),
    (
        2,
        Reason::ValueDiffers,
        &[(9, b"right <urn:a4> <urn:a2> _:w2 \"n\" \"x\" \"c\"\n")],
    ),
    (
        3,
        Reason::ValueDiffers,
        &[(
            14,
            b"right <urn:a6> <urn:a4> _:w2 \"n\"@en \"stra\xC3\x9Fe\" \"c\"\n",
        )],
    ),
    (1, Reason::SupportNotEarlier, &[(5, b"by 1 1\n")]),
    (1, Reason::SupportNotEarlier, &[(5, b"by 1 3\n")]),
    (2, Reason::SupportNotEarlier, &[(10, b"by 1 2\n")]),
    (2, Reason::SupportNotEarlier, &[(10, b"by 1 1 3\n")]),
    (3, Reason::SupportNotEarlier, &[(15, b"by 1 3\n")]),
    (3, Reason::SupportNotEarlier, &[(15, b"by 1 4294967295\n")]),
    (
        1,
        Reason::SupportDoesNotLeadThere,
        &[(
            4,
            b"right <urn:a2> <urn:a5> _:w2 \"n\" \"stra\xC3\x9Fe\" \"c\"\n",
        )],
    ),
    (2, Reason::SupportDoesNotLeadThere, &[(10, b"by 1\n")]),
    (2, Reason::SupportDoesNotLeadThere, &[(10, b"by 1 1 1\n")]),
    (3, Reason::SupportDoesNotLeadThere, &[(15, b"by 1\n")]),
    (3, Reason::SupportDoesNotLeadThere, &[(15, b"by 1 1\n")]),
    (3, Reason::SupportDoesNotLeadThere, &[(15, b"by 1 2 1\n")]),
    (3, Reason::SupportDoesNotLeadThere, &[(15, b"by 1 1 2\n")]),
    (
        1,
        Reason::UnknownKey,
        &[
            (2, b"step other\n"),
            (3, b"left <urn:a1> <urn:a0> _:w1 \"n\" \"Strasse\"\n"),
        ],
    ),
    (2, Reason::WrongShape, &[(8, b"left <urn:a9>\n")]),
    (
        1,
        Reason::TermNotInTheGraph,
        &[(3, b"left <urn:a9> <urn:a9> _:w1 \"n\" \"Strasse\" \"c\"\n")],
    ),
    (
        2,
        Reason::TermTwice,
        &[(
            9,
            b"right <urn:a4> \"m\" _:w2 \"m\" \"stra\xC3\x9Fe\" \"c\"\n",
        )],
    ),
    (
        3,
        Reason::WrongKindOrType,
        &[(
            14,
            b"right <urn:o> <urn:a4> _:w2 \"n\" \"stra\xC3\x9Fe\" \"c\"\n",
        )],
    ),
    (
        1,
        Reason::TripleMissing,
        &[(
            4,
            b"right <urn:a2> <urn:a0> _:w2 \"n\" \"stra\xC3\x9Fe\" \"d\"\n",
        )],
    ),
    (
        2,
        Reason::ConstantDiffers,
        &[
            (8, b"left <urn:a3> <urn:a1> _:w1 \"n\" \"Strasse\" \"d\"\n"),
            (
                9,
                b"right <urn:a4> <urn:a2> _:w2 \"m\" \"stra\xC3\x9Fe\" \"c\"\n",
            ),
        ],
    ),
    (
        3,
        Reason::ValueDiffers,
        &[
            (
                14,
                b"right <urn:a6> <urn:a4> _:w2 \"m\" \"stra\xC3\x9Fe\" \"c\"\n",
            ),
            (15, b"by 1 3\n"),
        ],
    ),
    (3, Reason::SupportNotEarlier, &[(15, b"by 1 1 3\n")]),
    (
        2,
        Reason::ConstantDiffers,
        &[
            (8, b"left <urn:a3> <urn:a1> _:w1 \"n\" \"Strasse\" \"d\"\n"),
            (
                9,
                b"right <urn:a4> <urn:a2> _:w2 \"n\"@en \"stra\xC3\x9Fe\" \"c\"\n",
            ),
        ],
    ),
    (
        1,
        Reason::ValueDiffers,
        &[
            (
                4,
                b"right <urn:a2> <urn:a0> _:w2 \"m\" \"stra\xC3\x9Fe\" \"c\"\n",
            ),
            (12, b"step other\n"),
        ],
    ),
    (
        2,
        Reason::SupportDoesNotLeadThere,
        &[(10, b"by 1\n"), (15, b"by 1 3\n")],
    ),
];

/// Changes after which it is accepted. The first row changes nothing.
static ACCEPTED: [Changes; 4] = [
    &[],
    &[(9, b"right <urn:a4> <urn:a2> _:w2 \"n\" \"STRASSE\" \"c\"\n")],
    &[(15, b"by 1 2 2 2\n")],
    &[
        (
            3,
            b"left <urn:a2> <urn:a0> _:w2 \"n\" \"stra\xC3\x9Fe\" \"c\"\n",
        ),
        (4, b"right <urn:a1> <urn:a0> _:w1 \"n\" \"Strasse\" \"c\"\n"),
    ],
];

/// A function hands the texts and the tables out, so that no proof looks into them.
pub(super) fn chain() -> Judged {
    Judged {
        graph: GRAPH,
        keys: KEYS,
        proof: PROOF,
        rejected: &REJECTED,
        accepted: &ACCEPTED,
    }
}
