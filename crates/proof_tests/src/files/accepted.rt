//! Proof files that are read.

use super::{Accepted, ONE_STEP};
use fixtures::texts::{
    ALBUM_AND_ARTIST_PROOF, ALBUM_AND_ARTIST_PROOF_1, ALBUM_PROOF, ALBUM_PROOF_1, NO_STEPS,
    NO_STEPS_1,
};

/// Proof files, and the canonical texts of their proofs.
static FILES: [Accepted; 17] = [
    (NO_STEPS_1, NO_STEPS),
    (NO_STEPS, NO_STEPS),
    (ALBUM_PROOF_1, ALBUM_PROOF),
    (ALBUM_AND_ARTIST_PROOF_1, ALBUM_AND_ARTIST_PROOF),
    (ALBUM_AND_ARTIST_PROOF, ALBUM_AND_ARTIST_PROOF),
    ("gkey-proof 1\nend 0", NO_STEPS),
    ("gkey-proof 1\rend 0\r", NO_STEPS),
    ("gkey-proof 2\r\nterms 0\rend 0\r\n", NO_STEPS),
    ("gkey-proof 1\nend 0\n\n \t\n\r\t", NO_STEPS),
    (
        "\t gkey-proof \t1 \n  step\tk\t\n\tleft  <urn:a>\"1\"\t\n right\t_:b\"1\"@EN \n by \t1  1 \n\tdone\t\nend\t1 \n",
        "gkey-proof 2\nterms 4\n<urn:a>\n\"1\"\n_:b\n\"1\"@en\nstep k\nleft 1 2\nright 3 4\nby 1 1\ndone\nend 1\n",
    ),
    (
        " gkey-proof\t2\n\tterms  2 \n \t<urn:a> \n\"1\"\t\n step \tk \nleft\t1\t2 \n right  2  1\ndone \n end  1\t",
        ONE_STEP,
    ),
    (
        "gkey-proof 1\nstep k\nleft \"\\u0061\\tb\" \"1\"^^<http://www.w3.org/2001/XMLSchema#string> <urn:a\\u0020b>\nright \"a\tb\" \"1\" <urn:a\\u0020b>\ndone\nend 1\n",
        "gkey-proof 2\nterms 3\n\"a\tb\"\n\"1\"\n<urn:a\\u0020b>\nstep k\nleft 1 2 3\nright 1 2 3\ndone\nend 1\n",
    ),
    (
        "gkey-proof 1\nstep k\nleft \"x\" ^^ <urn:d> \"x\" @en-GB\nright \"\u{DF}\\n\" \"\u{1F41A}\"\ndone\nend 1\n",
        "gkey-proof 2\nterms 4\n\"x\"^^<urn:d>\n\"x\"@en-gb\n\"\u{DF}\\n\"\n\"\u{1F41A}\"\nstep k\nleft 1 2\nright 3 4\ndone\nend 1\n",
    ),
    (
        "gkey-proof 2\nterms 5\n<urn:z>\n\"1\"\n<urn:a>\n\"\\u0031\"\n<urn:a>\nstep k\nleft 5 2\nright 3 4\ndone\nend 1\n",
        "gkey-proof 2\nterms 2\n<urn:a>\n\"1\"\nstep k\nleft 1 2\nright 1 2\ndone\nend 1\n",
    ),
    (
        "gkey-proof 2\nterms 3\n<urn:a>\n<urn:b>\n<urn:c>\nstep k\nleft 2\nright 3\ndone\nstep k\nleft 3\nright 2\nby 3 2 1 4294967295\nby 15\nby 0\nby 0\ndone\nend 2\n",
        "gkey-proof 2\nterms 2\n<urn:b>\n<urn:c>\nstep k\nleft 1\nright 2\ndone\nstep k\nleft 2\nright 1\nby 3 2 1 4294967295\nby 15\nby 0\nby 0\ndone\nend 2\n",
    ),
    ("gkey-proof 2\nterms 1\n<urn:a>\nend 0\n", NO_STEPS),
    (
        "gkey-proof 1\nstep a0123456789_0123456789_012345678\nleft _:a.b\nright _:0\ndone\nend 1\n",
        "gkey-proof 2\nterms 2\n_:a.b\n_:0\nstep a0123456789_0123456789_012345678\nleft 1\nright 2\ndone\nend 1\n",
    ),
];

/// The files, with their canonical texts. A function hands them out, so that no proof looks into the table.
pub(super) fn all() -> &'static [Accepted] {
    &FILES
}
