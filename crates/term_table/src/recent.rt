//! Which terms of a list came before in it, as far as that is seen at a glance.
//!
//! Most terms of a graph come again and again: a subject is mostly that of the triple before, and properties, types and short
//! values are few. A term that is the same as one before it has that one's number. To see so takes one comparison of texts that
//! both stand in the list, and no hash.

ghost use Rattle.std.specs.Prelude.{◌<◌, ◌^◌, length};
ghost use Rattle.term_table.specs.Firsts.{IsFirst};

use term_list::{TermRef, Terms};

/// How many signatures there are. A table of so many places takes 512 bytes, and is filled anew for each list.
const SIGNATURES: usize = 128;

/// For each signature the place of the first of the same terms that had it last, or 0.
#[derive(Drop)]
pub(crate) struct Recent {
    places: [u32; SIGNATURES],
}

/// What is seen of a term at a glance: how long its text is and how it ends. Terms with numbers of two digits at their ends
/// have different ones.
#[inline]
fn signature(term: &TermRef<'_>) -> usize
    ensures { result < SIGNATURES }
{
    let text = term.first();
    let end = match text {
        [.., tens, ones] => *tens as usize * 10 + *ones as usize,
        _ => 0,
    };
    (text.len() % SIGNATURES + end) % SIGNATURES
}

impl Recent {
    /// No term has come yet.
    pub(crate) fn new() -> Recent {
        Recent {
            places: [0; SIGNATURES],
        }
    }

    /// The place of a term that is the same as that at this place and stands before it, or else this place.
    #[inline]
    pub(crate) fn first(&mut self, terms: &Terms, at: usize) -> u32
        requires within { at < length terms.now }
        requires few { length terms.now < 2 ^ 32 }
        ensures { IsFirst terms.now at result }
    {
        let term = terms.get(at);
        let signature = signature(&term);
        let place = self.places[signature];
        if (place as usize) < at && terms.get(place as usize).is_same(&term) {
            return place;
        }
        self.places[signature] = at as u32;
        at as u32
    }
}
