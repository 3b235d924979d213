//! Terms as the readers give them.

ghost use Rattle.std.specs.Prelude.{◌≡◌, ◌⊎◌, Err};
ghost use Rattle.std.specs.Cow.{cow_slice_items};
ghost use Rattle.gk_base.specs.declared.stop.Stop.TheVariants.{NoMemory};
ghost use Rattle.term_list.specs.Parts.{GoesWith, made_of};

use gk_base::{LexStop, Term};
use std::alloc::Global;
use std::borrow::CowSlice;
use std::marker::Model;
use term_list::{TermKind, TermRef};

/// A term as a reader gives it. Its texts are parts of the line; where an escape or a capital letter of a
/// language tag makes a text differ from what stands there, that text is one of its own. Contracts see the term.
#[derive(Drop)]
pub struct LexedTerm<'a> {
    kind: TermKind,
    first: CowSlice<'a, u8>,
    second: CowSlice<'a, u8>,
}

impl<'a> Model for LexedTerm<'a> {
    ghost use Rattle.std.specs.Cow.{cow_slice_items};
    ghost use Rattle.gk_base.specs.declared.term.Term.{Term};
    ghost use Rattle.term_list.specs.Parts.{GoesWith, made_of};

    ghost Value = { Term };

    ghost view = { λ t. made_of t.kind (cow_slice_items t.first) (cow_slice_items t.second) };

    ghost invariant = { λ t. GoesWith t.kind (cow_slice_items t.second) };
}

impl<'a> LexedTerm<'a> {
    /// The term of this kind with these texts. Where terms of this kind have one text, the second is empty.
    #[inline]
    pub(crate) fn new(
        kind: TermKind,
        first: CowSlice<'a, u8>,
        second: CowSlice<'a, u8>,
    ) -> LexedTerm<'a>
        requires { GoesWith kind (cow_slice_items second) }
        ensures { result ≡ made_of kind (cow_slice_items first.entry) (cow_slice_items second.entry) }
    {
        LexedTerm {
            kind,
            first,
            second,
        }
    }

    /// The term, lent.
    #[inline]
    pub fn lent(&self) -> TermRef<'_>
        ensures { result ≡ self.now }
    {
        TermRef::new(self.kind, self.first.as_slice(), self.second.as_slice())
    }

    /// Whether its texts are parts of the line, so that it has none of its own. Contracts don't tell: it is the same term
    /// either way, and this is for who asks what it costs.
    pub fn is_part_of_the_line(&self) -> bool {
        matches!(
            (&self.first, &self.second),
            (CowSlice::Borrowed(_), CowSlice::Borrowed(_))
        )
    }
}

/// The same answer, but the term has texts of its own. They may find no memory.
pub(crate) fn owned(
    alloc: Global,
    answer: Result<(LexedTerm<'_>, usize), LexStop>,
) -> Result<(Term, usize), LexStop>
    ensures { (result ≡ answer.entry) ⊎ (result ≡ Err NoMemory) }
{
    match answer {
        Ok((term, end)) => Ok((term.lent().to_term(alloc)?, end)),
        Err(stop) => Err(stop),
    }
}
