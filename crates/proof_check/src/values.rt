//! Whether the values of the two sides of a step agree. Forms are folded here, by `caseless`, and not by the table of names,
//! so that the checker rests on no more of it than its numbering.

ghost use Rattle.std.specs.Prelude.{◌≡◌, ◌<◌, All, IfOk, length};
ghost use Rattle.term_table.specs.Numbering.{same_term};
ghost use Rattle.term_table.specs.Folding.{folded_form, folded_term};
ghost use Rattle.proof_check.specs.NumberVerdict.{numbers_agree_at, numbers_agree};

use caseless::default_case_fold_str;
use chase_laws::Slot;
use gk_base::{NoMemory, Term, Text};
use std::alloc::Global;
use term_list::{TermKind, TermRef};
use term_table::Names;

/// A lexical form with its case folded. Bytes that are not UTF-8 stay as they are.
fn folded_form(alloc: Global, form: &[u8]) -> Result<Text, NoMemory>
    ensures { IfOk result (λ text. text ≡ folded_form form.now) }
{
    match str::from_utf8(form) {
        Ok(text) => {
            let folded = default_case_fold_str(alloc, text)?;
            Ok(Text::from_vec(folded.into_bytes()))
        }
        Err(_) => Text::from_bytes(alloc, form),
    }
}

/// A literal with its lexical form folded. What is no literal stays.
fn folded_term(alloc: Global, term: &TermRef<'_>) -> Result<Term, NoMemory>
    ensures { IfOk result (λ folded. folded ≡ folded_term term.now) }
{
    let (first, second) = (term.first(), term.second());
    Ok(match term.kind() {
        TermKind::Iri => Term::Iri(Text::from_bytes(alloc, first)?),
        TermKind::Blank => Term::Blank(Text::from_bytes(alloc, first)?),
        TermKind::Plain => Term::Plain(folded_form(alloc, first)?),
        TermKind::Typed => Term::Typed(
            folded_form(alloc, first)?,
            Text::from_bytes(alloc, second)?,
        ),
        TermKind::Lang => Term::Lang(folded_form(alloc, first)?, Text::from_bytes(alloc, second)?),
    })
}

/// Whether two terms are equal once case is folded.
fn are_alike(alloc: Global, one: &TermRef<'_>, other: &TermRef<'_>) -> Result<bool, NoMemory>
    ensures { IfOk result (λ b. b ≡ same_term (folded_term one.now) (folded_term other.now)) }
{
    Ok(folded_term(alloc, one)? == folded_term(alloc, other)?)
}

/// Whether two numbers agree at a slot.
fn agree(alloc: Global, names: &Names, slot: Slot, m: u32, n: u32) -> Result<bool, NoMemory>
    requires m { m < length names.now }
    requires n { n < length names.now }
    ensures { IfOk result (λ b. b ≡ numbers_agree_at names.now slot m n) }
{
    Ok(match slot {
        Slot::Value => m == n,
        Slot::Folded => are_alike(alloc, &names.term(m), &names.term(n))?,
        Slot::Entity(_) | Slot::Any(_) | Slot::Fixed(_) => true,
    })
}

/// Whether the numbers agree at each slot.
pub(crate) fn all_agree(
    alloc: Global,
    names: &Names,
    slots: &[Slot],
    left: &[u32],
    right: &[u32],
) -> Result<bool, NoMemory>
    requires left { All (λ n. n < length names.now) left.now }
    requires right { All (λ n. n < length names.now) right.now }
    requires left_count { length left.now ≡ length slots.now }
    requires right_count { length right.now ≡ length slots.now }
    ensures { IfOk result (λ b. b ≡ numbers_agree names.now slots.now left.now right.now) }
{
    for at in 0..slots.len() {
        if !agree(alloc, names, slots[at], left[at], right[at])? {
            return Ok(false);
        }
    }
    Ok(true)
}
