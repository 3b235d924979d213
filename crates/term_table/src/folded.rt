//! The literals of a list with the case of their letters folded, by several threads.
//!
//! What a literal folds to is asked of it alone, so threads share out the list. Each puts what its literals fold to into a
//! list of its own, and these are joined in order.

ghost use Rattle.std.specs.Prelude.{◌≡◌, ◌≤◌, true, ◌++◌, ◌∷◌, [], IfOk, OnOk, length, slice_range};
ghost use Rattle.std.specs.Thread.{IsSync};
ghost use Rattle.gk_base.specs.Term.{is_literal};
ghost use Rattle.term_table.specs.Folding.{folded_form, folded_term, folded_literals};

use caseless::default_case_fold_str;
use gk_base::{NoMemory, Text};
use std::alloc::Global;
use std::thread::{Threads, join};
use term_list::{TermRef, Terms};

/// For fewer terms a thread costs more than it saves.
const FEW: usize = 4_096;

// A lexical form with its case folded. Bytes that are not UTF-8 stay as they are.
fn folded_form(alloc: Global, form: &[u8]) -> Result<Text, NoMemory>
    ensures { IfOk result (λ text. text ≡ folded_form form.now) }
{
    // Of ASCII, as most texts are, letters alone fold, and each to its small one: no table is asked.
    if form.is_ascii() {
        return Ok(Text::from_vec(form.to_ascii_lowercase(alloc)?));
    }
    match str::from_utf8(form) {
        Ok(text) => {
            let folded = default_case_fold_str(alloc, text)?;
            Ok(Text::from_vec(folded.into_bytes()))
        }
        Err(_) => Text::from_bytes(alloc, form),
    }
}

// Puts a literal at the end of a list, with its lexical form folded.
fn push_folded(alloc: Global, literal: &TermRef<'_>, folded: &mut Terms) -> Result<(), NoMemory>
    requires { is_literal literal.now ≡ true }
    ensures { OnOk result (folded.new ≡ folded.old ++ folded_term literal.now ∷ []) }
{
    let form = folded_form(alloc, literal.first())?;
    folded.push(&TermRef::new(literal.kind(), form.bytes(), literal.second()))
}

/// The literals from one place of a list up to another, folded.
fn fold_along(alloc: Global, terms: &Terms, from: usize, to: usize) -> Result<Terms, NoMemory>
    requires ordered { from ≤ to }
    requires within { to ≤ length terms.now }
    ensures { IfOk result (λ folded. folded ≡ folded_literals (slice_range terms.now from to)) }
{
    let mut folded = Terms::new(alloc);
    for place in from..to {
        let term = terms.get(place);
        if term.is_literal() {
            push_folded(alloc, &term, &mut folded)?;
        }
    }
    Ok(folded)
}

/// The same. With two threads or more, many terms are cut in two parts, as large as the threads that fold them are many. Where a
/// thread can't be started the caller does its work.
#[cycle(parts)]
pub(crate) fn fold_in_threads<R: Threads + Sync>(
    rt: &R,
    alloc: Global,
    threads: u32,
    terms: &Terms,
    from: usize,
    to: usize,
) -> Result<Terms, NoMemory>
    requires ordered { from ≤ to }
    requires within { to ≤ length terms.now }
    ensures { IfOk result (λ folded. folded ≡ folded_literals (slice_range terms.now from to)) }
{
    if threads < 2 || to - from < FEW {
        return fold_along(alloc, terms, from, to);
    }
    let theirs = threads / 2;
    let ours = threads - theirs;
    let middle = to - (to - from) / threads as usize * theirs as usize;
    let lower = move || -> Result<Terms, NoMemory>
        requires shared { IsSync R.row }
        requires ordered { from ≤ middle }
        requires within { middle ≤ length terms.now }
        ensures { IfOk result (λ folded. folded ≡ folded_literals (slice_range terms.entry.now from middle)) }
    { fold_in_threads(rt, alloc, ours, terms, from, middle) };
    let upper = move || -> Result<Terms, NoMemory>
        requires shared { IsSync R.row }
        requires ordered { middle ≤ to }
        requires within { to ≤ length terms.now }
        ensures { IfOk result (λ folded. folded ≡ folded_literals (slice_range terms.entry.now middle to)) }
    { fold_in_threads(rt, alloc, theirs, terms, middle, to) };
    let (low, high) = join(rt, lower, upper);
    let mut folded = low?;
    let rest = high?;
    folded.append(&rest)?;
    Ok(folded)
}
