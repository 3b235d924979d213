//! What is known of all terms of a list, by several threads.
//!
//! A table that nobody changes may be asked by many threads at once. So they share out the look-ups of a long list among them,
//! and only the numbering, which has to go in the order of the list, is left to one thread.

ghost use Rattle.std.specs.Prelude.{◌≡◌, ◌<◌, ◌≤◌, ◌-◌, ◌^◌, IfOk, length};
ghost use Rattle.std.specs.Thread.{IsSync};
ghost use Rattle.term_table.specs.Known.{AreKnown};

use crate::ahead::{Ahead, GROUP};
use crate::known::Known;
use crate::marks::Marks;
use gk_base::NoMemory;
use std::alloc::Global;
use std::thread::{Threads, join};
use term_list::Terms;

/// For fewer terms a thread costs more than it saves.
pub(crate) const FEW: usize = 8_192;

/// What is known of the terms from one place up to another, which are looked up a group after another.
fn look_along(
    alloc: Global,
    marks: &Marks,
    names: &Terms,
    terms: &Terms,
    from: usize,
    to: usize,
) -> Result<Vec<Known>, NoMemory>
    requires ordered { from ≤ to }
    requires within { to ≤ length terms.now }
    requires few { length terms.now < 2 ^ 32 }
    ensures known { IfOk result (λ known. AreKnown names.now terms.now from known.items) }
    ensures one_each { IfOk result (λ known. length known.items ≡ to - from) }
{
    let mut ahead = Ahead::new(alloc);
    let mut known = Vec::with_capacity(alloc, to - from)?;
    let mut start = from;
    while start < to {
        let end = to.min(start + GROUP);
        ahead.look(marks, names, terms, from, end, &mut known)?;
        start = end;
    }
    Ok(known)
}

/// The same. With two threads or more, many terms are cut in two parts, as large as the threads that look at them are many.
/// Where a thread can't be started the caller does its work.
#[cycle(parts)]
pub(crate) fn look_in_threads<R: Threads + Sync>(
    rt: &R,
    alloc: Global,
    threads: u32,
    marks: &Marks,
    names: &Terms,
    terms: &Terms,
    from: usize,
    to: usize,
) -> Result<Vec<Known>, NoMemory>
    requires ordered { from ≤ to }
    requires within { to ≤ length terms.now }
    requires few { length terms.now < 2 ^ 32 }
    ensures known { IfOk result (λ known. AreKnown names.now terms.now from known.items) }
    ensures one_each { IfOk result (λ known. length known.items ≡ to - from) }
{
    if threads < 2 || to - from < FEW {
        return look_along(alloc, marks, names, terms, from, to);
    }
    let theirs = threads / 2;
    let ours = threads - theirs;
    let middle = to - (to - from) / threads as usize * theirs as usize;
    let lower = move || -> Result<Vec<Known>, NoMemory>
        requires shared { IsSync R.row }
        requires ordered { from ≤ middle }
        requires within { middle ≤ length terms.now }
        requires few { length terms.now < 2 ^ 32 }
        ensures known { IfOk result (λ known. AreKnown names.entry.now terms.entry.now from known.items) }
        ensures one_each { IfOk result (λ known. length known.items ≡ middle - from) }
    { look_in_threads(rt, alloc, ours, marks, names, terms, from, middle) };
    let upper = move || -> Result<Vec<Known>, NoMemory>
        requires shared { IsSync R.row }
        requires ordered { middle ≤ to }
        requires within { to ≤ length terms.now }
        requires few { length terms.now < 2 ^ 32 }
        ensures known { IfOk result (λ known. AreKnown names.entry.now terms.entry.now middle known.items) }
        ensures one_each { IfOk result (λ known. length known.items ≡ to - middle) }
    { look_in_threads(rt, alloc, theirs, marks, names, terms, middle, to) };
    let (low, high) = join(rt, lower, upper);
    let mut known = low?;
    let mut rest = high?;
    known.append(&mut rest)?;
    Ok(known)
}
