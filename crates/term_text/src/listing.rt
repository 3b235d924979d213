//! Which names are printed, and their texts.

ghost use Rattle.std.specs.Prelude.{◌≡◌, ◌≤◌, ◌-◌, IfOk, length};
ghost use Rattle.std.specs.Thread.{IsSync};
ghost use Rattle.term_text.specs.CanonicalText.{texts_of};
ghost use Rattle.term_text.specs.Labels.{is_shared_in};
ghost use Rattle.term_text.specs.Members.{members_for, members_within};
ghost use Rattle.term_text.specs.MemberTexts.{joined_members};

use crate::label_counts::LabelCounts;
use crate::member::Member;
use crate::member_texts::MemberTexts;
use gk_base::NoMemory;
use std::alloc::Global;
use std::thread::{Threads, join};
use term_table::Names;

/// Of fewer names than these a thread costs more than it saves.
const FEW: u32 = 4096;

/// Those names from one number up to another whose labels are shared, ascending by number.
fn members_between(
    alloc: Global,
    names: &Names,
    labels: &[u32],
    counts: &LabelCounts,
    from: u32,
    to: u32,
) -> Result<MemberTexts, NoMemory>
    requires labels { length labels.now ≡ length names.now }
    requires ordered { from ≤ to }
    requires within { to ≤ length names.now }
    ensures { IfOk result (λ v. v ≡ members_within (texts_of names.now) labels.now (is_shared_in counts.now) from (to - from)) }
{
    let mut members = MemberTexts::new(alloc);
    for place in from..to {
        let label = labels[place as usize];
        if counts.is_shared(label) {
            members.push(&names.term(place), label)?;
        }
    }
    Ok(members)
}

/// The same, in parts. With two threads or more, many names are cut in two halves, and the threads are shared out among them.
/// Where a thread can't be started the caller does its work.
#[cycle(halves)]
fn members_in_threads<R: Threads + Sync>(
    rt: &R,
    alloc: Global,
    threads: u32,
    names: &Names,
    labels: &[u32],
    counts: &LabelCounts,
    from: u32,
    to: u32,
) -> Result<Vec<MemberTexts>, NoMemory>
    requires labels { length labels.now ≡ length names.now }
    requires ordered { from ≤ to }
    requires within { to ≤ length names.now }
    ensures { IfOk result (λ v. joined_members v.items ≡ members_within (texts_of names.now) labels.now (is_shared_in counts.now) from (to - from)) }
{
    if threads < 2 || to - from < FEW {
        let part = members_between(alloc, names, labels, counts, from, to)?;
        return Ok(vec![in alloc; part]?);
    }
    let middle = from + (to - from) / 2;
    let theirs = threads / 2;
    let ours = threads - theirs;
    let lower = move || -> Result<Vec<MemberTexts>, NoMemory>
        requires shared { IsSync R.row }
        requires labels { length labels.now ≡ length names.now }
        requires ordered { from ≤ middle }
        requires within { middle ≤ length names.now }
        ensures { IfOk result (λ v. joined_members v.items ≡ members_within (texts_of names.entry.now) labels.entry.now (is_shared_in counts.entry.now) from (middle - from)) }
    { members_in_threads(rt, alloc, theirs, names, labels, counts, from, middle) };
    let upper = move || -> Result<Vec<MemberTexts>, NoMemory>
        requires shared { IsSync R.row }
        requires labels { length labels.now ≡ length names.now }
        requires ordered { middle ≤ to }
        requires within { to ≤ length names.now }
        ensures { IfOk result (λ v. joined_members v.items ≡ members_within (texts_of names.entry.now) labels.entry.now (is_shared_in counts.entry.now) middle (to - middle)) }
    { members_in_threads(rt, alloc, ours, names, labels, counts, middle, to) };
    let (low, high) = join(rt, lower, upper);
    let mut parts = low?;
    let mut rest = high?;
    parts.append(&mut rest)?;
    Ok(parts)
}

/// The names whose labels are shared, ascending by number, in parts. `threads` says how many threads may be used, the caller's
/// among them.
pub fn members_of_names<R: Threads + Sync>(
    rt: &R,
    alloc: Global,
    threads: u32,
    names: &Names,
    labels: &[u32],
    counts: &LabelCounts,
) -> Result<Vec<MemberTexts>, NoMemory>
    requires { length labels.now ≡ length names.now }
    ensures { IfOk result (λ v. joined_members v.items ≡ members_for (texts_of names.now) labels.now (is_shared_in counts.now)) }
{
    members_in_threads(rt, alloc, threads, names, labels, counts, 0, names.len())
}

/// The members of all parts, one part behind another, with their texts lent.
pub fn lent_members<'a>(
    alloc: Global,
    parts: &'a [MemberTexts],
) -> Result<Vec<Member<'a>>, NoMemory>
    ensures { IfOk result (λ v. v.items ≡ joined_members parts.now) }
{
    let mut members = Vec::new(alloc);
    for place in 0..parts.len() {
        parts[place].lend(&mut members)?;
    }
    Ok(members)
}
