//! The lines of the classes, one for each class of two or more.

ghost use Rattle.std.specs.Prelude.{◌≡◌, ◌++◌, ◌<◌, ◌≤◌, ◌^◌, [], IfOk, OnOk, length};
ghost use Rattle.std.specs.Thread.{IsSync};
ghost use Rattle.term_text.specs.Lines.{IsLinked, lines_after, lines_from, class_text, class_from};

use crate::links::Links;
use crate::member::Member;
use gk_base::NoMemory;
use std::alloc::Global;
use std::thread::{Threads, join};

/// Of fewer members than these a thread costs more than it saves.
const FEW: usize = 4096;

/// A place between two others, up to which half of the members stand that others of their class follow. At any other place the
/// lines could be cut as well; at this one both parts are about as long.
fn halfway(links: &Links, from: usize, to: usize) -> usize
    requires ordered { from ≤ to }
    requires within { to ≤ length links.now.next.items }
    ensures from { from ≤ result }
    ensures to { result ≤ to }
{
    let following = &links.next[from..to];
    let half = following.iter().filter(|next| next.is_some()).count() / 2;
    let mut passed = 0;
    for place in from..to {
        if passed >= half {
            return place;
        }
        if links.next[place].is_some() {
            passed += 1;
        }
    }
    to
}

/// The lines of the classes whose first members stand from one place up to another.
fn lines_between(
    alloc: Global,
    members: &[Member<'_>],
    links: &Links,
    from: usize,
    to: usize,
) -> Result<Vec<u8>, NoMemory>
    requires linked { IsLinked links.now members.now }
    requires few { length members.now < 2 ^ 32 }
    requires ordered { from ≤ to }
    requires within { to ≤ length members.now }
    ensures { IfOk result (λ v. v.items ++ lines_from members.now to ≡ lines_from members.now from) }
{
    let mut out = Vec::new(alloc);
    for place in from..to {
        if links.firsts.place(members[place].label) == Some(place as u32) {
            put_line(&mut out, members, links, place)?;
        }
    }
    Ok(out)
}

/// The same. With two threads or more, many places are cut in two, so that both parts have about as much to print, and the
/// threads are shared out among them. Where a thread can't be started the caller does its work.
#[cycle(halves)]
fn lines_in_threads<R: Threads + Sync>(
    rt: &R,
    alloc: Global,
    threads: u32,
    members: &[Member<'_>],
    links: &Links,
    from: usize,
    to: usize,
) -> Result<Vec<u8>, NoMemory>
    requires linked { IsLinked links.now members.now }
    requires few { length members.now < 2 ^ 32 }
    requires ordered { from ≤ to }
    requires within { to ≤ length members.now }
    ensures { IfOk result (λ v. v.items ++ lines_from members.now to ≡ lines_from members.now from) }
{
    if threads < 2 || to - from < FEW {
        return lines_between(alloc, members, links, from, to);
    }
    let middle = halfway(links, from, to);
    let theirs = threads / 2;
    let ours = threads - theirs;
    let lower = move || -> Result<Vec<u8>, NoMemory>
        requires shared { IsSync R.row }
        requires linked { IsLinked links.now members.now }
        requires few { length members.now < 2 ^ 32 }
        requires ordered { from ≤ middle }
        requires within { middle ≤ length members.now }
        ensures { IfOk result (λ v. v.items ++ lines_from members.entry.now middle ≡ lines_from members.entry.now from) }
    { lines_in_threads(rt, alloc, ours, members, links, from, middle) };
    let upper = move || -> Result<Vec<u8>, NoMemory>
        requires shared { IsSync R.row }
        requires linked { IsLinked links.now members.now }
        requires few { length members.now < 2 ^ 32 }
        requires ordered { middle ≤ to }
        requires within { to ≤ length members.now }
        ensures { IfOk result (λ v. v.items ++ lines_from members.entry.now to ≡ lines_from members.entry.now middle) }
    { lines_in_threads(rt, alloc, theirs, members, links, middle, to) };
    let (low, high) = join(rt, lower, upper);
    let mut lines = low?;
    let mut rest = high?;
    lines.append(&mut rest)?;
    Ok(lines)
}

/// The lines of all classes of two or more members, by their first members. `threads` says how many threads may be used, the
/// caller's among them.
pub fn class_lines<R: Threads + Sync>(
    rt: &R,
    alloc: Global,
    threads: u32,
    members: &[Member<'_>],
    links: &Links,
) -> Result<Vec<u8>, NoMemory>
    requires linked { IsLinked links.now members.now }
    requires few { length members.now < 2 ^ 32 }
    ensures { IfOk result (λ v. v.items ≡ lines_after [] members.now) }
{
    let lines = lines_in_threads(rt, alloc, threads, members, links, 0, members.len())?;
    Ok(lines)
}

/// Appends the line of the class that begins at this place, or nothing where the class has no other member.
fn put_line(
    out: &mut Vec<u8>,
    members: &[Member<'_>],
    links: &Links,
    place: usize,
) -> Result<(), NoMemory>
    requires linked { IsLinked links.now members.now }
    requires in_range { place < length members.now }
    ensures { OnOk result (out.new.items ≡ out.old.items ++ class_text (class_from members.now place)) }
{
    let Some(mut following) = links.next[place] else {
        return Ok(());
    };
    out.extend_from_slice(members[place].text.bytes())?;
    loop {
        out.push(b' ')?;
        out.extend_from_slice(members[following as usize].text.bytes())?;
        match links.next[following as usize] {
            Some(further) => following = further,
            None => break,
        }
    }
    out.push(b'\n')?;
    Ok(())
}
