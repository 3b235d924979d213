//! The names that are printed, with their texts and in their order.

ghost use Rattle.std.specs.Prelude.{◌≡◌, OnOk, length};
ghost use Rattle.std.specs.List.Sorted.{IsSortedBy, IsStableBy};
ghost use Rattle.term_text.specs.Members.{is_before};

use crate::lent_text::LentText;
use gk_base::NoMemory;
use rayon::prelude::*;
use std::alloc::Global;
use std::thread::Threads;

/// A name that may be printed, with its text.
#[derive(Drop)]
pub struct Member<'a> {
    pub text: LentText<'a>,
    pub label: u32,
}

/// Puts members in the order of their texts; members of equal texts stay in their order. With two threads or more, many members
/// are sorted by all processors.
pub fn sort_by_text<R: Threads + Sync>(
    rt: &R,
    alloc: Global,
    threads: u32,
    members: &mut [Member<'_>],
) -> Result<(), NoMemory>
    ensures sorted { OnOk result (IsSortedBy is_before members.new) }
    ensures stable { IsStableBy is_before members.old members.new }
    ensures len { length members.new ≡ length members.old }
{
    if threads < 2 {
        sort_alone(alloc, members)
    } else {
        sort_in_threads(rt, alloc, members)
    }
}

/// The same on the caller's thread.
fn sort_alone(alloc: Global, members: &mut [Member]) -> Result<(), NoMemory>
    ensures sorted { OnOk result (IsSortedBy is_before members.new) }
    ensures stable { IsStableBy is_before members.old members.new }
    ensures len { length members.new ≡ length members.old }
{
    members.sort_by(alloc, |a, b| a.text.bytes().cmp(b.text.bytes()))?;
    Ok(())
}

/// The same by all processors.
fn sort_in_threads<R: Threads + Sync>(
    rt: &R,
    alloc: Global,
    members: &mut [Member<'_>],
) -> Result<(), NoMemory>
    ensures sorted { OnOk result (IsSortedBy is_before members.new) }
    ensures stable { IsStableBy is_before members.old members.new }
    ensures len { length members.new ≡ length members.old }
{
    par_sort_by(
        rt,
        alloc,
        members,
        |a, b| a.text.bytes().cmp(b.text.bytes()),
    )?;
    Ok(())
}
