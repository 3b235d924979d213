//! The report of classes.

ghost use Rattle.std.specs.Prelude.{◌≡◌, ◌==◌, ◌<◌, ◌^◌, IfOk, length, slice_index};
ghost use Rattle.chase_laws.specs.Report.{report_text};
ghost use Rattle.term_text.specs.CanonicalText.{texts_of};
ghost use Rattle.term_text.specs.Members.{Prints};

use crate::Report;
use crate::label_counts::LabelCounts;
use crate::lines::class_lines;
use crate::links::link;
use crate::listing::{lent_members, members_of_names};
use crate::member::{Member, sort_by_text};
use gk_base::NoMemory;
use std::alloc::Global;
use std::thread::Threads;
use term_table::Names;

/// The report of the classes of names with equal labels: one line for each class of two or more, with the members'
/// canonical texts in the order of their bytes and single spaces between them. The lines are in the order of their
/// first members. A label may be any number; labels below the number of names cost least. `threads` says how many threads may
/// make the texts and the lines, the caller's among them; with two or more all processors may sort the texts. The report is
/// the same.
pub fn report<R: Threads + Sync>(
    rt: &R,
    alloc: Global,
    threads: u32,
    names: &Names,
    labels: &[u32],
) -> Result<Report, NoMemory>
    requires { length labels.now ≡ length names.now }
    ensures { IfOk result (λ r. r ≡ report_text (texts_of names.now)
        (λ a b. slice_index labels.now a == slice_index labels.now b)) }
{
    let counts = LabelCounts::of_labels(alloc, labels)?;
    let parts = members_of_names(rt, alloc, threads, names, labels, &counts)?;
    let mut members = lent_members(alloc, &parts)?;
    report_of_members(rt, alloc, threads, names.len(), &mut members)
}

/// The report of these members, which come by number. It leaves them in the order of their texts. Labels below this number cost
/// least.
fn report_of_members<R: Threads + Sync>(
    rt: &R,
    alloc: Global,
    threads: u32,
    labels: u32,
    members: &mut [Member<'_>],
) -> Result<Report, NoMemory>
    requires few { length members.old < 2 ^ 32 }
    ensures { IfOk result (λ r. Prints members.old r) }
{
    sort_by_text(rt, alloc, threads, members)?;
    let links = link(alloc, members, labels)?;
    let bytes = class_lines(rt, alloc, threads, members, &links)?;
    Ok(Report::from_vec(bytes))
}
