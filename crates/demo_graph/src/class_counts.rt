//! How many classes labels make, and how many members these have.

ghost use Rattle.std.specs.Prelude.{◌<◌, ◌^◌, ℕ, nat_eq, length, IfOk};
ghost use Rattle.std.specs.HashMap.{get};
ghost use Rattle.demo_graph.specs.Counts.{IsMemberCount, IsClassCount};
ghost use Rattle.demo_graph.specs.Spans.{IsNoted};

use gk_base::NoMemory;
use std::alloc::Global;
use std::collections::HashMap;

/// How many classes of two or more there are, and how many members they have together.
#[derive(Clone, Copy, Debug, PartialEq, Eq)]
pub struct ClassCounts {
    pub classes: u32,
    pub members: u32,
}

/// The first and the last place of a label.
#[derive(Clone, Copy)]
struct Span {
    first: usize,
    last: usize,
}

/// The counts of the classes of two or more that labels make: two places are in one class where their labels are equal. There
/// are fewer than 2^32 labels, which may be any numbers. The time is about linear in how many they are.
pub fn count_classes(alloc: Global, labels: &[u32]) -> Result<ClassCounts, NoMemory>
    requires { length labels.now < 2 ^ 32 }
    ensures classes { IfOk result (λ counts. IsClassCount labels.now counts.classes) }
    ensures members { IfOk result (λ counts. IsMemberCount labels.now counts.members) }
{
    let spans = spans_of(alloc, labels)?;
    let mut classes = 0u32;
    let mut members = 0u32;
    for (place, label) in labels.iter().enumerate() {
        if let Some(span) = spans.get(label) {
            if span.first < span.last {
                members += 1;
                // A class is counted at its first member.
                if span.first == place {
                    classes += 1;
                }
            }
        }
    }
    Ok(ClassCounts { classes, members })
}

/// The first and the last place of each label.
fn spans_of(alloc: Global, labels: &[u32]) -> Result<HashMap<u32, Span>, NoMemory>
    ensures { IfOk result (λ spans. (label : ℕ) → IsNoted labels.now (length labels.now) label (get nat_eq spans label)) }
{
    let mut spans: HashMap<u32, Span> = HashMap::new(alloc);
    for (place, label) in labels.iter().enumerate() {
        let first = match spans.get(label) {
            Some(span) => span.first,
            None => place,
        };
        spans.insert(*label, Span { first, last: place })?;
    }
    Ok(spans)
}
