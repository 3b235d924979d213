//! The line of the demo.

ghost use Rattle.std.specs.Prelude.{◌≡◌, IfOk};
ghost use Rattle.demo_graph.specs.DemoLine.{demo_line_text};

use crate::ClassCounts;
use gk_base::NoMemory;
use std::alloc::Global;

/// The line that the demo prints: the numbers of distinct triples and of candidate pairs, and the counts of classes.
pub fn demo_line(
    alloc: Global,
    triples: u64,
    pairs: u64,
    counts: ClassCounts,
) -> Result<Vec<u8>, NoMemory>
    ensures { IfOk result (λ line. line.items ≡ demo_line_text triples pairs counts.classes counts.members) }
{
    let ClassCounts { classes, members } = counts;
    let line = format!(in alloc;
        "triples {triples} pairs {pairs} classes {classes} members {members}\n"
    )?;
    Ok(line.into_bytes())
}
