//! Which entries of a journal lead from one name to another.

ghost use Rattle.std.specs.Prelude.{◌≡◌, ◌<◌, ◌≤◌, ◌↔◌, IsTrue, IsSome, IfOk, IfSome, All, length, take, nat_eq};
ghost use Rattle.chase_laws.specs.Joined.{links, Joined};
ghost use Rattle.proof_file.specs.Leads.{links_lead};
ghost use Rattle.proof_file.specs.Steps.{NoneTwice};
ghost use Rattle.proof_graph.specs.Way.{way};
ghost use Rattle.proof_graph.specs.Tree.{never};

use crate::parts::put_way;
use crate::trees::{are_joined, grown};
use chase_laws::Entry;
use gk_base::NoMemory;
use std::alloc::Global;

/// A number above these two names and those of a journal.
pub(crate) fn above_all(journal: &[Entry], a: u32, b: u32) -> usize
    ensures a { a < result }
    ensures b { b < result }
    ensures ends { All (λ e. (e.a < result) × (e.b < result)) journal.now }
{
    let mut above = a.max(b) as usize + 1;
    for entry in journal {
        above = above.max(entry.a.max(entry.b) as usize + 1);
    }
    above
}

/// The places of the way between two names, if a journal joins them.
fn way_of(alloc: Global, journal: &[Entry], a: u32, b: u32) -> Result<Option<Vec<u32>>, NoMemory>
    requires { length journal.now ≤ never }
    ensures some { IfOk result (λ o. IsSome o ↔ Joined journal.now a b) }
    ensures way { IfOk result (λ o. IfSome o (λ places. places.items ≡ way (links journal.now) (length journal.now) a b)) }
{
    let nodes = grown(alloc, journal, above_all(journal, a, b))?;
    if !are_joined(journal, &nodes, a, b) {
        return Ok(None);
    }
    let mut places = Vec::new(alloc);
    put_way(alloc, journal, &nodes, a, b, &mut places)?;
    Ok(Some(places))
}

/// The places of the entries below `upto` that lead from `a` to `b`, in order, each place once. `None` exactly where
/// those entries do not join the two.
pub fn support(
    alloc: Global,
    journal: &[Entry],
    upto: u32,
    a: u32,
    b: u32,
) -> Result<Option<Vec<u32>>, NoMemory>
    requires { upto ≤ length journal.now }
    ensures some { IfOk result (λ o. IsSome o ↔ Joined (take upto journal.now) a b) }
    ensures leads { IfOk result (λ o. IfSome o (λ places. IsTrue (links_lead nat_eq (links (take upto journal.now)) places.items a b))) }
    ensures below { IfOk result (λ o. IfSome o (λ places. All (λ p. p < upto) places.items)) }
    ensures once { IfOk result (λ o. IfSome o (λ places. NoneTwice places.items)) }
{
    way_of(alloc, &journal[..upto as usize], a, b)
}
