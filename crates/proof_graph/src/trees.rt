//! Names in trees, by which it is seen which entries of a journal join them. An entry whose ends are in two trees hangs the
//! top of the lower one below the top of the other, with the entry's place. So places rise on the way up, and two names are
//! joined by the entries before a place where the ways up from them meet before it. An entry whose ends are joined already
//! changes nothing.

ghost use Rattle.std.specs.Prelude.{◌≡◌, ◌<◌, ◌≤◌, ◌+◌, IfOk, All, length};
ghost use Rattle.chase_laws.specs.Joined.{joined_by, links};
ghost use Rattle.proof_graph.specs.Tree.{IsForest, Climbs, Hangs, AreTreesOf, AreLone, never};

use chase_laws::Entry;
use gk_base::NoMemory;
use std::alloc::Global;

/// A place at which there is no entry.
pub(crate) const NEVER: u32 = 4294967295;

/// A name in a tree.
#[derive(Clone, Copy)]
pub(crate) struct Node {
    /// The name above it.
    pub(crate) above: u32,
    /// The place of the entry that hung it there, or `NEVER` at the top.
    pub(crate) since: u32,
    /// Whether that entry's end on this side is `b`.
    pub(crate) by_b: bool,
    /// More than the ranks below it, so that no way up is long.
    pub(crate) rank: u8,
}

/// Names, each in a tree of its own.
fn lone_nodes(alloc: Global, count: usize) -> Result<Vec<Node>, NoMemory>
    ensures lone { IfOk result (λ nodes. AreLone nodes.items) }
    ensures count { IfOk result (λ nodes. length nodes.items ≡ count) }
{
    let node = Node {
        above: 0,
        since: NEVER,
        by_b: false,
        rank: 0,
    };
    Ok(vec![in alloc; node; count]?)
}

/// The top of the tree of a name.
fn top(nodes: &[Node], at: u32) -> u32
    requires forest { IsForest nodes.now }
    requires inside { at < length nodes.now }
    ensures climbs { Climbs nodes.now never at result }
    ensures inside { result < length nodes.now }
{
    let mut top = at;
    while nodes[top as usize].since < NEVER {
        top = nodes[top as usize].above;
    }
    top
}

/// Hangs one top below another, by the entry at the place `since`.
fn hang(nodes: &mut [Node], below: u32, above: u32, since: u32, by_b: bool)
    requires below { below < length nodes.old }
    requires above { above < length nodes.old }
    ensures { Hangs nodes.old nodes.new below above since by_b }
{
    let rank = nodes[below as usize].rank;
    if nodes[above as usize].rank == rank {
        nodes[above as usize].rank = rank.saturating_add(1);
    }
    nodes[below as usize] = Node {
        above,
        since,
        by_b,
        rank,
    };
}

/// Joins the ends of the entry at a place.
fn join(journal: &[Entry], nodes: &mut [Node], place: u32)
    requires trees { AreTreesOf (links journal.now) nodes.old place }
    requires inside { place < length journal.now }
    requires ends { All (λ e. (e.a < length nodes.old) × (e.b < length nodes.old)) journal.now }
    requires small { place < never }
    ensures { AreTreesOf (links journal.now) nodes.new (place + 1) }
{
    let entry = &journal[place as usize];
    let a = top(nodes, entry.a);
    let b = top(nodes, entry.b);
    if a == b {
        return;
    }
    if nodes[a as usize].rank < nodes[b as usize].rank {
        hang(nodes, a, b, place, false);
    } else {
        hang(nodes, b, a, place, true);
    }
}

/// The trees of the names below `count`, for all entries of a journal.
pub(crate) fn grown(alloc: Global, journal: &[Entry], count: usize) -> Result<Vec<Node>, NoMemory>
    requires ends { All (λ e. (e.a < count) × (e.b < count)) journal.now }
    requires small { length journal.now ≤ never }
    ensures trees { IfOk result (λ nodes. AreTreesOf (links journal.now) nodes.items (length journal.now)) }
    ensures count { IfOk result (λ nodes. length nodes.items ≡ count) }
{
    let mut nodes = lone_nodes(alloc, count)?;
    for place in 0..journal.len() as u32 {
        join(journal, &mut nodes, place);
    }
    Ok(nodes)
}

/// Whether the journal joins two names.
pub(crate) fn are_joined(journal: &[Entry], nodes: &[Node], a: u32, b: u32) -> bool
    requires trees { AreTreesOf (links journal.now) nodes.now (length journal.now) }
    requires a { a < length nodes.now }
    requires b { b < length nodes.now }
    requires small { length journal.now ≤ never }
    ensures { result ≡ joined_by journal.now a b }
{
    let _count = journal.len();
    top(nodes, a) == top(nodes, b)
}
