//! Where two names come together in the trees. Of two ways up the one goes on that was hung earlier, so the last name that
//! was passed is the one that was hung by the entry which joined the two.

ghost use Rattle.std.specs.Prelude.{◌≡◌, ◌<◌, ◌≤◌, ◌⊎◌, false, IfSome, IfNone, length};
ghost use Rattle.chase_laws.specs.Joined.{joined_by, links};
ghost use Rattle.proof_graph.specs.Tree.{AreTreesOf, since, never, Sees, Meets};

use crate::trees::{NEVER, Node};
use chase_laws::Entry;

/// Where two names come together: the place of the entry that joined them, its end on the side of the first name, and the
/// other one.
#[derive(Clone, Copy)]
pub(crate) struct Meeting {
    pub(crate) place: u32,
    pub(crate) near: u32,
    pub(crate) far: u32,
}

/// The entry that hung a name, as seen from that name's side, or from the other one.
fn seen(journal: &[Entry], nodes: &[Node], below: u32, from_below: bool) -> Meeting
    requires below { below < length nodes.now }
    requires place { since nodes.now below < length journal.now }
    ensures { Sees journal.now nodes.now below from_below result }
{
    let node = &nodes[below as usize];
    let entry = &journal[node.since as usize];
    let (near, far) = if node.by_b == from_below {
        (entry.b, entry.a)
    } else {
        (entry.a, entry.b)
    };
    Meeting {
        place: node.since,
        near,
        far,
    }
}

/// Where two names come together, if they are two and do.
pub(crate) fn meet(journal: &[Entry], nodes: &[Node], x: u32, y: u32) -> Option<Meeting>
    requires trees { AreTreesOf (links journal.now) nodes.now (length journal.now) }
    requires x { x < length nodes.now }
    requires y { y < length nodes.now }
    requires small { length journal.now ≤ never }
    ensures some { IfSome result (λ m. Meets (links journal.now) x y m) }
    ensures none { IfNone result ((x ≡ y) ⊎ (joined_by journal.now x y ≡ false)) }
{
    if x == y {
        return None;
    }
    let mut of_x = x;
    let mut of_y = y;
    let mut below = x;
    let mut from_x = true;
    while of_x != of_y {
        let since_x = nodes[of_x as usize].since;
        let since_y = nodes[of_y as usize].since;
        if since_x < since_y {
            below = of_x;
            from_x = true;
            of_x = nodes[of_x as usize].above;
        } else if since_y < NEVER {
            below = of_y;
            from_x = false;
            of_y = nodes[of_y as usize].above;
        } else {
            return None;
        }
    }
    Some(seen(journal, nodes, below, from_x))
}
