//! Whether two names can go together at a slot, by what each is: what pairing to depth 0 asks.

ghost use Rattle.std.specs.Prelude.{◌<◌, ◌↔◌, IsTrue, length};
ghost use Rattle.chase_laws.specs.Graph.{IsLiteral, AreAlike};
ghost use Rattle.chase_laws.specs.Valuation.{FitsSlot};
ghost use Rattle.chase_laws.specs.Pairing.{GoTogether, PairedHere};

use crate::parts::slot_at;
use chase_laws::{Pattern, Slot};
use typed_graph::Graph;

/// Whether two literals are alike.
fn are_alike(graph: &Graph, u: u32, w: u32) -> bool
    requires left { IsLiteral graph.now u }
    requires right { IsLiteral graph.now w }
    ensures { IsTrue result ↔ AreAlike graph.now u w }
{
    graph.alike(u) == graph.alike(w)
}

/// Whether two names that may stand at a slot can go together there.
fn go_together(graph: &Graph, slot: Slot, u: u32, w: u32) -> bool
    requires left { FitsSlot graph.now slot u }
    requires right { FitsSlot graph.now slot w }
    ensures { IsTrue result ↔ GoTogether graph.now slot u w }
{
    match slot {
        Slot::Entity(_) | Slot::Any(_) => true,
        Slot::Value => u == w,
        Slot::Folded => are_alike(graph, u, w),
        Slot::Fixed(_) => u == w,
    }
}

/// Whether two names may stand at slot `s`, and can go together there.
pub(crate) fn are_here(graph: &Graph, pattern: &Pattern, s: u8, u: u32, w: u32) -> bool
    requires { s < length pattern.now.slots }
    ensures { IsTrue result ↔ PairedHere graph.now pattern.now s u w }
{
    let slot = slot_at(pattern, s);
    if !graph.fits_slot(slot, u) || !graph.fits_slot(slot, w) {
        return false;
    }
    go_together(graph, slot, u, w)
}
