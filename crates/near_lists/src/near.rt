//! Near lists, and the owners: the same lists turned round.

ghost use Rattle.std.specs.Prelude.{◌≡◌, ◌<◌, ◌↔◌, ℕ, All, Contains, IfOk, length};
ghost use Rattle.std.specs.List.Sorted.{IsStrictlyIncreasing};
ghost use Rattle.list_pool.specs.Pool.{list_at};
ghost use Rattle.near_lists.specs.Neighbourhoods.{AreNearNames, HasImages};

use crate::entities::{rows_along, tours};
use crate::rows::Rows;
use crate::turn::turned;
use chase_laws::laws::{law_local, law_pattern};
use chase_laws::{Pattern, all_valid};
use gk_base::NoMemory;
use std::alloc::Global;
use std::marker::Model;
use typed_graph::Graph;

/// For each name the entities near to it, and the names that it is near to. An entity n is near to e where some key can
/// look at n from e: e is fit for slot 0 of the key's pattern, and a walk along edges of the pattern, each leading one
/// further away from slot 0, ends with n at an entity variable. The graph has the row of each edge, in its direction, and
/// each name on the way is fit for its slot.
#[derive(Drop)]
pub struct Near {
    near: Rows,
    owners: Rows,
}

impl Model for Near {
    ghost use Rattle.near_lists.specs.Neighbourhoods.{Neighbourhoods, AreNeighbourhoods};

    ghost Value = { Neighbourhoods };

    ghost view = { λ n. record { near = n.near; owners = n.owners } };

    ghost invariant = { λ n. AreNeighbourhoods n.near n.owners };
}

impl Near {
    /// Finds what is near to each name of the graph: what a key looks at from an entity is in its list. Time goes with the
    /// rows that the walks pass, and memory with the lists and with the walks from one name. Fails only for want of memory.
    pub fn build(alloc: Global, graph: &Graph, patterns: &[Pattern]) -> Result<Near, NoMemory>
        ensures names { IfOk result (λ n. AreNearNames graph.now patterns.now n.near) }
        ensures images { IfOk result (λ n. HasImages graph.now patterns.now n.near) }
    {
        // Facts for the proof: the images of a valuation are near to the first of them, which is that of an entity variable.
        law_local();
        law_pattern();
        all_valid(patterns);
        let names = graph.names();
        let tours = tours(alloc, patterns)?;
        let near = rows_along(alloc, graph, patterns, &tours, names)?;
        let owners = turned(alloc, &near, names)?;
        Ok(Near { near, owners })
    }

    /// The entities near to a name, ascending without repeats. An entity of which some key designates a type is near to
    /// itself; any other name has an empty list.
    pub fn near(&self, e: u32) -> &[u32]
        requires { e < length self.now.near }
        ensures list { result.now ≡ list_at self.now.near e }
        ensures ascending { IsStrictlyIncreasing result.now }
        ensures named { All (λ m. m < length self.now.near) result.now }
    {
        self.near.of(e as usize)
    }

    /// The names whose near list has `n`, ascending without repeats.
    pub fn owners(&self, n: u32) -> &[u32]
        requires { n < length self.now.near }
        ensures list { result.now ≡ list_at self.now.owners n }
        ensures ascending { IsStrictlyIncreasing result.now }
        ensures exact { (e : ℕ) →
            Contains result.now e ↔ ((e < length self.now.near) × Contains (list_at self.now.near e) n) }
    {
        self.owners.of(n as usize)
    }

    /// How many names there are. The names are the numbers below.
    pub fn names(&self) -> u32
        ensures names { result ≡ length self.now.near }
        ensures as_many { length self.now.owners ≡ length self.now.near }
    {
        self.near.len() as u32
    }
}
