//! Ways along a journal.

ghost use Rattle.std.specs.Prelude.{◌≡◌, ◌<◌, ◌^◌, ◌++◌, true, IfOk, OnOk, OnErr, length};
ghost use Rattle.chase_laws.specs.Joined.{joined_by, links};
ghost use Rattle.proof_graph.specs.Way.{way};

use crate::parts::put_way;
use crate::supports::above_all;
use crate::trees::{Node, are_joined, grown};
use chase_laws::Entry;
use gk_base::NoMemory;
use std::alloc::Global;
use std::marker::Model;

/// A journal with what finds the ways between names along its entries, each in a time that its length tells. Contracts
/// see the journal.
#[derive(Drop)]
pub struct Ways<'a> {
    journal: &'a [Entry],
    nodes: Vec<Node>,
}

impl<'a> Model for Ways<'a> {
    ghost use Rattle.std.specs.Prelude.{List};
    ghost use Rattle.chase_laws.specs.declared.entry.Entry.{Entry};
    ghost use Rattle.proof_graph.specs.Tree.{FindWays};

    ghost Value = { List Entry };

    ghost view = { λ w. w.journal.now };

    ghost invariant = { λ w. FindWays w.journal.now w.nodes.items };
}

impl<'a> Ways<'a> {
    /// The ways along this journal.
    pub fn new(alloc: Global, journal: &'a [Entry]) -> Result<Ways<'a>, NoMemory>
        requires { length journal.now < 2 ^ 32 }
        ensures { IfOk result (λ w. w ≡ journal.now) }
    {
        let nodes = grown(alloc, journal, above_all(journal, 0, 0))?;
        Ok(Ways { journal, nodes })
    }

    /// Whether the journal joins two names.
    pub fn joins(&self, a: u32, b: u32) -> bool
        ensures { result ≡ joined_by self.now a b }
    {
        let count = self.nodes.len();
        if a as usize >= count || b as usize >= count {
            return a == b;
        }
        are_joined(self.journal, &self.nodes, a, b)
    }

    /// Puts the places of the entries on the way between two joined names at the end, in order. After `NoMemory` the list holds
    /// what it held before.
    pub fn put(&self, alloc: Global, a: u32, b: u32, places: &mut Vec<u32>) -> Result<(), NoMemory>
        requires { joined_by self.now a b ≡ true }
        ensures ok { OnOk result (places.new.items ≡ places.old.items ++ way (links self.now) (length self.now) a b) }
        ensures err { OnErr result (places.new.items ≡ places.old.items) }
    {
        if a == b {
            return Ok(());
        }
        let before = places.len();
        let done = put_way(alloc, self.journal, &self.nodes, a, b, places);
        if done.is_err() {
            places.truncate(before);
        }
        done
    }
}
