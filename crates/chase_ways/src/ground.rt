//! What was chased.

ghost use Rattle.std.specs.Prelude.{◌≡◌, ◌<◌, ◌^◌, length};

use chase_core::Setup;
use chase_laws::Pattern;
use std::marker::Model;
use typed_graph::Graph;

/// A graph with keys' patterns, by itself or in the setup of a chase by pairs.
#[derive(Drop)]
enum Held {
    Prepared(Setup),
    Plain(Graph, Vec<Pattern>),
}

/// What was chased: a graph, and keys' patterns over its numbers.
#[derive(Drop)]
pub struct Ground {
    held: Held,
}

impl Model for Ground {
    ghost use Rattle.chase_ways.specs.Ground.{GroundShape, ground_of};

    ghost Value = { GroundShape };

    ghost view = { λ g. ground_of g.held };
}

impl Ground {
    /// That of a setup.
    pub(crate) fn of_setup(setup: Setup) -> Ground
        ensures graph { result.graph ≡ setup.task.graph }
        ensures patterns { result.patterns ≡ setup.task.patterns }
    {
        Ground {
            held: Held::Prepared(setup),
        }
    }

    /// That of a graph and patterns.
    pub(crate) fn new(graph: Graph, patterns: Vec<Pattern>) -> Ground
        ensures graph { result.graph ≡ graph }
        ensures patterns { result.patterns ≡ patterns.items }
    {
        Ground {
            held: Held::Plain(graph, patterns),
        }
    }

    /// The graph.
    pub fn graph(&self) -> &Graph
        ensures { result.now ≡ self.now.graph }
    {
        match &self.held {
            Held::Prepared(setup) => setup.graph(),
            Held::Plain(graph, _) => graph,
        }
    }

    /// The keys' patterns.
    pub fn patterns(&self) -> &[Pattern]
        ensures { result.now ≡ self.now.patterns }
    {
        match &self.held {
            Held::Prepared(setup) => setup.patterns(),
            Held::Plain(_, patterns) => patterns,
        }
    }
}
