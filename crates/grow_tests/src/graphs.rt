//! A graph, and the graph with more rows.

ghost use Rattle.std.specs.Prelude.{List, IfOk};
ghost use Rattle.chase_laws.specs.Shape.{Shape};
ghost use Rattle.chase_laws.specs.SameRows.{HasRowsOf};

use fixtures::GraphTable;
use std::alloc::Global;
use std::test::Fail;
use typed_graph::Graph;

/// The graph of a table, and the graph that has the added rows too.
pub fn graphs_of(
    alloc: Global,
    table: &GraphTable<'_>,
    added: &[[u32; 3]],
) -> Result<(Graph, Graph), Fail>
    ensures { IfOk result (λ g. (K : List Shape) → HasRowsOf K g.0 g.1) }
{
    let mut rows = Vec::from_slice(alloc, table.rows)?;
    rows.extend_from_slice(added)?;
    let whole = GraphTable {
        rows: &rows,
        ..*table
    };
    let first = table.build(alloc)?;
    let both = whole.build(alloc)?;
    Ok((first, both))
}
