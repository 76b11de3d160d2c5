//! How a split graph is made from a source.
ghost use Rattle.std.specs.Prelude.{◌≡◌, ◌+◌, ◌<◌, ◌≤◌, false};
ghost use Rattle.plan.specs.Limits.{most_measures};
ghost use Rattle.plan.specs.Plan.{scope};
ghost use Rattle.graph.specs.Read.{edges};
ghost use Rattle.graph.specs.Split.{most_nodes, split, joined, linked_to};

use crate::set::{MOST_NODES, NumberSet};
use crate::split::SplitGraph;
use plan::Source;

impl SplitGraph {
    /// The split graph of a source's plan.
    pub fn of<S: Source>(source: &S) -> SplitGraph
        ensures count { result.count ≡ (S.Source.plan source.now).count }
        ensures edges { edges result ≡ split (S.Source.plan source.now) }
    {
        let count = source.count();
        let mut graph = SplitGraph::edgeless(count as usize);
        for table in 0..count {
            graph.link_table(source, table);
        }
        graph
    }

    /// The graph of `count` measures with no edge.
    fn edgeless(count: usize) -> SplitGraph
        requires { count ≤ most_measures }
        ensures count { result.count ≡ count }
        ensures edges { edges result ≡ (λ _ _. false) }
    {
        SplitGraph {
            count,
            rows: [NumberSet::empty(); MOST_NODES],
        }
    }

    /// Links the table node of `table` to the value nodes of the measures that it reads.
    fn link_table<S: Source>(&mut self, source: &S, table: u8)
        requires same_plan { self.old.count ≡ (S.Source.plan source.now).count }
        requires table_in_bounds { table < self.old.count }
        ensures count { self.new.count ≡ self.old.count }
        ensures edges { edges self.new ≡ linked_to (edges self.old) (self.old.count + table) (scope (S.Source.plan source.now) table) }
    {
        let table_node = self.count + table as usize;
        for position in 0..source.drivers(table) {
            if let Some(driver) = source.driver(table, position) {
                self.link(table_node, driver as usize);
            }
        }
        self.link(table_node, table as usize);
    }

    /// Marks the edge between `x` and `y`.
    fn link(&mut self, x: usize, y: usize)
        requires x_in_bounds { x < most_nodes }
        requires y_in_bounds { y < most_nodes }
        ensures count { self.new.count ≡ self.old.count }
        ensures edges { edges self.new ≡ joined (edges self.old) x y }
    {
        // by a name of its own: a change through a field and an index at once is not followed
        let rows = &mut self.rows;
        rows[x].insert(y);
        rows[y].insert(x);
    }
}
