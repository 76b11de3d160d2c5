//! Degrees and pruning.
ghost use Rattle.std.specs.Prelude.{◌≡◌};
ghost use Rattle.graph.specs.Graphs.{deg};
ghost use Rattle.graph.specs.Pruning.{forest, Shrinks, Swept, Pruned};
ghost use Rattle.graph.specs.Read.{set_of, edges, node_count};
ghost use Rattle.graph.specs.Split.{remaining};

use crate::set::{MOST_NODES, NumberSet};
use crate::split::SplitGraph;

/// A node with at most so many edges is on no cycle, and is pruned.
const FEW_EDGES: usize = 1;

impl SplitGraph {
    /// The number of nodes, two for each measure.
    pub fn nodes(&self) -> usize
        ensures { result ≡ node_count self.now }
    {
        2 * self.count
    }

    /// Whether an edge joins two nodes.
    // A test of the index: by `get` it would be no plainer, as in `NumberSet::contains`.
    pub fn has_edge(&self, x: usize, y: usize) -> bool
        ensures { result ≡ edges self.now x y }
    {
        x < MOST_NODES && self.rows[x].contains(y)
    }

    /// How many edges lead from `node` into the nodes `within`.
    pub fn degree(&self, within: &NumberSet, node: usize) -> usize
        ensures { result ≡ deg (node_count self.now) (edges self.now) (set_of within.now) node }
    {
        // A loop: by `filter` and `count` a choice takes four times as long.
        let mut edges = 0;
        for x in 0..self.nodes() {
            if within.contains(x) && self.has_edge(node, x) {
                edges += 1;
            }
        }
        edges
    }

    /// Goes over all the nodes once and removes each that has at most `FEW_EDGES` edges; whether any went.
    fn sweep(&self, nodes: &mut NumberSet) -> bool
        ensures shrinks { Shrinks (node_count self.now) (edges self.now) (set_of nodes.old) (set_of nodes.new) }
        ensures swept { Swept (node_count self.now) (edges self.now) (set_of nodes.old) (set_of nodes.new) result }
    {
        let mut went = false;
        for node in 0..self.nodes() {
            if nodes.contains(node) && self.degree(nodes, node) <= FEW_EDGES {
                nodes.remove(node);
                went = true;
            }
        }
        went
    }

    /// Removes, as long as there is one, a node with at most one edge. What is left is the core: the largest part of `nodes` in which each
    /// node has at least two edges.
    pub fn prune(&self, nodes: &mut NumberSet)
        ensures { Pruned (node_count self.now) (edges self.now) (set_of nodes.old) (set_of nodes.new) }
    {
        while self.sweep(nodes) {}
    }

    /// Whether pruning leaves nothing of `nodes`: whether they have no cycle.
    pub fn is_forest(&self, nodes: &NumberSet) -> bool
        ensures { result ≡ forest (node_count self.now) (edges self.now) (set_of nodes.now) }
    {
        let mut left = *nodes;
        self.prune(&mut left);
        left.is_empty_below(self.nodes())
    }

    /// All the nodes but the value nodes of `measures`.
    pub fn without(&self, measures: &NumberSet) -> NumberSet
        ensures { set_of result ≡ remaining self.now.count (set_of measures.now) }
    {
        NumberSet::from_fn(
            self.nodes(),
            |node| node >= self.count || !measures.contains(node),
        )
    }
}
