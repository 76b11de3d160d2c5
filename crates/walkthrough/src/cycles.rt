//! Which nodes of a split graph lie on a cycle. Only tested: nothing is proved of it but that it is safe and ends.
use graph::{NumberSet, SplitGraph};

/// The nodes that can be reached from `start` without passing through `node`.
fn reached_without(graph: &SplitGraph, node: usize, start: usize) -> NumberSet {
    let mut reached = NumberSet::empty();
    reached.insert(start);
    for _ in 0..graph.nodes() {
        for x in 0..graph.nodes() {
            if x != node && !reached.contains(x) && touches(graph, x, &reached) {
                reached.insert(x);
            }
        }
    }
    reached
}

/// Whether an edge leads from `x` into `set`.
fn touches(graph: &SplitGraph, x: usize, set: &NumberSet) -> bool {
    graph.degree(set, x) > 0
}

/// Whether `node` lies on a cycle: whether two of its neighbours are joined by a way that does not pass through it.
pub(crate) fn lies_on_cycle(graph: &SplitGraph, node: usize) -> bool {
    (0..graph.nodes()).any(|start| {
        graph.has_edge(node, start) && graph.degree(&reached_without(graph, node, start), node) > 1
    })
}

/// The measures whose value node or table node is in `nodes`.
pub(crate) fn measures_in(graph: &SplitGraph, nodes: &NumberSet) -> NumberSet {
    let count = graph.nodes() / 2;
    NumberSet::from_fn(count, |m| nodes.contains(m) || nodes.contains(count + m))
}

/// The measures that lie on a loop: those whose value node or table node lies on a cycle.
pub(crate) fn measures_on_loops(graph: &SplitGraph) -> NumberSet {
    let nodes = NumberSet::from_fn(graph.nodes(), |node| lies_on_cycle(graph, node));
    measures_in(graph, &nodes)
}
