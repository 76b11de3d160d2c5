//! Where the picking stands.
ghost use Rattle.graph.specs.Graphs.{TwoEdged};
ghost use Rattle.graph.specs.Read.{set_of, node_count, edges};

mod methods;

use crate::holdings::Holdings;
use graph::{NumberSet, SplitGraph};

/// A stage of the picking: which measures may be picked, which nodes of the split graph are present, each with at least two edges among
/// them, and what they hold.
#[derive(Drop)]
pub(crate) struct Stage<'a> {
    graph: &'a SplitGraph,
    free: NumberSet,
    nodes: NumberSet,
    holdings: Holdings,
    ghost two_edged: { TwoEdged (node_count graph.now) (edges graph.now) (set_of nodes) },
}
