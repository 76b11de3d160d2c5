//! The split graph of a plan.
ghost use Rattle.std.specs.Prelude.{◌≡◌, ◌≤◌, length};
ghost use Rattle.plan.specs.Limits.{most_measures};
ghost use Rattle.graph.specs.Split.{most_nodes};

mod build;
mod prune;

use crate::set::{MOST_NODES, NumberSet};

/// The split graph of a plan: a value node and a table node for each measure, and an edge where a table reads a value.
///
/// Of `count` measures the value node of `m` is `m`, and its table node `count + m`.
#[derive(Clone, Copy)]
pub struct SplitGraph {
    // beside the rows, of which those past the nodes are empty: any number may be asked
    count: usize,
    rows: [NumberSet; MOST_NODES],
    ghost few: { count ≤ most_measures },
    ghost tall: { length rows ≡ most_nodes },
}
