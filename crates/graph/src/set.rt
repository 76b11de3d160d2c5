//! Sets of small numbers.
ghost use Rattle.std.specs.Prelude.{◌≡◌, length};
ghost use Rattle.graph.specs.Split.{most_nodes};

mod methods;

use plan::MOST_MEASURES;

/// The most nodes of a split graph: two for each measure.
pub const MOST_NODES: usize = 2 * MOST_MEASURES;

/// A set of numbers below `MOST_NODES`, as a table of marks.
#[derive(Clone, Copy)]
pub struct NumberSet {
    marks: [bool; MOST_NODES],
    ghost full: { length marks ≡ most_nodes },
}
