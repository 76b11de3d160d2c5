//! The split graph of a plan, and pruning.
#![tactic(auto)]

mod set;
mod split;

pub use set::{MOST_NODES, NumberSet};
pub use split::SplitGraph;
