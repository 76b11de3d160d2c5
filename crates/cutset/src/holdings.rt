//! What the value nodes hold.
ghost use Rattle.std.specs.Prelude.{◌≡◌, ℕ, ◌*◌, ◌≤◌, length, slice_index};
ghost use Rattle.plan.specs.Limits.{most_weight};
ghost use Rattle.graph.specs.Split.{most_nodes};
ghost use Rattle.cutset.specs.Method.{share_unit};

use graph::MOST_NODES;

/// What each node holds.
#[derive(Clone, Copy)]
pub(crate) struct Holdings {
    pub(crate) amounts: [u32; MOST_NODES],
    ghost full: { length amounts ≡ most_nodes },
    ghost bounded: { (v : ℕ) → slice_index amounts v ≤ share_unit * most_weight },
}
