//! One stage of the picking after another.
ghost use Rattle.std.specs.Prelude.{◌≡◌, ◌*◌, ◌<◌, ◌≤◌, true, ◌==◌, OnOk, OnErr};
ghost use Rattle.plan.specs.Limits.{most_weight};
ghost use Rattle.plan.specs.Sums.{Within, size, meet};
ghost use Rattle.graph.specs.Pruning.{prune};
ghost use Rattle.graph.specs.Read.{set_of, node_count, edges};
ghost use Rattle.graph.specs.Split.{remaining};
ghost use Rattle.cutset.specs.Method.{share_unit, unbarred, first_holding};
ghost use Rattle.cutset.specs.Stages.{share};
ghost use Rattle.cutset.specs.Tables.{holds, next_share, pruned_without, StagePays};

use crate::fault::ChoiceFault;
use crate::holdings::Holdings;
use crate::stage::Stage;
use graph::{NumberSet, SplitGraph};
use plan::Source;
use std::array;

/// A weight is divided into so many parts, so that the shares of small weights differ.
const SHARE_UNIT: u32 = 256;

impl<'a> Stage<'a> {
    /// The first stage for a source's plan with its split graph, where the measures of `taken` are taken.
    pub(crate) fn first<S: Source>(
        graph: &'a SplitGraph,
        source: &S,
        taken: &NumberSet,
    ) -> Stage<'a>
        ensures graph { result.graph.now ≡ graph.now }
        ensures free { set_of result.free ≡ unbarred (S.Source.plan source.now) }
        ensures nodes { set_of result.nodes ≡ prune (node_count graph.now) (edges graph.now) (remaining graph.now.count (set_of taken.now)) }
        ensures holdings { holds result.holdings.amounts ≡ first_holding (S.Source.plan source.now) }
    {
        let mut nodes = graph.without(taken);
        graph.prune(&mut nodes);
        Stage {
            graph,
            free: unbarred_measures(source),
            nodes,
            holdings: first_holdings(source),
        }
    }

    /// The pick: of the nodes present that may be picked the one with the smallest share, the lowest of several, with that share.
    // A pair and no `Pick`: the contract's `next_share` is a pair, and the loop takes it apart.
    #[tactic(auto, unfolding(plan::specs::Sums::meet))]
    pub(crate) fn smallest_share(&self) -> Option<(u8, u32)>
        ensures { result ≡ next_share self.now }
    {
        (0..self.graph.nodes())
            .filter(|&node| self.is_free_in(&self.nodes, node))
            .map(|node| (node as u8, self.share(node)))
            .min_by_key(|&(_, share)| share)
    }

    /// The share of a node that is present: what it holds, divided by its number of edges, fraction dropped.
    fn share(&self, node: usize) -> u32
        requires inside { node < node_count self.now.graph.now }
        requires present { set_of self.now.nodes node ≡ true }
        ensures { result ≡ share (node_count self.now.graph.now) (edges self.now.graph.now) (set_of self.now.nodes) (holds self.now.holdings.amounts) node }
    {
        self.holdings.amounts[node] / self.graph.degree(&self.nodes, node) as u32
    }

    /// Whether a node is one of `nodes` and may be picked.
    #[tactic(auto, unfolding(plan::specs::Sums::meet))]
    fn is_free_in(&self, nodes: &NumberSet, node: usize) -> bool
        ensures { result ≡ meet (set_of nodes.now) (set_of self.now.free) node }
    {
        nodes.contains(node) && self.free.contains(node)
    }

    /// Goes on to the next stage: the node of `measure` goes, the rest is pruned, and the share comes off what is held. Where a node holds too
    /// little, the nodes stay, and some may have paid.
    pub(crate) fn pick(&mut self, measure: u8, share: u32) -> Result<(), ChoiceFault>
        requires { share ≤ share_unit * most_weight }
        ensures graph { self.new.graph.now ≡ self.old.graph.now }
        ensures free { self.new.free ≡ self.old.free }
        ensures nodes { OnOk result (set_of self.new.nodes ≡ pruned_without self.old measure) }
        ensures stays { OnErr result (self.new.nodes ≡ self.old.nodes) }
        ensures holdings { StagePays self.old (pruned_without self.old measure) share self.new result }
    {
        let mut left = self.nodes;
        left.remove(measure as usize);
        self.graph.prune(&mut left);
        self.take_off(&left, share)?;
        self.nodes = left;
        Ok(())
    }

    /// Takes the share, for each edge that went as the nodes present became `left`, off what each node at its ends holds that remains and
    /// may be picked.
    fn take_off(&mut self, left: &NumberSet, share: u32) -> Result<(), ChoiceFault>
        requires inside { Within (node_count self.old.graph.now) (set_of left.now) (set_of self.old.nodes) }
        requires small { share ≤ share_unit * most_weight }
        ensures graph { self.new.graph.now ≡ self.old.graph.now }
        ensures free { self.new.free ≡ self.old.free }
        ensures nodes { self.new.nodes ≡ self.old.nodes }
        ensures holdings { StagePays self.old (set_of left.now) share self.new result }
    {
        for node in 0..self.graph.nodes() {
            if self.is_free_in(left, node) {
                let went = self.graph.degree(&self.nodes, node) - self.graph.degree(left, node);
                let due = share * went as u32;
                if self.holdings.amounts[node] < due {
                    return Err(ChoiceFault::HoldsTooLittle);
                }
                self.holdings.amounts[node] -= due;
            }
        }
        Ok(())
    }

    /// Whether no node is present.
    pub(crate) fn is_done(&self) -> bool
        ensures { result ≡ (size (node_count self.now.graph.now) (set_of self.now.nodes) == 0) }
    {
        self.nodes.is_empty_below(self.graph.nodes())
    }
}

/// The measures that may be picked.
fn unbarred_measures<S: Source>(source: &S) -> NumberSet
    ensures { set_of result ≡ unbarred (S.Source.plan source.now) }
{
    NumberSet::from_fn(source.count() as usize, |m| !source.barred(m as u8))
}

/// What each value node holds at first: its weight in parts, where it may be picked.
fn first_holdings<S: Source>(source: &S) -> Holdings
    ensures { holds result.amounts ≡ first_holding (S.Source.plan source.now) }
{
    // Past the plan everything is barred, so table nodes hold nothing.
    let amounts = array::from_fn(|node| {
        let m = node as u8;
        if source.barred(m) {
            0
        } else {
            SHARE_UNIT * source.weight(m) as u32
        }
    });
    Holdings { amounts }
}
