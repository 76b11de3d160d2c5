//! The second stage: leaving picks out again.
ghost use Rattle.std.specs.Prelude.{◌≡◌};
ghost use Rattle.graph.specs.Read.{set_of};
ghost use Rattle.cutset.specs.Method.{held};
ghost use Rattle.cutset.specs.Tables.{picked};

use crate::picks::Picks;
use graph::{NumberSet, SplitGraph};
use plan::Source;

/// The picks that stay: from the last back to the first, each is left out if the others still held, with the taken measures, leave no
/// cycle of the split graph.
pub fn leave_out<S: Source>(source: &S, taken: &NumberSet, picks: &Picks) -> NumberSet
    ensures { set_of result ≡ held (S.Source.plan source.now) (set_of taken.now) (picked picks.now) }
{
    let graph = SplitGraph::of(source);
    let mut held = picks.set();
    for pick in picks.as_slice().iter().rev() {
        let mut others = held;
        others.remove(pick.measure as usize);
        if graph.is_forest(&graph.without(&taken.union(&others))) {
            held = others;
        }
    }
    held
}
