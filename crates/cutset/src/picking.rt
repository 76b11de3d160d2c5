//! The first stage: picking.
ghost use Rattle.graph.specs.Read.{set_of};
ghost use Rattle.cutset.specs.Method.{picks};
ghost use Rattle.cutset.specs.Tables.{picked, Reads};

use crate::fault::ChoiceFault;
use crate::pick::Pick;
use crate::picks::Picks;
use crate::stage::Stage;
use graph::{NumberSet, SplitGraph};
use plan::Source;

/// The picks for a source's plan where the measures of `taken` are taken, in the order of picking, or why there are none.
pub fn pick_measures<S: Source>(source: &S, taken: &NumberSet) -> Result<Picks, ChoiceFault>
    ensures { Reads picked result (picks (S.Source.plan source.now) (set_of taken.now)) }
{
    let graph = SplitGraph::of(source);
    let mut stage = Stage::first(&graph, source, taken);
    let mut picks = Picks::none();
    while let Some((measure, share)) = stage.smallest_share() {
        stage.pick(measure, share)?;
        picks.push(Pick { measure, share });
    }
    if stage.is_done() {
        Ok(picks)
    } else {
        Err(ChoiceFault::LoopBarred)
    }
}
