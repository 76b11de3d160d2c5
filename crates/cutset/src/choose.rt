//! The choice.
ghost use Rattle.graph.specs.Read.{set_of};
ghost use Rattle.cutset.specs.Method.{chosen};
ghost use Rattle.cutset.specs.Tables.{told, Reads};

use crate::choice::Cutset;
use crate::fault::ChoiceFault;
use crate::picking::pick_measures;
use crate::thinning::leave_out;
use graph::NumberSet;
use plan::Source;

/// The held set for a source's plan where the measures of `taken` are taken, by the two-stage method; or why there is none.
// Two parameters, here and in the two stages: a struct of both, made for one call, would be no plainer.
#[tactic(auto, unfolding(crate::specs::Method::chosen))]
pub fn choose_cutset<S: Source>(source: &S, taken: &NumberSet) -> Result<Cutset, ChoiceFault>
    ensures { Reads told result (chosen (S.Source.plan source.now) (set_of taken.now)) }
{
    let picks = pick_measures(source, taken)?;
    let held = leave_out(source, taken, &picks);
    Ok(Cutset::of(source, &held))
}
