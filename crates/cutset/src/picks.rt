//! The picks, in their order.
ghost use Rattle.std.specs.Prelude.{ℕ, ◌<◌, slice_index_or};
ghost use Rattle.std.specs.List.{All};
ghost use Rattle.plan.specs.Limits.{most_measures};
ghost use Rattle.cutset.specs.Lists.{listed};
ghost use Rattle.cutset.specs.Unused.{no_pick};

mod methods;

use crate::fixed_list::FixedList;
use crate::pick::Pick;
use plan::MOST_MEASURES;

/// The picks with their shares, in the order of picking.
#[derive(Clone, Copy)]
pub struct Picks {
    list: FixedList<Pick, MOST_MEASURES>,
    ghost known: { All (λ pick. pick.measure < most_measures) (listed list) },
    // What stands in a place, used or not, names a measure.
    ghost everywhere: { (i : ℕ) → (slice_index_or list.places i no_pick).measure < most_measures },
}
