//! How the picks are kept.
ghost use Rattle.std.specs.Prelude.{◌≡◌, ◌<◌, [], ◌∷◌, ◌++◌, length};
ghost use Rattle.plan.specs.Limits.{most_measures};
ghost use Rattle.plan.specs.Sums.{among};
ghost use Rattle.graph.specs.Read.{set_of};
ghost use Rattle.cutset.specs.Method.{measures};
ghost use Rattle.cutset.specs.Tables.{picked};

use crate::fixed_list::FixedList;
use crate::pick::Pick;
use crate::picks::Picks;
use graph::NumberSet;

impl Picks {
    /// No picks.
    pub(crate) fn none() -> Picks
        ensures { picked result ≡ [] }
    {
        Picks {
            list: FixedList::new(Pick {
                measure: 0,
                share: 0,
            }),
        }
    }

    /// Adds a pick after the others.
    pub(crate) fn push(&mut self, pick: Pick)
        requires room { length (picked self.old) < most_measures }
        requires known { pick.measure < most_measures }
        ensures { picked self.new ≡ picked self.old ++ (pick ∷ []) }
    {
        self.list.push(pick);
    }

    /// The picks in the order of picking.
    pub fn as_slice(&self) -> &[Pick]
        ensures { result.now ≡ picked self.now }
    {
        self.list.as_slice()
    }

    /// The set of the picked measures.
    pub fn set(&self) -> NumberSet
        ensures { set_of result ≡ among (measures (picked self.now)) }
    {
        let mut set = NumberSet::empty();
        for pick in self.as_slice() {
            set.insert(pick.measure as usize);
        }
        set
    }
}
