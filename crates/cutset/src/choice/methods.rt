//! What a chosen set tells.
ghost use Rattle.std.specs.Prelude.{◌≡◌, suc, ◌+◌, ◌*◌, ◌≤◌, length};
ghost use Rattle.graph.specs.Read.{set_of};
ghost use Rattle.cutset.specs.Method.{most_settings, capped, choice_of};
ghost use Rattle.cutset.specs.Tables.{told};

use crate::choice::Cutset;
use crate::fixed_list::FixedList;
use graph::NumberSet;
use plan::Source;

/// The most settings that are counted; one more stands for any larger number.
// One more is a number too: the rules fix it, and listings tell it.
pub const MOST_SETTINGS: u32 = 65_536;

impl Cutset {
    /// The members in rising order.
    pub fn members(&self) -> &[u8]
        ensures { result.now ≡ (told self.now).members }
    {
        self.members.as_slice()
    }

    /// The members' weight.
    pub fn weight(&self) -> u32
        ensures { result ≡ (told self.now).weight }
    {
        self.weight
    }

    /// The product of the members' classes, or `MOST_SETTINGS + 1` where it is above `MOST_SETTINGS`.
    pub fn settings(&self) -> u32
        ensures { result ≡ (told self.now).settings }
    {
        self.settings
    }

    /// What is told of the measures in `held`.
    pub(crate) fn of<S: Source>(source: &S, held: &NumberSet) -> Cutset
        ensures { told result ≡ choice_of (S.Source.plan source.now) (set_of held.now) }
    {
        let mut members = FixedList::new(0);
        let mut weight = 0;
        let mut settings = 1;
        for m in 0..source.count() {
            if held.contains(m as usize) {
                members.push(m);
                weight += source.weight(m) as u32;
                settings = times_capped(settings, source.classes(m));
            }
        }
        Cutset {
            members,
            weight,
            settings,
        }
    }
}

/// One factor more, and no more than `MOST_SETTINGS + 1`.
fn times_capped(settings: u32, classes: u8) -> u32
    requires { settings ≤ suc most_settings }
    ensures { result ≡ capped (settings * classes) }
{
    (settings * classes as u32).min(MOST_SETTINGS + 1)
}
