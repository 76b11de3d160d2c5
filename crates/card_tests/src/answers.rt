//! What a card answers, to be held against what it has to answer.
ghost use Rattle.std.specs.Prelude.{◌≤◌};
ghost use Rattle.plan.specs.Limits.{most_measures};

use plan::{NEVER, Source};
use sources::Card;

/// The answers to every question on a measure: of its drivers the first two, of its table the first two entries.
#[derive(Clone, Copy, PartialEq, Debug)]
pub struct Answers {
    pub classes: u8,
    pub weight: u16,
    pub barred: bool,
    pub drivers: u8,
    pub first: Option<u8>,
    pub second: Option<u8>,
    pub entries: (u32, u32),
}

/// What has to be answered of a number that is no measure.
pub(crate) const OUTSIDE: Answers = Answers {
    classes: 0,
    weight: 0,
    barred: true,
    drivers: 0,
    first: None,
    second: None,
    entries: (NEVER, NEVER),
};

/// What the card answers of `m`.
pub(crate) fn ask(card: &Card, m: u8) -> Answers {
    Answers {
        classes: card.classes(m),
        weight: card.weight(m),
        barred: card.barred(m),
        drivers: card.drivers(m),
        first: card.driver(m, 0),
        second: card.driver(m, 1),
        entries: (card.entry(m, 0), card.entry(m, 1)),
    }
}

/// How many measures a source has, whatever it is. No more than there may be: that its plan is lawful is known of a `&dyn Source` too.
pub(crate) fn measures(source: &dyn Source) -> u8
    ensures { result ≤ most_measures }
{
    source.count()
}
