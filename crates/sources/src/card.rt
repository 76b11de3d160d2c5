//! A card: a plan in bytes, read where it lies.
ghost use Rattle.std.specs.Prelude.{◌≡◌, ℕ, ◌<◌, ◌≤◌, Some, None, IfSome, IfNone, MatchResult};
ghost use Rattle.sources.specs.First.{First, Tells};
ghost use Rattle.sources.specs.Layout.{byte};
ghost use Rattle.sources.specs.Checks.{card_checks, card_fault};
ghost use Rattle.sources.specs.Card.{card_plan};
ghost use Rattle.sources.specs.CardLawful.{card_lawful};
ghost use Rattle.sources.specs.Inside.{Inside};
ghost use Rattle.plan.specs.Plan.{Outside};

use crate::fault::CardFault;
use crate::header::Header;
use crate::layout::{MEASURES_AT, entry_place, read_u16, read_u32};
use crate::record::Record;
use plan::{NEVER, Source};

/// A plan as it lies in the bytes of a card. A card that fails a check stands for the plan of no measures.
#[derive(Clone, Copy)]
pub struct Card<'a> {
    bytes: &'a [u8],
    count: u8,
    // the number of measures of the plan
    ghost opened: { count ≡ (card_plan bytes.now).count },
    // what a byte is, which bounds the weights
    ghost octets: { (k : ℕ) → byte bytes.now k < 256 },
}

impl<'a> Card<'a> {
    /// Refuses a card that fails a check, with the fault of the first that fails. The checks are made in this order: the header in rising
    /// place, the length, the records byte by byte, the total of the entries, the entries.
    pub fn check(bytes: &[u8]) -> Result<(), CardFault>
        ensures told { Tells result (card_fault bytes.now) }
        ensures first { MatchResult result (λ _. First (card_checks bytes.now) None) (λ e. First (card_checks bytes.now) (Some e)) }
    {
        Header::check(bytes)?.check_rest()
    }

    /// The card in these bytes. It is checked once, here; a card that is refused has no measures.
    pub fn open(bytes: &'a [u8]) -> Card<'a>
        ensures { card_plan result.bytes.now ≡ card_plan bytes.now }
    {
        match Card::try_from(bytes) {
            Ok(card) => card,
            Err(_) => Card { bytes, count: 0 },
        }
    }

    /// The record of `m`, where that is a measure.
    fn record(&self, m: u8) -> Option<Record<'a>>
        ensures bytes { IfSome result (λ r. r.bytes.now ≡ self.now.bytes.now) }
        ensures measure { IfSome result (λ r. r.m ≡ m) }
        ensures inside { IfSome result (λ _. Inside self.now.bytes.now m) }
        ensures past { IfNone result (self.now.count ≤ m) }
        ensures outside { IfNone result (Outside (card_plan self.now.bytes.now) m) }
    {
        if m < self.count {
            Some(Record {
                bytes: self.bytes,
                m,
            })
        } else {
            None
        }
    }
}

/// The card in these bytes where no check fails, and else the fault of the first that fails.
impl<'a> TryFrom<&'a [u8]> for Card<'a> {
    type Error = CardFault;

    ghost try_from_gives = { λ bytes r. MatchResult r (λ card. (card_fault bytes.now ≡ None) × (card.bytes.now ≡ bytes.now)) (λ e. card_fault bytes.now ≡ Some e) };

    fn try_from(bytes: &'a [u8]) -> Result<Card<'a>, CardFault> {
        Card::check(bytes)?;
        Ok(Card {
            bytes,
            count: read_u16(bytes, MEASURES_AT) as u8,
        })
    }
}

impl<'a> Source for Card<'a> {
    ghost plan = { λ s. card_plan s.bytes.now };

    ghost lawful = { λ s. card_lawful s.bytes.now s.octets };

    fn count(&self) -> u8 {
        self.count
    }

    fn classes(&self, m: u8) -> u8 {
        self.record(m).map_or(0, |record| record.classes())
    }

    fn weight(&self, m: u8) -> u16 {
        self.record(m).map_or(0, |record| record.weight())
    }

    fn barred(&self, m: u8) -> bool {
        self.record(m).is_none_or(|record| record.barred())
    }

    fn drivers(&self, m: u8) -> u8 {
        self.record(m).map_or(0, |record| record.driver_count())
    }

    fn driver(&self, m: u8, position: u8) -> Option<u8> {
        if position < self.drivers(m) {
            self.record(m).map(|record| record.driver_byte(position))
        } else {
            None
        }
    }

    fn entry(&self, m: u8, place: u32) -> u32 {
        let Some(record) = self.record(m) else {
            return NEVER;
        };
        if place < record.table_length() {
            read_u32(self.bytes, entry_place(self.count, record.start() + place))
        } else {
            NEVER
        }
    }
}
