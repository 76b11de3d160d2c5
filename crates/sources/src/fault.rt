//! Why a card is refused.
ghost use Rattle.std.specs.Prelude.{◌≡◌, Some};
ghost use Rattle.sources.specs.First.{Passes};
ghost use Rattle.sources.specs.Faults.{card_fault_number, card_fault_place};
ghost use Rattle.sources.specs.Sentences.{card_fault_text};

use crate::layout::ENTRIES_AT;
use std::error::Error;
use std::fmt;

/// What is wrong with a card, and where: the first check that fails, with the byte at which its field begins, or the card's length.
#[derive(Clone, Copy, PartialEq, Eq, Debug)]
pub enum CardFault {
    /// The card is shorter than its header.
    TooShort { length: usize },
    /// A field of the header is outside its values.
    HeaderField { place: usize },
    /// The card is not as long as its header says.
    WrongLength { length: usize },
    /// A byte of a record is outside its values.
    RecordByte { place: usize },
    /// A driver has no lower number than what it drives, or is named twice.
    DriverByte { place: usize },
    /// A table does not start where the earlier ones end.
    TableStart { place: usize },
    /// The header's number of entries is not that of the tables.
    EntryTotal,
    /// An entry is neither an alteration within the limit nor never.
    EntryValue { place: usize },
}

impl CardFault {
    /// The number of the fault, from 1 to 7.
    pub fn number(self) -> u8
        ensures { result ≡ card_fault_number self }
    {
        match self {
            CardFault::TooShort { .. } => 1,
            CardFault::HeaderField { .. } => 2,
            CardFault::WrongLength { .. } => 3,
            CardFault::RecordByte { .. } => 4,
            CardFault::DriverByte { .. } => 5,
            CardFault::TableStart { .. } | CardFault::EntryTotal => 6,
            CardFault::EntryValue { .. } => 7,
        }
    }

    /// The byte at which the faulty field begins; of a wrong length, the length.
    pub fn place(self) -> usize
        ensures { result ≡ card_fault_place self }
    {
        match self {
            CardFault::TooShort { length } | CardFault::WrongLength { length } => length,
            CardFault::HeaderField { place }
            | CardFault::RecordByte { place }
            | CardFault::DriverByte { place }
            | CardFault::TableStart { place }
            | CardFault::EntryValue { place } => place,
            CardFault::EntryTotal => ENTRIES_AT,
        }
    }
}

/// Passes where the test holds, and refuses with the fault where it does not.
pub(crate) fn require(holds: bool, fault: CardFault) -> Result<(), CardFault>
    ensures { Passes result holds fault }
{
    if holds { Ok(()) } else { Err(fault) }
}

/// Says in a sentence what is wrong and at which byte.
impl fmt::Display for CardFault {
    ghost output = { λ fault. Some (card_fault_text fault) };

    fn fmt<W: fmt::Write>(&self, f: &mut fmt::Formatter<W>) -> fmt::Result {
        match *self {
            CardFault::TooShort { length } => write!(
                f,
                "the card has {length} bytes, fewer than its header"
            ),
            CardFault::HeaderField { place } => write!(
                f,
                "the header's field at byte {place} is outside its values"
            ),
            CardFault::WrongLength { length } => write!(
                f,
                "the card has {length} bytes, not as many as its header says"
            ),
            CardFault::RecordByte { place } => write!(
                f,
                "the record's byte {place} is outside its values"
            ),
            CardFault::DriverByte { place } => write!(
                f,
                "the driver at byte {place} has no lower number, or is named twice"
            ),
            CardFault::TableStart { place } => write!(
                f,
                "the start at byte {place} is not where the earlier tables end"
            ),
            CardFault::EntryTotal => write!(
                f,
                "the number of entries at byte {ENTRIES_AT} is not that of the tables"
            ),
            CardFault::EntryValue { place } => write!(
                f,
                "the entry at byte {place} is neither within the limit nor never"
            ),
        }
    }
}

impl Error for CardFault {}
