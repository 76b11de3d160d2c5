//! Why the panel refuses.
ghost use Rattle.std.specs.Prelude.{◌≡◌, Some};
ghost use Rattle.panel.specs.Refusals.{refusal_number, refusal_place, of_choice};
ghost use Rattle.panel.specs.Sentences.{refusal_text};
ghost use Rattle.panel.specs.declared.refusal.Refusal.TheVariants.{Card};

use cutset::ChoiceFault;
use sources::CardFault;
use std::error::Error;
use std::fmt;

/// Why the panel refuses. Each refusal has a number, and that of a card has a place too.
#[derive(Clone, Copy, PartialEq, Eq, Debug)]
pub enum Refusal {
    /// A check of the card fails: its fault, with the number and the place that the fault has.
    Card(CardFault),
    /// Some loop cannot be opened: each measure that would open it is barred and not taken.
    LoopBarred,
    /// A measure holds less than is to come off it, so no held set is chosen.
    HoldsTooLittle,
    /// The row is too short for any listing.
    ShortRow,
}

impl Refusal {
    /// The number of the refusal.
    pub fn number(self) -> u8
        ensures { result ≡ refusal_number self }
    {
        match self {
            Refusal::Card(fault) => fault.number(),
            Refusal::LoopBarred => 14,
            Refusal::HoldsTooLittle => 15,
            Refusal::ShortRow => 18,
        }
    }

    /// The place in the card that a refusal of the card names; no other refusal has one.
    pub fn place(self) -> Option<usize>
        ensures { result ≡ refusal_place self }
    {
        match self {
            Refusal::Card(fault) => Some(fault.place()),
            Refusal::LoopBarred | Refusal::HoldsTooLittle | Refusal::ShortRow => None,
        }
    }
}

/// Says the number, and in a sentence what is wrong.
impl fmt::Display for Refusal {
    ghost output = { λ refusal. Some (refusal_text refusal) };

    fn fmt<W: fmt::Write>(&self, f: &mut fmt::Formatter<W>) -> fmt::Result {
        let number = self.number();
        // Each sentence whole: with the number written once before them, the proof of one arm did not close.
        match *self {
            Refusal::Card(fault) => write!(f, "refusal {number}: {fault}"),
            Refusal::LoopBarred => write!(
                f,
                "refusal {number}: the measures that would open some loop are all barred"
            ),
            Refusal::HoldsTooLittle => write!(
                f,
                "refusal {number}: a measure holds less than is to come off it"
            ),
            Refusal::ShortRow => write!(f, "refusal {number}: the row is too short for a listing"),
        }
    }
}

impl Error for Refusal {}

/// A card's fault is kept whole.
impl From<CardFault> for Refusal {
    ghost from_gives = { λ fault refusal. refusal ≡ Card fault };

    fn from(fault: CardFault) -> Refusal {
        Self::Card(fault)
    }
}

/// Each reason for choosing no set is a refusal of the same name.
impl From<ChoiceFault> for Refusal {
    ghost from_gives = { λ fault refusal. refusal ≡ of_choice fault };

    fn from(fault: ChoiceFault) -> Refusal {
        match fault {
            ChoiceFault::LoopBarred => Refusal::LoopBarred,
            ChoiceFault::HoldsTooLittle => Refusal::HoldsTooLittle,
        }
    }
}
