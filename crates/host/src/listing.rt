//! The listing of a card.
ghost use Rattle.std.specs.Prelude.{◌≡◌, ◌+◌, ◌≤◌, length, Ok, Err, MatchResult};
ghost use Rattle.cutset.specs.Tables.{told};
ghost use Rattle.panel.specs.Refusals.{refusal_number, refusal_place};
ghost use Rattle.host.specs.Writer.{HasRoom, Writes};
ghost use Rattle.host.specs.Listing.{listing_row, held_by_card, held_line, longest_held_line, measure_line, longest_measure_line, held_text, place_text, longest_place, refusal_line, Listed, NotListed};

use crate::writer::Writer;
use cutset::{Cutset, choose_cutset};
use graph::NumberSet;
use panel::Refusal;
use plan::Source;
use sources::Card;

/// The least length of a row. Every listing fits into it: a set has at most 54 bytes in its first line, and 12 in that of each of at most
/// 64 members; a refusal has at most 36.
pub const ROW_LENGTH: usize = 1024;

/// Writes the listing of a card at the beginning of a row, and answers its length; the rest of the row stays as it is. The listing tells
/// what is held where nothing is taken, or why nothing is.
///
/// A row of fewer than `ROW_LENGTH` bytes is refused, whatever the card, and stays as it is.
pub fn write_listing(card: &[u8], row: &mut [u8]) -> Result<usize, Refusal>
    ensures { MatchResult result (Listed card.now row.old row.new) (NotListed row.old row.new) }
{
    if row.len() < ROW_LENGTH {
        return Err(Refusal::ShortRow);
    }
    let mut writer = Writer::new(row);
    match hold(card) {
        Ok(held) => writer.held(&held),
        Err(refusal) => writer.refusal(refusal),
    }
    Ok(writer.len())
}

/// The held set of a card where nothing is taken; or the first fault of the card, or why no set is chosen.
fn hold(card: &[u8]) -> Result<Cutset, Refusal>
    ensures { MatchResult result (λ held. held_by_card card.now ≡ Ok (told held)) (λ e. held_by_card card.now ≡ Err e) }
{
    let source = Card::try_from(card)?;
    Ok(choose_cutset(&source, &NumberSet::empty())?)
}
