//! The checks of a card, part by part: its header, its records, the total of its entries, its entries.
ghost use Rattle.std.specs.Prelude.{◌≡◌, ◌<◌, true, false, Some, None, MatchResult};
ghost use Rattle.sources.specs.First.{first_failing, each_below, Tells, Passes};
ghost use Rattle.sources.specs.Layout.{earlier_lengths, measures_of, entries_of};
ghost use Rattle.sources.specs.Checks.{header_checks, record_checks, entry_checks, card_fault};
ghost use Rattle.sources.specs.declared.fault.CardFault.TheVariants.{HeaderField};

use crate::fault::{CardFault, require};
use crate::header::Header;
use crate::layout::{
    ENTRIES_AT, FIRST_ENTRY_AT, FIRST_RECORD_AT, HEADER_LENGTH, MEASURES_AT, MOST_ENTRIES, ZERO_AT,
    entry_place, read_u16, read_u32, record_place,
};
use crate::record::Record;
use plan::{MOST_ALTERATION, MOST_MEASURES, NEVER};

impl<'a> Header<'a> {
    /// The header of a card, or the first fault of the header and of the card's length.
    pub(crate) fn check(bytes: &'a [u8]) -> Result<Header<'a>, CardFault>
        ensures { MatchResult result (λ h. h.bytes.now ≡ bytes.now) (λ e. first_failing (header_checks bytes.now) ≡ Some e) }
    {
        let length = bytes.len();
        require(HEADER_LENGTH <= length, CardFault::TooShort { length })?;
        let measures = read_u16(bytes, MEASURES_AT);
        require_field(measures as usize <= MOST_MEASURES, MEASURES_AT)?;
        require_field(read_u16(bytes, ZERO_AT) == 0, ZERO_AT)?;
        let entries = read_u32(bytes, ENTRIES_AT);
        require_field(entries <= MOST_ENTRIES, ENTRIES_AT)?;
        let first_record = read_u32(bytes, FIRST_RECORD_AT) as usize;
        require_field(first_record == HEADER_LENGTH, FIRST_RECORD_AT)?;
        let measures = measures as u8;
        let first_entry = read_u32(bytes, FIRST_ENTRY_AT) as usize;
        require_field(first_entry == record_place(measures), FIRST_ENTRY_AT)?;
        let stated = entry_place(measures, entries);
        require(length == stated, CardFault::WrongLength { length })?;
        Ok(Header {
            bytes,
            measures,
            entries,
        })
    }

    /// Checks the rest of the card: the records, the total of the entries, the entries.
    pub(crate) fn check_rest(&self) -> Result<(), CardFault>
        ensures { Tells result (card_fault self.now.bytes.now) }
    {
        let total = self.check_records()?;
        require(self.entries == total, CardFault::EntryTotal)?;
        // By `?` and `Ok`, so that the compiled loop over the entries sets the answer once, at its end, and not in each turn.
        self.check_entries()?;
        Ok(())
    }

    /// Checks the records of all measures in their order, and answers how many entries their tables have together.
    fn check_records(&self) -> Result<u32, CardFault>
        ensures { MatchResult result (λ total. (first_failing (each_below self.now.measures (record_checks self.now.bytes.now)) ≡ None) × (total ≡ earlier_lengths self.now.bytes.now self.now.measures)) (λ e. first_failing (each_below self.now.measures (record_checks self.now.bytes.now)) ≡ Some e) }
    {
        let mut earlier = 0;
        for m in 0..self.measures {
            let record = Record {
                bytes: self.bytes,
                m,
            };
            record.check(earlier)?;
            earlier += record.table_length();
        }
        Ok(earlier)
    }

    /// Checks the entries of all tables in their order: each is an alteration within the limit, or never.
    fn check_entries(&self) -> Result<(), CardFault>
        ensures { Tells result (first_failing (each_below (entries_of self.now.bytes.now) (entry_checks self.now.bytes.now))) }
    {
        for number in 0..self.entries {
            let place = entry_place(self.measures, number);
            let entry = read_u32(self.bytes, place);
            require(
                entry <= MOST_ALTERATION || entry == NEVER,
                CardFault::EntryValue { place },
            )?;
        }
        Ok(())
    }
}

/// Passes where the test of a field of the header holds, and refuses with the field's place where it does not.
fn require_field(holds: bool, place: usize) -> Result<(), CardFault>
    ensures { Passes result holds (HeaderField place) }
{
    require(holds, CardFault::HeaderField { place })
}
