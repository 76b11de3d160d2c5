//! Where the fields of a card lie, and how its numbers are read.
ghost use Rattle.std.specs.Prelude.{◌≡◌, ◌+◌, ◌*◌, ◌≤◌, length};
ghost use Rattle.sources.specs.Layout.{entry_length, le16, le32, record_at};

use plan::MOST_MEASURES;

/// The length of the header.
pub(crate) const HEADER_LENGTH: usize = 16;

/// The length of the record of a measure.
pub(crate) const RECORD_LENGTH: usize = 16;

/// The length of an entry.
pub(crate) const ENTRY_LENGTH: usize = 4;

/// The most entries of a card, of all its tables together.
pub(crate) const MOST_ENTRIES: u32 = 12_288;

/// The length of the longest card: of the most measures, with the most entries.
pub const LONGEST_CARD: usize = HEADER_LENGTH
    + RECORD_LENGTH * MOST_MEASURES
    + ENTRY_LENGTH * MOST_ENTRIES as usize;

/// How many bytes to read where a card is expected: one more than the longest has, so that a longer one is seen to be too long.
pub const READ_LIMIT: u64 = LONGEST_CARD as u64 + 1;

/// What a driver byte holds where there is no driver.
// A number, as cards have it; what is read of it is `None`.
pub(crate) const NO_DRIVER: u8 = 255;

/// The mark of a measure that is barred; 0 marks one that is not.
// A number, as cards have it; what is read of it is `true`.
pub(crate) const IS_BARRED: u8 = 1;

/// The place in the header of the number of measures, in two bytes.
pub(crate) const MEASURES_AT: usize = 0;

/// The place in the header of two bytes that are zero.
pub(crate) const ZERO_AT: usize = 2;

/// The place in the header of the number of entries, in four bytes.
pub(crate) const ENTRIES_AT: usize = 4;

/// The place in the header of the place of the first record, in four bytes.
pub(crate) const FIRST_RECORD_AT: usize = 8;

/// The place in the header of the place of the first entry, in four bytes.
pub(crate) const FIRST_ENTRY_AT: usize = 12;

/// The place in a record of the number of classes.
pub(crate) const CLASSES: usize = 0;

/// The place in a record of the mark whether the measure is barred.
pub(crate) const BARRED: usize = 1;

/// The place in a record of the number of drivers.
pub(crate) const DRIVER_COUNT: usize = 2;

/// The place in a record of the zero byte before the driver bytes.
pub(crate) const ZERO_BEFORE_DRIVERS: usize = 3;

/// The place in a record of the first driver byte.
pub(crate) const DRIVERS: usize = 4;

/// The place in a record of the zero byte after the driver bytes.
pub(crate) const ZERO_AFTER_DRIVERS: usize = 7;

/// The place in a record of the weight, in two bytes.
pub(crate) const WEIGHT: usize = 8;

/// The place in a record of the first of the two zero bytes after the weight.
pub(crate) const ZERO_AFTER_WEIGHT: usize = 10;

/// The place in a record of the second of the two zero bytes after the weight.
pub(crate) const ZERO_BEFORE_START: usize = 11;

/// The place in a record of the number of entries before the measure's table, in four bytes.
pub(crate) const START: usize = 12;

/// Where the record of the measure `m` begins; of the number of measures, where the entries begin.
pub(crate) fn record_place(m: u8) -> usize
    ensures { result ≡ record_at m }
{
    HEADER_LENGTH + RECORD_LENGTH * m as usize
}

/// Where the entry with a number lies, of all entries of a card with so many measures; of the number of entries, where the card ends.
pub(crate) fn entry_place(measures: u8, number: u32) -> usize
    ensures { result ≡ record_at measures + entry_length * number }
{
    record_place(measures) + ENTRY_LENGTH * number as usize
}

/// The number in the two bytes at a place, low byte first.
// Two functions, this and the next: with the bytes taken by a const parameter there would be three, and none plainer.
pub(crate) fn read_u16(bytes: &[u8], place: usize) -> u16
    requires { place + 2 ≤ length bytes.now }
    ensures { result ≡ le16 bytes.now place }
{
    u16::from_le_bytes([bytes[place], bytes[place + 1]])
}

/// The number in the four bytes at a place, low byte first.
pub(crate) fn read_u32(bytes: &[u8], place: usize) -> u32
    requires { place + 4 ≤ length bytes.now }
    ensures { result ≡ le32 bytes.now place }
{
    u32::from_le_bytes([
        bytes[place],
        bytes[place + 1],
        bytes[place + 2],
        bytes[place + 3],
    ])
}
