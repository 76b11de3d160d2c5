//! The cards that others are made from.

/// A card of no measures.
pub(crate) const EMPTY: &[u8; 16] = b"\0\0\0\0\0\0\0\0\x10\0\0\0\x10\0\0\0";

/// The length of a diamond.
pub(crate) const LENGTH: usize = 152;

/// A card of four measures of two classes, none barred, with weights 5, 3, 4 and 1: 0 drives 1 and 2, and both drive 3. A line for the
/// header, one for the record of each measure, which begin at 16, 32, 48 and 64, and one for the table of each, which begin at 80, 88, 104
/// and 120. The last two entries are never and 1,000,000.
pub(crate) const DIAMOND: &[u8; LENGTH] = b"\
    \x04\0\0\0\x12\0\0\0\x10\0\0\0\x50\0\0\0\
    \x02\0\0\0\xff\xff\xff\0\x05\0\0\0\0\0\0\0\
    \x02\0\x01\0\0\xff\xff\0\x03\0\0\0\x02\0\0\0\
    \x02\0\x01\0\0\xff\xff\0\x04\0\0\0\x06\0\0\0\
    \x02\0\x02\0\x01\x02\xff\0\x01\0\0\0\x0a\0\0\0\
    \0\0\0\0\x0a\0\0\0\
    \0\0\0\0\x14\0\0\0\x1e\0\0\0\0\0\0\0\
    \0\0\0\0\x28\0\0\0\x32\0\0\0\0\0\0\0\
    \0\0\0\0\x01\0\0\0\x02\0\0\0\x03\0\0\0\x04\0\0\0\x05\0\0\0\xff\xff\xff\xff\x40\x42\x0f\0";

/// The diamond with the tables of the example card, `examples/diamond.card`: but for measure 0, whose entries are 0, an entry is 10 for each
/// class by which the measure differs from a driver.
// Written out whole: a constant is not joined from parts more plainly.
pub(crate) const EXAMPLE_DIAMOND: &[u8; LENGTH] = b"\
    \x04\0\0\0\x12\0\0\0\x10\0\0\0\x50\0\0\0\
    \x02\0\0\0\xff\xff\xff\0\x05\0\0\0\0\0\0\0\
    \x02\0\x01\0\0\xff\xff\0\x03\0\0\0\x02\0\0\0\
    \x02\0\x01\0\0\xff\xff\0\x04\0\0\0\x06\0\0\0\
    \x02\0\x02\0\x01\x02\xff\0\x01\0\0\0\x0a\0\0\0\
    \0\0\0\0\0\0\0\0\
    \0\0\0\0\x0a\0\0\0\x0a\0\0\0\0\0\0\0\
    \0\0\0\0\x0a\0\0\0\x0a\0\0\0\0\0\0\0\
    \0\0\0\0\x14\0\0\0\x0a\0\0\0\x0a\0\0\0\x0a\0\0\0\x0a\0\0\0\x14\0\0\0\0\0\0\0";

/// The byte of a diamond that says how many classes measure 1 has.
pub(crate) const CLASSES_1: usize = 32;

/// The byte of a diamond that says whether measure 0 is barred.
const BARRED_0: usize = 17;

/// The byte of a diamond that says whether measure 1 is barred.
pub(crate) const BARRED_1: usize = 33;

/// The byte of a diamond that says whether measure 2 is barred.
const BARRED_2: usize = 49;

/// A diamond with 0, 1 and 2 barred, so that every opener of its loop is.
pub(crate) fn barred(diamond: &[u8; LENGTH]) -> [u8; LENGTH] {
    let mut card = *diamond;
    card[BARRED_0] = 1;
    card[BARRED_1] = 1;
    card[BARRED_2] = 1;
    card
}
