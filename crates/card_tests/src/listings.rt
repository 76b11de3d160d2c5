//! Cards with their listings.
use crate::cards::{CLASSES_1, DIAMOND, EXAMPLE_DIAMOND, barred};
use host::{ROW_LENGTH, write_listing};
use panel::Refusal;
use std::test::Fail;

/// What the row holds before a listing is written.
const BLANK: u8 = 7;

/// Checks that a card is listed by this text in a row of one value, and that the row stays as it is after it.
fn check_listing(blank: u8, card: &[u8], text: &[u8]) -> Result<(), Fail> {
    let mut row = [blank; ROW_LENGTH];
    let length = write_listing(card, &mut row)?;
    let (listed, rest) = row.split_at(length);
    if listed != text {
        return Err(Fail::new("another text is listed"));
    }
    if rest.iter().any(|byte| *byte != blank) {
        return Err(Fail::new("the row changed after the text"));
    }
    Ok(())
}

#[test]
fn a_set_is_listed() -> Result<(), Fail> {
    check_listing(
        0,
        EXAMPLE_DIAMOND,
        b"HELD 1 WEIGHT 3 SETTINGS 2\nMEASURE 1\n",
    )
}

#[test]
fn a_fault_of_the_card_is_listed_with_its_place() -> Result<(), Fail> {
    let mut card = *EXAMPLE_DIAMOND;
    card[CLASSES_1] = 9;
    check_listing(0, &card, b"REFUSED 4 AT 32\n")
}

#[test]
fn a_barred_loop_is_listed_with_no_place() -> Result<(), Fail> {
    check_listing(0, &barred(EXAMPLE_DIAMOND), b"REFUSED 14\n")
}

#[test]
fn a_short_row_is_refused_and_stays(rt: HostRuntime) {
    let mut row = [BLANK; ROW_LENGTH - 1];
    assert_eq!(rt;
        write_listing(EXAMPLE_DIAMOND, &mut row),
        Err(Refusal::ShortRow)
    );
    assert_eq!(rt; row, [BLANK; ROW_LENGTH - 1]);
}

#[test]
fn the_row_stays_after_the_text() -> Result<(), Fail> {
    check_listing(BLANK, DIAMOND, b"HELD 1 WEIGHT 3 SETTINGS 2\nMEASURE 1\n")?;
    let mut card = *DIAMOND;
    card[CLASSES_1] = 9;
    check_listing(BLANK, &card, b"REFUSED 4 AT 32\n")?;
    check_listing(BLANK, &barred(DIAMOND), b"REFUSED 14\n")
}
