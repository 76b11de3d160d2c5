//! Cards of none, one and four measures: they are accepted, and every question on them is answered from their bytes.
use crate::answers::{Answers, OUTSIDE, ask};
use crate::cards::{DIAMOND, EMPTY, LENGTH};
use plan::{NEVER, Source};
use sources::Card;
use std::test::Fail;

#[test]
fn no_measure(rt: HostRuntime) -> Result<(), Fail> {
    Card::check(EMPTY)?;
    let card = Card::open(EMPTY);
    assert_eq!(rt; card.count(), 0);
    assert_eq!(rt; ask(&card, 0), OUTSIDE);
    assert_eq!(rt; ask(&card, 255), OUTSIDE);
    Ok(())
}

/// A card of one measure: three classes, barred, of the largest weight; its entries are 0, 1,000,000 and never.
const SINGLE: [u8; 44] = [
    1, 0, 0, 0, 3, 0, 0, 0, 16, 0, 0, 0, 32, 0, 0, 0, 3, 1, 0, 0, 255, 255, 255, 0, 255, 255, 0, 0,
    0, 0, 0, 0, 0, 0, 0, 0, 64, 66, 15, 0, 255, 255, 255, 255,
];

/// What has to be answered of its measure.
const ONLY: Answers = Answers {
    classes: 3,
    weight: 65_535,
    barred: true,
    drivers: 0,
    first: None,
    second: None,
    entries: (0, 1_000_000),
};

#[test]
fn one_measure(rt: HostRuntime) -> Result<(), Fail> {
    Card::check(&SINGLE)?;
    let card = Card::open(&SINGLE);
    assert_eq!(rt; card.count(), 1);
    assert_eq!(rt; ask(&card, 0), ONLY);
    assert_eq!(rt; card.entry(0, 2), NEVER);
    assert_eq!(rt; card.entry(0, 3), NEVER);
    assert_eq!(rt; ask(&card, 1), OUTSIDE);
    Ok(())
}

/// What differs from measure to measure of the diamond: weight, number of drivers, first two drivers, second entry.
const MEASURES: [(u16, u8, Option<u8>, Option<u8>, u32); 4] = [
    (5, 0, None, None, 10),
    (3, 1, Some(0), None, 20),
    (4, 1, Some(0), None, 40),
    (1, 2, Some(1), Some(2), 1),
];

#[test]
fn four_measures(rt: HostRuntime) -> Result<(), Fail> {
    Card::check(DIAMOND)?;
    let card = Card::open(DIAMOND);
    assert_eq!(rt; card.count(), 4);
    for (m, (weight, drivers, first, second, entry)) in (0u8..).zip(MEASURES) {
        let expected = Answers {
            classes: 2,
            weight,
            barred: false,
            drivers,
            first,
            second,
            entries: (0, entry),
        };
        assert_eq!(rt; ask(&card, m), expected);
        assert_eq!(rt; card.driver(m, 2), None);
    }
    assert_eq!(rt; ask(&card, 4), OUTSIDE);
    Ok(())
}

#[test]
fn tables_of_the_diamond(rt: HostRuntime) -> Result<(), Fail> {
    let card = Card::open(DIAMOND);
    assert_eq!(rt; card.entry(0, 2), NEVER);
    assert_eq!(rt; card.entry(1, 2), 30);
    assert_eq!(rt; card.entry(1, 4), NEVER);
    assert_eq!(rt; card.entry(2, 2), 50);
    assert_eq!(rt; card.entry(3, 5), 5);
    assert_eq!(rt; card.entry(3, 6), NEVER);
    assert_eq!(rt; card.entry(3, 7), 1_000_000);
    assert_eq!(rt; card.entry(3, 8), NEVER);
    assert_eq!(rt; card.entry(3, 4_294_967_295), NEVER);
    Ok(())
}

#[test]
fn refused_card_has_no_measure(rt: HostRuntime) -> Result<(), Fail> {
    let card = Card::open(&DIAMOND[..LENGTH - 1]);
    assert_eq!(rt; card.count(), 0);
    assert_eq!(rt; ask(&card, 0), OUTSIDE);
    Ok(())
}
