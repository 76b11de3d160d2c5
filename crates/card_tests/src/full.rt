//! The largest cards: one of the most measures, one of the most entries, and how long a card can be.
use crate::answers::{Answers, OUTSIDE, ask, measures};
use plan::{NEVER, Source};
use sources::{Card, LONGEST_CARD, READ_LIMIT};
use std::alloc::{AllocError, Global};
use std::test::Fail;

/// A card of 64 measures of one class. Each is driven by the one before it, weighs as much as its number and has that for its entry; every
/// other one is barred.
pub(crate) fn chain(heap: Global) -> Result<Vec<u8>, AllocError> {
    let mut card = Vec::new(heap);
    card.extend_from_slice(&[64, 0, 0, 0, 64, 0, 0, 0, 16, 0, 0, 0, 16, 4, 0, 0])?;
    card.extend_from_slice(&[1, 0, 0, 0, 255, 255, 255, 0, 0, 0, 0, 0, 0, 0, 0, 0])?;
    for m in 1..64u8 {
        card.extend_from_slice(&[1, m % 2, 1, 0, m - 1, 255, 255, 0, m, 0, 0, 0, m, 0, 0, 0])?;
    }
    for m in 0..64u8 {
        card.extend_from_slice(&[m, 0, 0, 0])?;
    }
    Ok(card)
}

#[test]
fn most_measures(rt: HostRuntime) -> Result<(), Fail> {
    let bytes = chain(rt.alloc())?;
    Card::check(&bytes)?;
    let card = Card::open(&bytes);
    assert_eq!(rt; card.count(), 64);
    assert_eq!(rt; measures(&card), 64);
    for m in 1..64u8 {
        let expected = Answers {
            classes: 1,
            weight: u16::from(m),
            barred: m % 2 == 1,
            drivers: 1,
            first: Some(m - 1),
            second: None,
            entries: (u32::from(m), NEVER),
        };
        assert_eq!(rt; ask(&card, m), expected);
    }
    assert_eq!(rt; card.driver(0, 0), None);
    assert_eq!(rt; ask(&card, 64), OUTSIDE);
    Ok(())
}

/// The header of a card of eight measures and 12,288 entries.
const HEADER: [u8; 16] = [8, 0, 0, 0, 0, 48, 0, 0, 16, 0, 0, 0, 144, 0, 0, 0];

/// Its records, whose tables have 8, 64, 512, 4096, 4096, 3072, 384 and 56 entries.
const RECORDS: [[u8; 16]; 8] = [
    [8, 0, 0, 0, 255, 255, 255, 0, 1, 0, 0, 0, 0, 0, 0, 0],
    [8, 0, 1, 0, 0, 255, 255, 0, 1, 0, 0, 0, 8, 0, 0, 0],
    [8, 0, 2, 0, 0, 1, 255, 0, 1, 0, 0, 0, 72, 0, 0, 0],
    [8, 0, 3, 0, 0, 1, 2, 0, 1, 0, 0, 0, 72, 2, 0, 0],
    [8, 0, 3, 0, 2, 1, 0, 0, 1, 0, 0, 0, 72, 18, 0, 0],
    [6, 0, 3, 0, 0, 1, 2, 0, 1, 0, 0, 0, 72, 34, 0, 0],
    [6, 0, 2, 0, 0, 1, 255, 0, 1, 0, 0, 0, 72, 46, 0, 0],
    [7, 0, 1, 0, 0, 255, 255, 0, 1, 0, 0, 0, 200, 47, 0, 0],
];

/// That card: each entry is its number among all of them.
fn numbered(heap: Global) -> Result<Vec<u8>, AllocError> {
    let mut card = Vec::new(heap);
    card.extend_from_slice(&HEADER)?;
    card.extend_from_slice(RECORDS.as_flattened())?;
    for number in 0..12_288u32 {
        card.extend_from_slice(&number.to_le_bytes())?;
    }
    Ok(card)
}

#[test]
fn most_entries(rt: HostRuntime) -> Result<(), Fail> {
    let bytes = numbered(rt.alloc())?;
    Card::check(&bytes)?;
    let card = Card::open(&bytes);
    assert_eq!(rt; card.count(), 8);
    assert_eq!(rt; card.entry(0, 7), 7);
    assert_eq!(rt; card.entry(3, 4_095), 4_679);
    assert_eq!(rt; card.entry(3, 4_096), NEVER);
    assert_eq!(rt; card.entry(4, 0), 4_680);
    assert_eq!(rt; card.driver(4, 0), Some(2));
    assert_eq!(rt; card.entry(7, 55), 12_287);
    assert_eq!(rt; card.entry(7, 56), NEVER);
    assert_eq!(rt; ask(&card, 8), OUTSIDE);
    Ok(())
}

#[test]
fn one_byte_past_the_longest_card_is_read(rt: HostRuntime) {
    assert_eq!(rt; LONGEST_CARD, 50_192);
    assert_eq!(rt; READ_LIMIT, 50_193);
}
