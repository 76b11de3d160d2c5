//! What is picked and held for the plans of some cards. Shares, picks and sets are worked out by hand from the rules.
use crate::cards::{BARRED_1, DIAMOND, EMPTY, barred};
use crate::full::chain;
use cutset::{ChoiceFault, Pick, choose_cutset, pick_measures};
use graph::NumberSet;
use plan::Source;
use sources::Card;
use std::alloc::{AllocError, Global};
use std::test::Fail;

/// The set of one measure.
fn only(m: usize) -> NumberSet {
    let mut set = NumberSet::empty();
    set.insert(m);
    set
}

/// A pick.
fn pick(measure: u8, share: u32) -> Pick {
    Pick { measure, share }
}

/// Checks the picks, in the order of picking.
fn check_picks(card: &[u8], taken: &NumberSet, expected: &[Pick]) -> Result<(), Fail> {
    let found = pick_measures(&Card::open(card), taken)?;
    let picks = found.as_slice();
    if picks != expected {
        return Err(Fail::new(format_args!("the picks are {picks:?}")));
    }
    Ok(())
}

/// What is told of a held set.
#[derive(Clone, Copy, PartialEq, Debug)]
struct Held<'a> {
    members: &'a [u8],
    weight: u32,
    settings: u32,
}

/// What is told where nothing is held.
const NOTHING: Held<'static> = Held {
    members: &[],
    weight: 0,
    settings: 1,
};

/// What is told where measure 1 of the diamond is held.
const MEASURE_1: Held<'static> = Held {
    members: &[1],
    weight: 3,
    settings: 2,
};

/// Checks what is told of the held set.
fn check_held(card: &[u8], taken: &NumberSet, expected: &Held) -> Result<(), Fail> {
    let cutset = choose_cutset(&Card::open(card), taken)?;
    let held = Held {
        members: cutset.members(),
        weight: cutset.weight(),
        settings: cutset.settings(),
    };
    if held != *expected {
        return Err(Fail::new(format_args!("what is told is {held:?}")));
    }
    Ok(())
}

/// Checks that no set is chosen, since some loop's openers are all barred and untaken.
fn check_loop_barred(card: &[u8], taken: &NumberSet) -> Result<(), Fail> {
    match choose_cutset(&Card::open(card), taken) {
        Ok(_) => Err(Fail::new("a set is chosen")),
        Err(ChoiceFault::LoopBarred) => Ok(()),
        Err(_) => Err(Fail::new("refused for another reason")),
    }
}

#[test]
fn a_loop_is_opened_at_the_smallest_share() -> Result<(), Fail> {
    let taken = NumberSet::empty();
    check_picks(DIAMOND, &taken, &[pick(1, 384)])?;
    check_held(DIAMOND, &taken, &MEASURE_1)
}

#[test]
fn a_barred_measure_is_not_picked() -> Result<(), Fail> {
    let taken = NumberSet::empty();
    let mut card = *DIAMOND;
    card[BARRED_1] = 1;
    check_picks(&card, &taken, &[pick(2, 512)])?;
    let held = Held {
        members: &[2],
        weight: 4,
        settings: 2,
    };
    check_held(&card, &taken, &held)
}

#[test]
fn a_loop_of_barred_openers_is_refused_until_one_is_taken() -> Result<(), Fail> {
    let card = barred(DIAMOND);
    check_loop_barred(&card, &NumberSet::empty())?;
    // 3 is driven by both its neighbours, so it opens nothing
    check_loop_barred(&card, &only(3))?;
    check_held(&card, &only(1), &NOTHING)
}

#[test]
fn a_number_that_is_no_measure_changes_nothing() -> Result<(), Fail> {
    check_held(DIAMOND, &only(100), &MEASURE_1)
}

#[test]
fn nothing_is_held_of_no_measures() -> Result<(), Fail> {
    check_picks(EMPTY, &NumberSet::empty(), &[])?;
    check_held(EMPTY, &NumberSet::empty(), &NOTHING)
}

#[test]
fn nothing_is_held_of_64_measures_in_a_row(rt: HostRuntime) -> Result<(), Fail> {
    check_held(&chain(rt.alloc())?, &NumberSet::empty(), &NOTHING)
}

/// The header and the records of a card of seven measures of two classes, with weights 3, 1 and then 10: 0 drives 1 to 4, of which 1 and 2
/// drive 5, and 3 and 4 drive 6.
const TWIN: &[u8; 128] = b"\
    \x07\0\0\0\x22\0\0\0\x10\0\0\0\x80\0\0\0\
    \x02\0\0\0\xff\xff\xff\0\x03\0\0\0\0\0\0\0\
    \x02\0\x01\0\0\xff\xff\0\x01\0\0\0\x02\0\0\0\
    \x02\0\x01\0\0\xff\xff\0\x0a\0\0\0\x06\0\0\0\
    \x02\0\x01\0\0\xff\xff\0\x0a\0\0\0\x0a\0\0\0\
    \x02\0\x01\0\0\xff\xff\0\x0a\0\0\0\x0e\0\0\0\
    \x02\0\x02\0\x01\x02\xff\0\x0a\0\0\0\x12\0\0\0\
    \x02\0\x02\0\x03\x04\xff\0\x0a\0\0\0\x1a\0\0\0";

/// Adds so many entries, each 0.
fn add_entries(card: &mut Vec<u8>, entries: u32) -> Result<(), AllocError> {
    card.resize(card.len() + 4 * entries as usize, 0)
}

#[test]
fn a_pick_is_left_out_where_a_later_one_opens_its_loop_too(rt: HostRuntime) -> Result<(), Fail> {
    let taken = NumberSet::empty();
    let mut card = Vec::new(rt.alloc());
    card.extend_from_slice(TWIN)?;
    add_entries(&mut card, 34)?;
    // 0 has four edges and 768 to begin with; 1 is picked at 256 / 2, its loop is pruned and takes two edges of 0 along, each for 128
    check_picks(&card, &taken, &[pick(1, 128), pick(0, 256)])?;
    let held = Held {
        members: &[0],
        weight: 3,
        settings: 2,
    };
    check_held(&card, &taken, &held)
}

/// A record of a measure that is not barred.
fn record(classes: u8, drivers: u8, driven_by: [u8; 3], weight: u8, start: u32) -> [u8; 16] {
    let [first, second, third] = driven_by;
    let [a, b, c, d] = start.to_le_bytes();
    [
        classes, 0, drivers, 0, first, second, third, 0, weight, 0, 0, 0, a, b, c, d,
    ]
}

/// A card of six diamonds. Their measures have eight classes each, but for measure 21, which has `classes`.
fn six_diamonds(heap: Global, classes: u8) -> Result<Vec<u8>, AllocError> {
    let entries = 3_312 + 72 * u32::from(classes);
    let mut card = Vec::new(heap);
    card.extend_from_slice(&[24, 0, 0, 0])?;
    card.extend_from_slice(&entries.to_le_bytes())?;
    card.extend_from_slice(&[16, 0, 0, 0, 144, 1, 0, 0])?;
    for i in 0..6u8 {
        let top = 4 * i;
        let left = if i < 5 { 8 } else { classes };
        let start = 648 * u32::from(i);
        let next = start + 8 + 8 * u32::from(left);
        card.extend_from_slice(&record(8, 0, [255, 255, 255], 5, start))?;
        card.extend_from_slice(&record(left, 1, [top, 255, 255], 3, start + 8))?;
        card.extend_from_slice(&record(8, 1, [top, 255, 255], 4, next))?;
        card.extend_from_slice(&record(8, 2, [top + 1, top + 2, 255], 1, next + 64))?;
    }
    add_entries(&mut card, entries)?;
    Ok(card)
}

/// Checks what is held of six diamonds: of each the second measure, with these settings.
fn check_six(heap: Global, classes: u8, settings: u32) -> Result<(), Fail> {
    let card = six_diamonds(heap, classes)?;
    if Card::open(&card).count() != 24 {
        return Err(Fail::new("the card is refused"));
    }
    let held = Held {
        members: &[1, 5, 9, 13, 17, 21],
        weight: 18,
        settings,
    };
    check_held(&card, &NumberSet::empty(), &held)
}

#[test]
fn settings_are_told_up_to_65_536(rt: HostRuntime) -> Result<(), Fail> {
    check_six(rt.alloc(), 1, 32_768)?;
    check_six(rt.alloc(), 2, 65_536)?;
    check_six(rt.alloc(), 3, 65_537)?;
    check_six(rt.alloc(), 8, 65_537)
}
