//! Damaged cards. Each is the diamond with up to two bytes changed, cut or extended to a length, and has to be refused with the number
//! and the place of its first fault. Both are written by hand from the rules, and not computed: a field of the header is told at its first
//! byte, each byte of a record at its own place, a start at the record's place and 12, the total at byte 4, an entry at its first byte, a
//! wrong length by the length.
use crate::cards::{DIAMOND, LENGTH};
use sources::Card;
use std::alloc::Global;
use std::test::Fail;

/// A way to damage the diamond, and how the card that comes of it is refused.
struct Damage {
    /// What is wrong.
    name: &'static str,
    /// The changed bytes: where each is, and its value.
    changes: &'static [(usize, u8)],
    /// The length of the card.
    length: usize,
    /// The number of its first fault.
    number: u8,
    /// The place of its first fault.
    place: usize,
}

/// A damage in one line.
macro_rules! damage {
    ($name:literal, $changes:expr, $length:expr => $number:literal at $place:literal) => {
        Damage {
            name: $name,
            changes: &$changes,
            length: $length,
            number: $number,
            place: $place,
        }
    };
}

/// Every damage.
const DAMAGES: [Damage; 62] = [
    // the length of the header
    damage!("no byte", [], 0 => 1 at 0),
    damage!("part of a header", [], 15 => 1 at 15),
    // the header
    damage!("65 measures", [(0, 65)], LENGTH => 2 at 0),
    damage!("260 measures", [(1, 1)], LENGTH => 2 at 0),
    damage!("a low zero byte", [(2, 1)], LENGTH => 2 at 2),
    damage!("a high zero byte", [(3, 1)], LENGTH => 2 at 2),
    damage!("12,289 entries", [(4, 1), (5, 48)], LENGTH => 2 at 4),
    damage!("many entries", [(7, 1)], LENGTH => 2 at 4),
    damage!("records at 17", [(8, 17)], LENGTH => 2 at 8),
    damage!("records far off", [(11, 1)], LENGTH => 2 at 8),
    damage!("entries at 81", [(12, 81)], LENGTH => 2 at 12),
    damage!("entries far off", [(15, 1)], LENGTH => 2 at 12),
    damage!("a measure less", [(0, 3)], LENGTH => 2 at 12),
    // the length
    damage!("a byte short", [], 151 => 3 at 151),
    damage!("a byte long", [], 153 => 3 at 153),
    damage!("a header alone", [], 16 => 3 at 16),
    damage!("an entry less", [(4, 17)], LENGTH => 3 at 152),
    // the record of measure 1, which begins at 32
    damage!("no class", [(32, 0)], LENGTH => 4 at 32),
    damage!("nine classes", [(32, 9)], LENGTH => 4 at 32),
    damage!("barred by 2", [(33, 2)], LENGTH => 4 at 33),
    damage!("four drivers", [(34, 4)], LENGTH => 4 at 34),
    damage!("zero byte 3", [(35, 1)], LENGTH => 4 at 35),
    damage!("drives itself", [(36, 1)], LENGTH => 5 at 36),
    damage!("a later driver", [(36, 2)], LENGTH => 5 at 36),
    damage!("driver missing", [(36, 255)], LENGTH => 5 at 36),
    damage!("unused byte 5", [(37, 0)], LENGTH => 4 at 37),
    damage!("unused byte 6", [(38, 254)], LENGTH => 4 at 38),
    damage!("zero byte 7", [(39, 1)], LENGTH => 4 at 39),
    damage!("zero byte 10", [(42, 1)], LENGTH => 4 at 42),
    damage!("zero byte 11", [(43, 1)], LENGTH => 4 at 43),
    damage!("start byte 0", [(44, 3)], LENGTH => 6 at 44),
    damage!("start byte 1", [(45, 1)], LENGTH => 6 at 44),
    damage!("start byte 2", [(46, 1)], LENGTH => 6 at 44),
    damage!("start byte 3", [(47, 1)], LENGTH => 6 at 44),
    // the other records, which begin at 16, 48 and 64
    damage!("0 has a driver", [(18, 1), (20, 0)], LENGTH => 5 at 20),
    damage!("0 has 3 classes", [(16, 3)], LENGTH => 6 at 44),
    damage!("2 has no class", [(48, 0)], LENGTH => 4 at 48),
    damage!("1 and 1 again", [(69, 1)], LENGTH => 5 at 69),
    damage!("2 and 2 again", [(68, 2)], LENGTH => 5 at 69),
    damage!("second unused", [(66, 1)], LENGTH => 4 at 69),
    damage!("third unmarked", [(70, 0)], LENGTH => 4 at 70),
    damage!("third missing", [(66, 3)], LENGTH => 5 at 70),
    damage!("third as first", [(66, 3), (70, 1)], LENGTH => 5 at 70),
    damage!("last start", [(76, 9)], LENGTH => 6 at 76),
    // the total
    damage!("a longer table", [(64, 3)], LENGTH => 6 at 4),
    damage!("a shorter table", [(64, 1)], LENGTH => 6 at 4),
    damage!("an entry more", [(4, 19)], 156 => 6 at 4),
    // the entries, which begin at 80; the last two are never and 1,000,000
    damage!("1,000,001", [(148, 65)], LENGTH => 7 at 148),
    damage!("4,294,967,294", [(144, 254)], LENGTH => 7 at 144),
    damage!("first too large", [(82, 16)], LENGTH => 7 at 80),
    // two faults at once: the first in the order of the checks is told
    damage!("measures, zero", [(0, 65), (2, 1)], LENGTH => 2 at 0),
    damage!("entries, records", [(7, 1), (8, 17)], LENGTH => 2 at 4),
    damage!("header, length", [(12, 81)], 151 => 2 at 12),
    damage!("length, classes", [(32, 9)], 151 => 3 at 151),
    damage!("barred, classes", [(33, 2), (32, 0)], LENGTH => 4 at 32),
    damage!("zero, driver", [(35, 1), (36, 1)], LENGTH => 4 at 35),
    damage!("driver, unused", [(36, 1), (37, 0)], LENGTH => 5 at 36),
    damage!("zero, start", [(43, 1), (44, 3)], LENGTH => 4 at 43),
    damage!("start, later class", [(44, 3), (48, 0)], LENGTH => 6 at 44),
    damage!("zero, total", [(67, 1), (64, 3)], LENGTH => 4 at 67),
    damage!("total, entry", [(64, 3), (83, 1)], LENGTH => 6 at 4),
    damage!("two entries", [(148, 65), (87, 1)], LENGTH => 7 at 84),
];

/// Makes the damaged card, and checks how it is refused.
fn check_refused(heap: Global, damage: &Damage) -> Result<(), Fail> {
    let mut card = DIAMOND.to_vec(heap)?;
    for &(at, value) in damage.changes {
        *card.get_mut(at).ok_or(damage.name)? = value;
    }
    card.resize(damage.length, 0)?;
    match Card::check(&card) {
        Err(fault) if (fault.number(), fault.place()) == (damage.number, damage.place) => Ok(()),
        answer => Err(Fail::new(format_args!("{}: {answer:?}", damage.name))),
    }
}

#[test]
fn damaged_cards_are_refused(rt: HostRuntime) -> Result<(), Fail> {
    for damage in &DAMAGES {
        check_refused(rt.alloc(), damage)?;
    }
    Ok(())
}
