//! The sentences that tell a fault of a card, and a refusal.
use panel::Refusal;
use sources::CardFault;
use std::test::Fail;

/// Each fault, and its sentence.
const FAULTS: [(CardFault, &str); 8] = [
    (
        CardFault::TooShort { length: 15 },
        "the card has 15 bytes, fewer than its header",
    ),
    (
        CardFault::HeaderField { place: 8 },
        "the header's field at byte 8 is outside its values",
    ),
    (
        CardFault::WrongLength { length: 151 },
        "the card has 151 bytes, not as many as its header says",
    ),
    (
        CardFault::RecordByte { place: 32 },
        "the record's byte 32 is outside its values",
    ),
    (
        CardFault::DriverByte { place: 36 },
        "the driver at byte 36 has no lower number, or is named twice",
    ),
    (
        CardFault::TableStart { place: 44 },
        "the start at byte 44 is not where the earlier tables end",
    ),
    (
        CardFault::EntryTotal,
        "the number of entries at byte 4 is not that of the tables",
    ),
    (
        CardFault::EntryValue { place: 80 },
        "the entry at byte 80 is neither within the limit nor never",
    ),
];

#[test]
fn a_fault_is_told(rt: HostRuntime) -> Result<(), Fail> {
    for (fault, sentence) in &FAULTS {
        assert_eq!(rt; format!(in rt.alloc(); "{fault}")?.as_str(), *sentence);
    }
    Ok(())
}

/// Each refusal, and its sentence.
const REFUSALS: [(Refusal, &str); 4] = [
    (
        Refusal::Card(CardFault::RecordByte { place: 32 }),
        "refusal 4: the record's byte 32 is outside its values",
    ),
    (
        Refusal::LoopBarred,
        "refusal 14: the measures that would open some loop are all barred",
    ),
    (
        Refusal::HoldsTooLittle,
        "refusal 15: a measure holds less than is to come off it",
    ),
    (
        Refusal::ShortRow,
        "refusal 18: the row is too short for a listing",
    ),
];

#[test]
fn a_refusal_is_told(rt: HostRuntime) -> Result<(), Fail> {
    for (refusal, sentence) in &REFUSALS {
        assert_eq!(rt; format!(in rt.alloc(); "{refusal}")?.as_str(), *sentence);
    }
    Ok(())
}
