//! The header of a card.
ghost use Rattle.sources.specs.Passed.{HeaderPassed};

mod checks;

/// The header of a card, which has passed its checks, with the card's bytes: how many measures and how many entries it has.
#[derive(Clone, Copy)]
pub(crate) struct Header<'a> {
    bytes: &'a [u8],
    measures: u8,
    entries: u32,
    ghost passed: { HeaderPassed bytes.now measures entries },
}
