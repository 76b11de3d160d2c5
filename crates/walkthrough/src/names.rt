//! What the measures of the jacket are called. A card has numbers alone.

/// The names of the measures, in their order.
static NAMES: [&str; 16] = [
    "height",
    "chest",
    "waist",
    "shoulder width",
    "back length",
    "front length",
    "armhole depth",
    "sleeve length",
    "sleeve width",
    "collar",
    "hip",
    "side seam",
    "button stance",
    "pocket height",
    "vent length",
    "lapel roll",
];

/// What a measure is called; a card with more measures than the jacket has some with no name.
pub(crate) fn name_of(measure: u8) -> &'static str {
    NAMES
        .get(measure as usize)
        .copied()
        .unwrap_or("another measure")
}
