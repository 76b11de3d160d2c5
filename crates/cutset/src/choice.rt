//! The chosen set.

mod methods;

use crate::fixed_list::FixedList;
pub use methods::MOST_SETTINGS;
use plan::MOST_MEASURES;

/// A chosen set of measures: its members in rising order, their weight, and the number of their settings.
#[derive(Clone, Copy)]
pub struct Cutset {
    members: FixedList<u8, MOST_MEASURES>,
    weight: u32,
    settings: u32,
}
