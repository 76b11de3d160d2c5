//! What a plan of measures is, its limits, and the interface that a plan is read through.
#![tactic(auto)]

mod limits;
mod source;

pub use limits::{MOST_ALTERATION, MOST_CLASSES, MOST_DRIVERS, MOST_MEASURES, NEVER};
pub use source::Source;
