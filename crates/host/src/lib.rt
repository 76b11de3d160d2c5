//! What a host asks of the panel: the listing of a card, as text in a row of bytes.
#![tactic(auto)]

mod listing;
mod writer;

pub use listing::{ROW_LENGTH, write_listing};
