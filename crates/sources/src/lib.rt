//! The ways in which a plan arrives.
#![tactic(auto)]

mod card;
mod fault;
mod header;
mod layout;
mod record;

pub use card::Card;
pub use fault::CardFault;
pub use layout::{LONGEST_CARD, READ_LIMIT};
