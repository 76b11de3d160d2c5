//! The fitting panel.
#![tactic(auto)]

mod refusal;

pub use refusal::Refusal;
