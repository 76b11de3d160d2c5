//! The choice of a held set: the two-stage method over any source and any set of taken measures.
#![tactic(auto)]

mod choice;
mod choose;
mod fault;
mod fixed_list;
mod holdings;
mod pick;
mod picking;
mod picks;
mod stage;
mod thinning;

pub use choice::{Cutset, MOST_SETTINGS};
pub use choose::choose_cutset;
pub use fault::ChoiceFault;
pub use pick::Pick;
pub use picking::pick_measures;
pub use picks::Picks;
pub use thinning::leave_out;
