//! Tests that start from a card: how a damaged one is refused, what a whole one answers, what is picked and held for its plan, how it is
//! listed and what the listing leaves of the row, how long it can be, and the sentences that tell a fault or a refusal.
#![tactic(auto)]

#[cfg(test)]
mod accepted;
#[cfg(test)]
mod answers;
#[cfg(test)]
mod cards;
#[cfg(test)]
mod choices;
#[cfg(test)]
mod damages;
#[cfg(test)]
mod full;
#[cfg(test)]
mod listings;
#[cfg(test)]
mod sentences;
