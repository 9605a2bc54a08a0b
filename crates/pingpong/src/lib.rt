//! Exchanges of messages between two clocks, the clocks of the bench, and what happened to whom in a journal.
#![tactic(auto)]

mod clock;
mod exchange;
mod journal;
pub mod laws;

pub use clock::{Clock, Hand, RateFrom};
pub use exchange::{Exchange, exchange_of};
pub use journal::{Entry, What};

#[cfg(test)]
mod tests;
