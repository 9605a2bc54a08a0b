//! The samples of a station and its peers, each under the number of the own sample to which it belongs.
#![tactic(auto)]

mod aligned;
pub mod laws;
mod ring;
mod store;

pub use ring::Numbered;
pub use store::{OwnTaken, Placed, Store};

#[cfg(test)]
mod tests;
