//! The payload of a line: an outlet puts messages into frames, and an inlet takes their bytes out of them.
#![tactic(auto)]

mod inlet;
pub mod laws;
mod outlet;

pub use inlet::Inlet;
pub use outlet::{Busy, Outlet};

#[cfg(test)]
mod tests;
