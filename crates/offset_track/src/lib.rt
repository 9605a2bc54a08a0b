//! The exchanges of a station with one peer, and which of them is in force.
#![tactic(auto)]

pub mod laws;
mod track;

pub use track::{Fresh, Taken, Track};

#[cfg(test)]
mod tests;
