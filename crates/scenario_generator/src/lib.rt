//! The scenario of a number, so that anyone makes the same large scenario from two numbers.
#![tactic(auto)]

mod generator;
pub mod laws;
mod lines;
mod rows;
mod words;

pub use generator::generate;

#[cfg(test)]
mod tests;
