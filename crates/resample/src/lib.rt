//! A peer's current at the own instants, mixed from the two values between whose samples they lie.
#![tactic(auto)]

mod between;
pub mod laws;
mod mixed;
mod mixer;
mod values;

pub use mixed::Mixed;
pub use mixer::Mixer;

#[cfg(test)]
mod tests;
