//! Scenarios: settings, clocks, waveforms and scripts, read from text.
#![tactic(auto)]

mod clocks;
mod column;
mod draft;
mod kind;
pub mod laws;
mod reading;
mod record;
mod scenario;
mod shape;

pub use reading::{ReadScenario, read};
pub use scenario::Scenario;
pub use shape::{Shape, ShapeFrom};

#[cfg(test)]
mod tests;
