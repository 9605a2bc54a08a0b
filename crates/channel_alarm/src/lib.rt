//! The alarms of one peer's channel: what its receiver, its messages and its wires tell, as alarms that turn on and off.
#![tactic(auto)]

mod alarm;
mod alarms;

pub use alarm::{Alarm, Facts, Turn};
pub use alarms::Alarms;

#[cfg(test)]
mod tests;
