//! A directed line that does to its frames what the rules of a scenario say.
#![tactic(auto)]

mod chunks;
mod queue;
mod timetable;
mod wire;

pub use wire::ScriptWire;

#[cfg(test)]
mod tests;
