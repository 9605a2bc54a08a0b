//! Recordings: the calls of one station's log, with its settings, as a text.
#![tactic(auto)]

mod call_lines;
mod setting_lines;
mod text;

pub use text::recording_text;

#[cfg(test)]
mod tests;
