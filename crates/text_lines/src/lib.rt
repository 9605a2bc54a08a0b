//! Lines of text: their fields, and the words of a terminal's answers.
#![tactic(auto)]

pub mod laws;
mod text_line;
mod words;

pub use text_line::TextLine;
pub use words::{alarm_name, letter};

#[cfg(test)]
mod tests;
