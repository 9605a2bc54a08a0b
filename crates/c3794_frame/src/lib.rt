//! The frame of a C37.94 line: 256 bits, each data bit followed by its complement.
#![tactic(auto)]

mod complements;
mod decoding;
mod encoding;
mod frame;
mod header;
pub mod laws;
mod nibbles;

pub use decoding::{FrameFault, decode};
pub use encoding::{encode, encode_into};
pub use frame::Frame;
pub use header::{header_word, word_of};

#[cfg(test)]
mod tests;
