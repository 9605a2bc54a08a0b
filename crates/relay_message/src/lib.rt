//! The relay message of 36 bytes, and the hunter that finds messages in a stream of pieces with gaps.
#![tactic(auto)]

mod decoding;
mod encoding;
mod fault;
mod format;
mod hunter;
pub mod laws;
mod whole;
mod window;

pub use decoding::decode;
pub use encoding::encode;
pub use fault::MessageFault;
pub use format::Format;
pub use hunter::{Hunted, HuntedBy, Hunter, HunterOf};
pub use whole::Whole;

#[cfg(test)]
mod tests;
