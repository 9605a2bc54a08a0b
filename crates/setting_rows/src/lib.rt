//! The rows of settings in front of a text's records: what a row sets, what is wrong with it, and the settings as a whole.
#![tactic(auto)]

mod ahead;
mod head;
pub mod laws;
mod reading;
mod refusal;
mod setting;

pub use ahead::Ahead;
pub use head::Head;
pub use reading::read_head;
pub use refusal::{Misread, Refusal};
pub use setting::{Known, Setting, key_name, keys, value_of};

#[cfg(test)]
mod tests;
