//! The alpha plane: whether the currents of a line's ends lie in the restraint region.
#![tactic(auto)]

mod current;
pub mod laws;
mod region;

pub use current::Current;
pub use region::{BadRegion, Region};
