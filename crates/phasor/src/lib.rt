//! Full-cycle phasors: the last cycle of sample sets, and its sums with a cosine and a sine.
#![tactic(auto)]

mod changes;
mod factors;
pub mod laws;
mod phasor;
mod ring;
mod steps;
mod window;

pub use factors::factor;
pub use phasor::Phasor;
pub use steps::Steps;
pub use window::Window;
