//! The trip rule: one verdict a set and phase.
#![tactic(auto)]

mod counting;
pub mod laws;
mod trip;
mod verdict;

pub use counting::{push_uncounted, region_of, run_after, verdict_of};
pub use trip::Trip;
pub use verdict::Verdict;
