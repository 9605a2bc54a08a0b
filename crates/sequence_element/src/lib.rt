//! The sequence element: faults that show in the zero or in the negative sequence of the phases, as those to earth through a high
//! resistance do, judged by the rule of the phases.
#![tactic(auto)]

mod element;
pub mod laws;
mod sequences;

pub use element::Sequence;
pub use sequences::{Wide, negative_of, zero_of};
