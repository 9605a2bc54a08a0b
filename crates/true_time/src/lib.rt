//! What every journal of a scenario keeps of true time: no code, but the laws and their definitions.
#![tactic(auto)]

pub mod laws;
