//! The calm channel: on lines of constant delays every message arrives at its tick, and from a tick on that can be calculated an
//! exchange is in force at every moment.
#![tactic(auto)]

pub mod laws;
