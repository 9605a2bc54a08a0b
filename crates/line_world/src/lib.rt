//! Terminals over wires in true time.
#![tactic(auto)]

mod cable;
mod clock_phases;
pub mod laws;
mod sampler;
mod terminals;
mod tick;
mod world;

pub use line_journal::{Line, Total, directed_lines};
pub use script_wire::ScriptWire;
pub use world::{Stepped, World};
