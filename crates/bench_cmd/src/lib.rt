//! The commands of linediff, from words and input to text and status.
#![tactic(auto)]

mod asked;
mod bench;
mod command;
mod cutting;
mod ends;
mod frame_lines;
mod frames;
mod gains;
mod generator;
mod input;
mod judge;
pub mod laws;
mod output;
mod record;
mod report_lines;
mod report_text;
mod reports;
mod runs;
mod script_wires;
mod status;
mod words;

pub use ends::{ReadSource, WriteSink};
pub use reports::report;
pub use runs::run;
pub use scenario_generator::generate;
pub use status::Status;
pub use words::words_of;
