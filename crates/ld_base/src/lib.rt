//! What every layer of linediff speaks of: stamps, stations, samples, settings, wide numbers and the outside.
#![tactic(auto)]

mod chunk;
mod fields;
mod hand_wire;
mod memory;
mod message;
mod outside;
mod phases;
mod piece;
mod reason;
mod rule;
mod settings;
mod station;
mod ticks;
mod wide;
mod wire;
mod words;

pub use chunk::Chunk;
pub use fields::{Fields, Key};
pub use hand_wire::HandWire;
pub use memory::{MemorySink, MemorySource, SureSource};
pub use message::{Echo, Message};
pub use outside::{Failed, NoMemory, Sink, Source};
pub use phases::{Phases, SampleSet};
pub use piece::Piece;
pub use reason::Reason;
pub use rule::{Act, Rule};
pub use settings::{BadSetting, MESSAGE_BYTES, SLOT_TICKS, Settings};
pub use station::Station;
pub use ticks::Ticks;
pub use wide::Wide;
pub use wire::{Wire, WireError};
pub use words::Words;

#[cfg(test)]
mod tests;
