use ld_base::{Chunk, Phases, Station};

/// What happened at one true time.
#[derive(Clone, Copy, Debug, PartialEq, Eq)]
pub enum What {
    /// A station took a sample.
    Took {
        station: Station,
        values: Phases,
    },
    /// A station sent a frame on each of its lines, in the order of the peers.
    Slot {
        station: Station,
        first: [u8; 32],
        second: Option<[u8; 32]>,
    },
    /// Bits of the line from a peer came to a station.
    Came {
        station: Station,
        peer: Station,
        bits: Chunk,
    },
    /// A frame of a station to a peer couldn't be sent.
    SendFailed {
        station: Station,
        peer: Station,
    },
    /// The line from a peer couldn't be read at a station.
    TakeFailed {
        station: Station,
        peer: Station,
    },
}

/// An entry of a journal.
#[derive(Clone, Copy, Debug, PartialEq, Eq)]
pub struct Entry {
    /// The true time, in ticks.
    pub time: u64,
    /// The phases of the three stations' clocks then, in millionths of a tick.
    pub phases: [u64; 3],
    pub what: What,
}
