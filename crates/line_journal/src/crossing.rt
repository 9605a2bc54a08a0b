//! When messages and exchanges were on their way, in true time.

use ld_base::Message;
use pingpong::Exchange;

/// When a message was accepted, in true time, and when it began, where it equals one that began earlier on its line.
#[derive(Clone, Copy, Debug, PartialEq, Eq)]
pub struct Arrival {
    pub came: u64,
    pub began: Option<u64>,
}

/// A message that began on a line, the true time of its slot, and when its sender had accepted the last one from the receiver.
#[derive(Clone, Copy, Debug, PartialEq, Eq)]
pub struct Beginning {
    pub message: Message,
    pub time: u64,
    pub heard: Option<Arrival>,
}

/// The true times at which the two messages of an exchange were on their way: the first was sent and came, the second was sent
/// and came back.
#[derive(Clone, Copy, Debug, PartialEq, Eq, Default)]
pub struct Legs {
    pub sent: u64,
    pub came: u64,
    pub turned: u64,
    pub back: u64,
}

/// An exchange with its legs, where both its messages came as they were sent.
#[derive(Clone, Copy, Debug, PartialEq, Eq, Default)]
pub struct Crossing {
    pub exchange: Exchange,
    pub legs: Option<Legs>,
}
