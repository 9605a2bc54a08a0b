use ld_base::Phases;
use pingpong::Exchange;

/// The current of a peer at the instant of an own sample, mixed from the values of two messages whose numbers follow each other.
#[derive(Clone, Copy, Debug, PartialEq, Eq)]
pub struct Mixed {
    /// The number of the own sample.
    pub own: u32,
    /// The number of the first of the two messages.
    pub first: u32,
    /// How far the own sample lies behind the peer's first one, in half ticks: from 0 to twice the spacing, without its end.
    pub weight: u32,
    /// The exchange by which the own sample was found to lie there.
    pub exchange: Exchange,
    /// The mixed currents: each lies between the two that were sent, and is the first where the weight is 0.
    pub values: Phases,
}
