ghost use Rattle.std.specs.Prelude.{◌≡◌};

use crate::{Phases, Station};
use std::marker::Model;

/// What a message tells of the last one that its sender accepted from the receiver: the send stamp that stood in it, and
/// the stamp at which it came, both in ticks.
#[derive(Clone, Copy, Debug, PartialEq, Eq, Hash)]
pub struct Echo {
    pub sent: u64,
    pub came: u64,
}

/// A relay message: one sample of its sender, with what the receiver needs for an estimate of their clocks' offset. The
/// stations differ, and each stamp is below 2^48.
#[derive(Clone, Copy, Debug, PartialEq, Eq, Hash)]
pub struct Message {
    /// The sender.
    pub from: Station,
    /// The receiver.
    pub to: Station,
    /// The number of the sample, in spacings of samples of the sender's clock.
    pub number: u32,
    /// The sender's stamp at the slot in which the message began, in ticks.
    pub sent: u64,
    /// The last message accepted from the receiver, where there was one.
    pub echo: Option<Echo>,
    /// The sample.
    pub phases: Phases,
}

impl Model for Message {
    ghost use Rattle.ld_base.specs.Message.{Contents, IsMessage};

    ghost Value = { Contents };

    ghost view = { λ m. record { from = m.from; to = m.to; number = m.number; sent = m.sent; echo = m.echo; phases = m.phases } };

    ghost invariant = { λ m. IsMessage (record { from = m.from; to = m.to; number = m.number; sent = m.sent; echo = m.echo; phases = m.phases }) };

    ghost inverse = { λ m. record { from = m.from; to = m.to; number = m.number; sent = m.sent; echo = m.echo; phases = m.phases } };
}
