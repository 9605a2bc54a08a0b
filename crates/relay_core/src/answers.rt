//! What a terminal answers to its calls.

ghost use Rattle.std.specs.Prelude.{◌≡◌, None, replicate};

use arrayvec::ArrayVec;
use bit_sync::Got;
use channel_alarm::Turn;
use ld_base::{Message, Station};
use offset_track::Taken;
use pingpong::Exchange;
use relay_message::MessageFault;
use sample_store::{OwnTaken, Placed};
use trip_logic::Verdict;

/// A set that was judged.
#[derive(Clone, Copy, Debug, PartialEq, Eq)]
pub struct Judged {
    /// Its number, in spacings of samples of the own clock.
    pub number: u32,
    /// The verdicts of the phases a, b and c.
    pub verdicts: [Verdict; 3],
}

/// An alarm of a peer's channel that turned on or off.
#[derive(Clone, Copy, Debug, PartialEq, Eq, Default)]
pub struct Change {
    pub peer: Station,
    pub turn: Turn,
}

/// The alarms that turned with a call, by peer and then in the order of the alarms.
pub type Changes = ArrayVec<Change, 10>;

/// What `Terminal::sample` answers.
#[derive(Debug, Drop)]
pub struct Sampled {
    /// What became of the sample.
    pub own: OwnTaken,
    /// The set that it completed.
    pub judged: Option<Judged>,
    pub changes: Changes,
}

/// A frame on its way to a peer.
#[derive(Clone, Copy, Debug, PartialEq, Eq)]
pub struct Outgoing {
    pub to: Station,
    /// The 256 bits of the frame, eight a byte.
    pub bytes: [u8; 32],
    /// The message whose first bytes it carries, where one begins.
    pub begun: Option<Message>,
}

impl Default for Outgoing {
    /// No bits to station 1.
    fn default() -> Outgoing
        ensures { result ≡ record { to = 1; bytes = replicate 32 0; begun = None } }
    {
        Outgoing {
            to: Station::default(),
            bytes: [0; 32],
            begun: None,
        }
    }
}

/// What `Terminal::slot` answers.
#[derive(Debug, Drop)]
pub struct Slotted {
    /// A frame for each peer, in their order.
    pub frames: ArrayVec<Outgoing, 2>,
    pub changes: Changes,
}

/// What a message that was complete is to the terminal.
#[derive(Clone, Copy, Debug, PartialEq, Eq)]
pub enum News {
    /// No message was complete.
    Nothing,
    /// Its address is right, and its number is above that of every message accepted from the peer before.
    Accepted(Message),
    /// Its address is right, but its number isn't above that of the last message accepted, which is `last`.
    Repeat { number: u32, last: u32 },
    /// It doesn't go from the peer to the terminal. This is its address byte: the sender in the high nibble, the receiver in the
    /// low one.
    Stranger { address: u8 },
}

/// What `Terminal::bits` answers.
#[derive(Debug, Drop)]
pub struct Heard {
    /// The frame that ended, good or bad.
    pub frame: Option<Got>,
    /// The message that was complete.
    pub news: News,
    /// The first fault for which a place of the payload is no message.
    pub refused: Option<MessageFault>,
    /// What became of the exchange of an accepted message, where it has an echo.
    pub taken: Option<Taken>,
    /// The exchange in force, where a message was accepted.
    pub chosen: Option<Exchange>,
    /// What became of the values of an accepted message, where an exchange is in force.
    pub placed: Option<Placed>,
    /// The set that they completed.
    pub judged: Option<Judged>,
    pub changes: Changes,
}

/// What a terminal answers to a call.
#[derive(Debug, Drop)]
pub enum Answer {
    /// To `Call::Sample`.
    Sampled(Sampled),
    /// To `Call::Slot`.
    Slotted(Slotted),
    /// To `Call::Bits`.
    Heard(Heard),
    /// To `Call::Fault`: the alarms that turned.
    Faulted(Changes),
}
