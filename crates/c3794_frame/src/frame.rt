ghost use Rattle.std.specs.Prelude.{◌≡◌, ◌≤◌, ◌<◌, ℕ, length, slice_index, slice_range};

use std::marker::Model;

/// The bytes of payload that a frame of twelve channels carries.
pub const MOST_CHANNELS: usize = 12;

/// A frame: which header word it begins with, the count of channels, the yellow bit, and a byte of payload for each
/// channel. The bytes past the channels are 0xFF.
#[derive(Clone, Copy, Debug, PartialEq, Eq)]
pub struct Frame {
    odd: bool,
    channels: u8,
    yellow: bool,
    payload: [u8; MOST_CHANNELS],
}

impl Model for Frame {
    ghost use Rattle.c3794_frame.specs.FrameOf.{Layout};

    ghost Value = { Layout };

    ghost use Rattle.c3794_frame.specs.Frame.{IsFrame};
    ghost use Rattle.c3794_frame.specs.View.{layout};

    ghost view = { layout };

    ghost invariant = { λ f. IsFrame (layout f) };

    ghost inverse = { λ f. record { odd = f.odd; channels = f.channels; yellow = f.yellow; payload = f.payload } };
}

impl Frame {
    ghost use Rattle.c3794_frame.specs.Frame.{IsFrame, filled};

    /// A frame with a channel for each of these bytes. `odd` says that it begins with word B.
    pub fn new(odd: bool, yellow: bool, bytes: &[u8]) -> Frame
        requires { (1 ≤ length bytes.now) × (length bytes.now ≤ 12) }
        ensures frame { result ≡ record { odd = odd; channels = length bytes.now; yellow = yellow; payload = filled bytes.now } }
        ensures fits { IsFrame result }
    {
        let mut payload = [0xFF; MOST_CHANNELS];
        payload[..bytes.len()].copy_from_slice(bytes);
        Frame {
            odd,
            channels: bytes.len() as u8,
            yellow,
            payload,
        }
    }

    /// A frame of so many channels with these bytes, of which those past the channels are 0xFF.
    pub(crate) fn of(odd: bool, channels: u8, yellow: bool, payload: [u8; MOST_CHANNELS]) -> Frame
        requires channels { (1 ≤ channels) × (channels ≤ 12) }
        requires unused { (k : ℕ) → channels ≤ k → k < 12 → slice_index payload k ≡ 255 }
        ensures { result ≡ record { odd = odd; channels = channels; yellow = yellow; payload = payload } }
    {
        Frame {
            odd,
            channels,
            yellow,
            payload,
        }
    }

    /// Whether it begins with word B.
    pub fn odd(&self) -> bool
        ensures { result ≡ self.now.odd }
    {
        self.odd
    }

    /// The count of channels, 1 to 12.
    pub fn channels(&self) -> u8
        ensures channels { result ≡ self.now.channels }
        ensures in_range { (1 ≤ result) × (result ≤ 12) }
        ensures fits { IsFrame self.now }
    {
        self.channels
    }

    /// The yellow bit: the sender's receiver has no lock.
    pub fn yellow(&self) -> bool
        ensures { result ≡ self.now.yellow }
    {
        self.yellow
    }

    /// A byte for each channel, and 0xFF past them.
    pub fn payload(&self) -> [u8; MOST_CHANNELS]
        ensures payload { result ≡ self.now.payload }
        ensures fits { IsFrame self.now }
    {
        self.payload
    }
}
