use crate::Station;

/// What a rule of a line's script does.
#[derive(Clone, Copy, Debug, PartialEq, Eq, Hash)]
pub enum Act {
    /// From its first tick on frames come so many ticks after they were sent.
    Delay(u32),
    /// Frames are lost.
    Lose,
    /// This bit of each frame, counted from 0, is inverted.
    Flip(u16),
    /// Each frame comes once more, so many ticks after the first time.
    Repeat(u32),
    /// Each frame comes in two parts: so many bits, and the rest a tick later.
    Cut(u16),
    /// So many bits are missing at the front of each frame.
    Slip(u16),
    /// Each `send` fails.
    FailSend,
    /// Each `take` fails.
    FailTake,
}

/// A rule of the script of one directed line.
#[derive(Clone, Copy, Debug, PartialEq, Eq, Hash)]
pub struct Rule {
    /// The sender.
    pub from: Station,
    /// The receiver.
    pub to: Station,
    /// The first true tick that the rule covers. A delay counts from it on.
    pub first: u64,
    /// The last true tick that the rule covers. In a delay it is the first.
    pub last: u64,
    pub act: Act,
}
