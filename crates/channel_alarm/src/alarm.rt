/// The alarms of a peer's channel. (This project's own.)
#[derive(Clone, Copy, Debug, PartialEq, Eq, Hash, Default)]
pub enum Alarm {
    /// The receiver of the line from the peer has no lock.
    #[default]
    Unlocked,
    /// The peer's receiver had no lock when it sent its last good frame.
    Yellow,
    /// No message was accepted for too long.
    Silent,
    /// No estimate of the clocks' offset is in force.
    Unaligned,
    /// A call on a wire to or from the peer failed, and nothing came since.
    Fault,
}

/// What is known of a peer's channel at a moment.
#[derive(Clone, Copy, Debug, PartialEq, Eq)]
pub struct Facts {
    /// The receiver of the line from the peer has a lock.
    pub locked: bool,
    /// The yellow bit of the last good frame.
    pub yellow: bool,
    /// Ticks since the last accepted message.
    pub quiet: u64,
    /// An estimate is in force.
    pub aligned: bool,
    /// A call on a wire failed, and nothing came since.
    pub faulty: bool,
}

/// An alarm that turned on or off.
#[derive(Clone, Copy, Debug, PartialEq, Eq, Default)]
pub struct Turn {
    pub alarm: Alarm,
    pub on: bool,
}
