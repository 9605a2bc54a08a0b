//! How a call ends.

ghost use Rattle.std.specs.Prelude.{◌≡◌};
ghost use Rattle.terminal_c.specs.Status.{status_number};

/// How a call ends. Where it isn't `Done`, nothing changed.
#[derive(Clone, Copy, Debug, PartialEq, Eq)]
pub(crate) enum Status {
    /// The call was made.
    Done,
    /// The handle holds no terminal.
    Empty,
    /// The handle holds a terminal.
    Full,
    /// The settings are refused.
    Settings,
    /// There is no such station.
    Station,
    /// The stamp is above the last one that a clock can show.
    Stamp,
    /// The station is no peer of the terminal.
    Peer,
    /// There are more than 256 bits.
    Bits,
    /// Memory is refused.
    Memory,
}

impl Status {
    /// The number of the status for C.
    pub(crate) fn number(self) -> u32
        ensures { result ≡ status_number self }
    {
        match self {
            Status::Done => 0,
            Status::Empty => 1,
            Status::Full => 2,
            Status::Settings => 3,
            Status::Station => 4,
            Status::Stamp => 5,
            Status::Peer => 6,
            Status::Bits => 7,
            Status::Memory => 8,
        }
    }
}
