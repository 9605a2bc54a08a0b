use c3794_frame::{Frame, FrameFault};

/// What is got where a frame ends.
#[derive(Clone, Copy, Debug, PartialEq, Eq)]
pub enum Got {
    /// The frame, with its expected header word.
    Good(Frame),
    /// The first fault. It is `Header` where the expected word isn't there, which is a miss.
    Bad(FrameFault),
}

/// What a chunk brings.
#[derive(Clone, Copy, Debug, PartialEq, Eq)]
pub struct Fed {
    /// The frame that ends in the chunk. There is one at most.
    pub frame: Option<Got>,
    /// Whether there is a lock after the chunk.
    pub locked: bool,
}

/// The state of a receiver.
#[derive(Clone, Copy, Debug, PartialEq, Eq)]
pub enum SyncState {
    /// It looks for a lock.
    Hunting,
    /// It has a lock. `misses` counts the frames in a row without their expected word, 0 to the loss count less 1, and
    /// `held` the bits of the present frame that have come, 0 to 255.
    Locked { misses: u8, held: u16 },
}
