use ld_base::Words;

/// How a line is read: the count of channels of its frames, its header words, and how many misses in a row end a lock.
#[derive(Clone, Copy, Debug, PartialEq, Eq)]
pub(crate) struct Profile {
    pub(crate) channels: u8,
    pub(crate) words: Words,
    pub(crate) misses: u8,
}
