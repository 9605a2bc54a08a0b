/// A lock: the word that is expected of the present frame, the frames in a row without theirs, and how many bits of the
/// present frame have come.
#[derive(Clone, Copy, Debug, PartialEq, Eq)]
pub(crate) struct Lock {
    pub(crate) odd: bool,
    pub(crate) missed: u8,
    pub(crate) held: u16,
}
