use arrayvec::ArrayVec;

/// What a frame gives of a line's payload.
#[derive(Clone, Debug, Drop, PartialEq, Eq)]
pub enum Piece {
    /// The bytes of a good frame, one a channel.
    Bytes(ArrayVec<u8, 12>),
    /// A bad frame, whose bytes are not known.
    Gap,
}
