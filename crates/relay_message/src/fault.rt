/// Why some bytes are no message: the first of these that holds.
#[derive(Clone, Copy, Debug, PartialEq, Eq)]
pub enum MessageFault {
    /// The first two bytes aren't the marker.
    Marker,
    /// The last four bytes aren't the check of those before.
    Check,
    /// This stands in the place of the address, and a nibble of it isn't from 1 to 3, or both are equal.
    Address(u8),
    /// These are the flags, and a bit other than bit 0 is set.
    Flags(u8),
    /// No echo is flagged, and an echo field isn't zero.
    EchoFields,
}
