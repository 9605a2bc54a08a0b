/// What is decided of a phase at a set.
#[derive(Clone, Copy, Debug, PartialEq, Eq, Hash)]
pub enum Verdict {
    /// There is no full cycle of consecutive sets yet.
    Waiting,
    /// The phase isn't outside the restraint region.
    Restrain,
    /// The phase is outside, for fewer consecutive sets than a trip needs.
    Outside,
    /// The phase was outside in as many consecutive sets as a trip needs.
    Trip,
}
