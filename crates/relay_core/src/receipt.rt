use ld_base::{Message, Ticks};

/// A message that was complete, and the terminal's time then.
#[derive(Clone, Copy, Debug, PartialEq, Eq)]
pub(crate) struct Receipt {
    pub(crate) message: Message,
    pub(crate) at: Ticks,
}
