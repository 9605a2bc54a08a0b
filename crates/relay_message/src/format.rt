ghost use Rattle.std.specs.Prelude.{◌≡◌, ◌≢◌, ◌≤◌, ℕ, List, ◌∷◌, None, Option, Result, length};
ghost use Rattle.relay_message.specs.Messages.{Layout};
ghost use Rattle.relay_message.specs.declared.fault.MessageFault.{MessageFault};

use crate::MessageFault;

/// A format of messages that a hunter looks for: how many bytes a message has, with which byte it begins, and what so
/// many bytes tell.
pub trait Format {
    type Message: Drop;

    /// Its layout.
    ghost layout: { Layout Self.Message MessageFault };

    ghost SIZE: { ℕ };

    ghost FIRST: { ℕ };

    /// The bytes of a message, 12 to 36.
    const SIZE: usize;

    /// The first byte of a message.
    const FIRST: u8;

    /// What so many bytes tell: a message, or the fault for which they are refused. None where they don't begin with the
    /// marker of a message; then no check is calculated.
    fn read(bytes: &[u8]) -> Option<Result<Self::Message, MessageFault>>
        requires { length bytes.now ≡ SIZE }
        ensures { result ≡ layout.read bytes.now };

    ghost size_is: { layout.size ≡ SIZE };

    ghost size_fits: { (12 ≤ SIZE) × (SIZE ≤ 36) };

    ghost begins: { (byte : ℕ) (bytes : List ℕ) → byte ≢ FIRST → layout.read (byte ∷ bytes) ≡ None };
}
