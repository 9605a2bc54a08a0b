ghost use Rattle.std.proofs.Common.{lit≤, refl};
ghost use Rattle.relay_message.specs.Marked.{unmarked};
ghost use Rattle.relay_message.specs.Reading.{relay_layout};

use crate::decoding::{is_marked, read};
use crate::{Format, MessageFault};
use ld_base::Message;

/// The relay message of 36 bytes.
pub struct Whole;

impl Format for Whole {
    type Message = Message;

    ghost layout = { relay_layout };

    ghost SIZE = { 36 };

    ghost FIRST = { 0xD5 };

    const SIZE: usize = 36;

    const FIRST: u8 = 0xD5;

    fn read(bytes: &[u8]) -> Option<Result<Message, MessageFault>> {
        if is_marked(bytes) {
            Some(read(bytes))
        } else {
            None
        }
    }

    ghost size_is = { refl };

    ghost size_fits = { (lit≤ tt, lit≤ tt) };

    ghost begins = { unmarked };
}
