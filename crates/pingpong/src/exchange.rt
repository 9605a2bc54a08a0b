ghost use Rattle.std.specs.Prelude.{◌≡◌, ◌<◌, ◌^◌, unsigned_abs};
ghost use Rattle.pingpong.specs.Exchange.{estimate2, exchange_of, round_trip};

use ld_base::{Message, Ticks};
use std::marker::Model;

/// One exchange of a station with a peer: the four stamps of a message there and one back, in ticks, each below 2^48.
/// (Channel-based alignment of IEEE C37.243.)
#[derive(Clone, Copy, Debug, PartialEq, Eq, Hash)]
pub struct Exchange {
    /// The own stamp at which the first message was sent.
    pub a1: u64,
    /// The peer's stamp at which it came.
    pub b2: u64,
    /// The peer's stamp at which the second message was sent.
    pub b3: u64,
    /// The own stamp at which that came.
    pub a4: u64,
}

impl Model for Exchange {
    ghost use Rattle.pingpong.specs.Exchange.{Stamps, AreStamps};

    ghost Value = { Stamps };

    ghost view = { λ e. record { a1 = e.a1; b2 = e.b2; b3 = e.b3; a4 = e.a4 } };

    ghost invariant = { λ e. AreStamps (record { a1 = e.a1; b2 = e.b2; b3 = e.b3; a4 = e.a4 }) };

    ghost inverse = { λ e. record { a1 = e.a1; b2 = e.b2; b3 = e.b3; a4 = e.a4 } };
}

impl Exchange {
    /// Twice the offset of the peer's clock for the own one, in ticks, if both messages took equally long:
    /// `(b2 - a1) + (b3 - a4)`.
    pub fn estimate2(&self) -> i64
        ensures estimate { result ≡ estimate2 self.now }
        ensures size { unsigned_abs result < 2 ^ 49 }
    {
        (self.b2 as i64 - self.a1 as i64) + (self.b3 as i64 - self.a4 as i64)
    }

    /// The ticks that both messages took together, by both clocks: `(a4 - a1) - (b3 - b2)`. Negative where a stamp is wrong.
    pub fn round_trip(&self) -> i64
        ensures { result ≡ round_trip self.now }
    {
        (self.a4 as i64 - self.a1 as i64) - (self.b3 as i64 - self.b2 as i64)
    }
}

/// The exchange that a message completes where it is accepted at the stamp `a4`. None exactly where the message has no echo.
/// Else `a1` is the echoed send stamp, `b2` the stamp at which that message came to the peer, and `b3` the message's own send
/// stamp.
pub fn exchange_of(m: &Message, a4: Ticks) -> Option<Exchange>
    ensures { result ≡ exchange_of m.now a4 }
{
    let echo = m.echo?;
    Some(Exchange {
        a1: echo.sent,
        b2: echo.came,
        b3: m.sent,
        a4: a4.get(),
    })
}

/// The exchange whose stamps are all 0.
impl Default for Exchange {
    ghost use Rattle.std.specs.Prelude.{◌≡◌};

    ghost is_default = { λ e. e ≡ record { a1 = 0; b2 = 0; b3 = 0; a4 = 0 } };

    fn default() -> Exchange {
        Exchange {
            a1: 0,
            b2: 0,
            b3: 0,
            a4: 0,
        }
    }
}
