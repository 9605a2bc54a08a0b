ghost use Rattle.std.specs.Prelude.{◌≡◌, ◌<◌, ◌^◌, ◌++◌};
ghost use Rattle.std.specs.Int.{bytes_high_first};
ghost use Rattle.ld_base.specs.Message.{IsMessage};
ghost use Rattle.message_check.specs.Check.{check_of};
ghost use Rattle.relay_message.specs.FitPhases.{FitPhases};
ghost use Rattle.relay_message.specs.MessageOf.{MessageOf, spelled, unchecked};

use ld_base::Message;
use message_check::check_fast;

/// The bytes of a message: the marker 0xD5 0x94, the address, the flags, the number, the send stamp, the stamps of the
/// echo, the phases, and the check of all these. (This project's own.)
pub fn encode(m: &Message) -> [u8; 36]
    ensures bytes { result ≡ spelled m.now }
    ensures message { MessageOf result m.now }
    ensures fits { IsMessage m.now × FitPhases m.now.phases }
{
    with_check(&unchecked(m))
}

// Some bytes and their check.
fn with_check(front: &[u8; 32]) -> [u8; 36]
    ensures bytes { result ≡ front.now ++ bytes_high_first 4 (check_of front.now) }
    ensures few { check_of front.now < 2 ^ 32 }
{
    let mut bytes = [0; 36];
    bytes[..32].copy_from_slice(front);
    bytes[32..].copy_from_slice(&check_fast(front).to_be_bytes());
    bytes
}

// The bytes in front of the check.
fn unchecked(m: &Message) -> [u8; 32]
    ensures bytes { result ≡ unchecked m.now }
    ensures message { IsMessage m.now }
    ensures fit { FitPhases m.now.phases }
{
    let number = m.number.to_be_bytes();
    let sent = m.sent.to_be_bytes();
    let (flags, echo_sent, echo_came) = match m.echo {
        Some(echo) => (1, echo.sent.to_be_bytes(), echo.came.to_be_bytes()),
        None => (0, [0; 8], [0; 8]),
    };
    let a = m.phases.a.to_be_bytes();
    let b = m.phases.b.to_be_bytes();
    let c = m.phases.c.to_be_bytes();
    [
        0xD5,
        0x94,
        m.from.get() * 16 + m.to.get(),
        flags,
        number[0],
        number[1],
        number[2],
        number[3],
        sent[2],
        sent[3],
        sent[4],
        sent[5],
        sent[6],
        sent[7],
        echo_sent[2],
        echo_sent[3],
        echo_sent[4],
        echo_sent[5],
        echo_sent[6],
        echo_sent[7],
        echo_came[2],
        echo_came[3],
        echo_came[4],
        echo_came[5],
        echo_came[6],
        echo_came[7],
        a[0],
        a[1],
        b[0],
        b[1],
        c[0],
        c[1],
    ]
}
