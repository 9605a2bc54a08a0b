ghost use Rattle.std.specs.Prelude.{◌≡◌, ◌/◌, ◌%◌, ◌+◌, ◌≤◌, ◌<◌, ◌^◌, ◌↔◌, length, slice_index, IsTrue, IfOk, Ok, true, SomeIff};
ghost use Rattle.std.specs.Int.{w16, cast_signed};
ghost use Rattle.ld_base.specs.Message.{Contents, IsMessage};
ghost use Rattle.relay_message.specs.Fields.{number_at};
ghost use Rattle.relay_message.specs.FitPhases.{FitPhases};
ghost use Rattle.relay_message.specs.MessageOf.{MessageOf};
ghost use Rattle.relay_message.specs.Reading.{is_address, is_checked, is_marked, phases_at, read_message};

use crate::MessageFault;
use ld_base::{Echo, Message, Phases, Station};
use message_check::check_fast;

/// The message that these bytes spell, or the first fault by number.
pub fn decode(bytes: &[u8; 36]) -> Result<Message, MessageFault>
    ensures reads { result ≡ read_message bytes.now }
    ensures only { IfOk result (λ m. MessageOf bytes.now m) }
    ensures message { IfOk result (λ m. IsMessage m × FitPhases m.phases) }
    ensures exact { (m : Contents) → IsMessage m → MessageOf bytes.now m → result ≡ Ok m }
{
    read(bytes)
}

// Whether the first two bytes are the marker.
pub(crate) fn is_marked(bytes: &[u8]) -> bool
    requires { length bytes.now ≡ 36 }
    ensures { result ≡ is_marked bytes.now }
{
    bytes[0] == 0xD5 && bytes[1] == 0x94
}

// Whether the last four bytes are the check of those before.
fn is_checked(bytes: &[u8]) -> bool
    requires { length bytes.now ≡ 36 }
    ensures { result ≡ is_checked bytes.now }
{
    let (front, check) = bytes.split_at(32);
    number_at(check, 0) == check_fast(front)
}

// The same as `decode` of a slice.
#[tactic(auto, unfolding(crate::specs::Reading::read_message))]
pub(crate) fn read(bytes: &[u8]) -> Result<Message, MessageFault>
    requires { length bytes.now ≡ 36 }
    ensures reads { result ≡ read_message bytes.now }
    ensures message { IfOk result (λ m. IsMessage m × FitPhases m.phases) }
{
    if !is_marked(bytes) {
        return Err(MessageFault::Marker);
    }
    if !is_checked(bytes) {
        return Err(MessageFault::Check);
    }
    let Some((from, to)) = stations_of(bytes[2]) else {
        return Err(MessageFault::Address(bytes[2]));
    };
    let flags = bytes[3];
    if flags > 1 {
        return Err(MessageFault::Flags(flags));
    }
    let echo = Echo {
        sent: stamp_at(bytes, 14),
        came: stamp_at(bytes, 20),
    };
    if flags == 0 && !(echo.sent == 0 && echo.came == 0) {
        return Err(MessageFault::EchoFields);
    }
    Ok(Message {
        from,
        to,
        number: number_at(bytes, 4),
        sent: stamp_at(bytes, 8),
        echo: if flags == 0 { None } else { Some(echo) },
        phases: phases_at(bytes),
    })
}

// The two stations of an address.
fn stations_of(address: u8) -> Option<(Station, Station)>
    ensures { SomeIff result (is_address address ≡ true) (address / 16, address % 16) }
{
    let from = Station::new(address / 16)?;
    let to = Station::new(address % 16)?;
    if from == to { None } else { Some((from, to)) }
}

// The number of four bytes from a place on.
fn number_at(bytes: &[u8], place: usize) -> u32
    requires { place + 4 ≤ length bytes.now }
    ensures { result ≡ number_at place 4 bytes.now }
{
    let bytes = &bytes[place..];
    u32::from_be_bytes([bytes[0], bytes[1], bytes[2], bytes[3]])
}

// The stamp of six bytes from a place on.
fn stamp_at(bytes: &[u8], place: usize) -> u64
    requires { place + 6 ≤ length bytes.now }
    ensures stamp { result ≡ number_at place 6 bytes.now }
    ensures few { result < 2 ^ 48 }
{
    let bytes = &bytes[place..];
    u64::from_be_bytes([
        0, 0, bytes[0], bytes[1], bytes[2], bytes[3], bytes[4], bytes[5],
    ])
}

// The phases from place 26 on.
fn phases_at(bytes: &[u8]) -> Phases
    requires { length bytes.now ≡ 36 }
    ensures { result ≡ phases_at bytes.now }
{
    Phases {
        a: i16::from_be_bytes([bytes[26], bytes[27]]),
        b: i16::from_be_bytes([bytes[28], bytes[29]]),
        c: i16::from_be_bytes([bytes[30], bytes[31]]),
    }
}
