ghost use Rattle.std.specs.Prelude.{◌<◌};

use crate::{Hunted, Hunter, MessageFault, decode, encode};
use arrayvec::ArrayVec;
use ld_base::{Echo, Message, Phases, Piece, Station};
use std::alloc::Global;
use std::test::Fail;

fn phases(a: i16, b: i16, c: i16) -> Phases {
    Phases { a, b, c }
}

// A message with the stamps of its echo, where they are given.
fn message(
    address: (u8, u8),
    number: u32,
    sent: u64,
    echo: Option<(u64, u64)>,
    phases: Phases,
) -> Result<Message, Fail> {
    let (from, to) = (station(address.0)?, station(address.1)?);
    if from == to || sent >= 1 << 48 {
        return Err(Fail::from("no message"));
    }
    let echo = match echo {
        None => None,
        Some((sent, came)) if sent < 1 << 48 && came < 1 << 48 => Some(Echo { sent, came }),
        Some(_) => return Err(Fail::from("no echo")),
    };
    Ok(Message {
        from,
        to,
        number,
        sent,
        echo,
        phases,
    })
}

fn station(number: u8) -> Result<Station, Fail> {
    Ok(Station::new(number).ok_or("no station")?)
}

// The 36 bytes of a message and its check.
fn checked(front: &[u8; 32], check: u32) -> [u8; 36] {
    let mut bytes = [0; 36];
    bytes[..32].copy_from_slice(front);
    bytes[32..].copy_from_slice(&check.to_be_bytes());
    bytes
}

const FIRST: &[u8; 32] =
    b"\xD5\x94\x12\x00\0\0\0\x01\0\0\0\0\x03\xE8\0\0\0\0\0\0\0\0\0\0\0\0\0\x01\xFF\xFF\0\0";

#[test]
fn messages_have_their_bytes(rt: HostRuntime) -> Result<(), Fail> {
    let largest = (1 << 48) - 1;
    let rows: [(Message, &[u8; 32], u32); 3] = [
        (
            message((1, 2), 1, 1000, None, phases(1, -1, 0))?,
            FIRST,
            0x575E_FD63,
        ),
        (
            message(
                (3, 2),
                u32::MAX,
                largest,
                Some((largest - 1, largest - 2)),
                phases(32767, -32768, -1),
            )?,
            b"\xD5\x94\x32\x01\xFF\xFF\xFF\xFF\xFF\xFF\xFF\xFF\xFF\xFF\xFF\xFF\xFF\xFF\xFF\xFE\xFF\xFF\xFF\xFF\xFF\xFD\x7F\xFF\x80\x00\xFF\xFF",
            0x2657_AF6A,
        ),
        (
            message((2, 3), 0, 0, Some((0, 0)), phases(0, 0, 0))?,
            b"\xD5\x94\x23\x01\0\0\0\0\0\0\0\0\0\0\0\0\0\0\0\0\0\0\0\0\0\0\0\0\0\0\0\0",
            0x8D59_F115,
        ),
    ];
    for (message, front, check) in rows {
        let bytes = checked(front, check);
        assert_eq!(rt; encode(&message), bytes);
        assert_eq!(rt; decode(&bytes), Ok(message));
    }
    Ok(())
}

// What stands at a place of the first message.
const SAME: (usize, u8) = (5, 0x00);

// Each fault alone, and beside greater ones: what stands otherwise in the bytes of the first message, and their check.
#[test]
fn the_least_fault_is_told(rt: HostRuntime) {
    let rows: [([(usize, u8); 4], u32, MessageFault); 21] = [
        (
            [(0, 0xD4), SAME, SAME, SAME],
            0x45B0_2E34,
            MessageFault::Marker,
        ),
        (
            [(1, 0x95), SAME, SAME, SAME],
            0x76D0_F11B,
            MessageFault::Marker,
        ),
        (
            [(0, 0x00), (2, 0x11), (3, 0x02), (14, 0x01)],
            0x0000_0000,
            MessageFault::Marker,
        ),
        ([SAME, SAME, SAME, SAME], 0x575E_FD62, MessageFault::Check),
        (
            [(31, 0x01), SAME, SAME, SAME],
            0x575E_FD63,
            MessageFault::Check,
        ),
        (
            [(2, 0x11), (3, 0x02), (14, 0x01), SAME],
            0x0000_0000,
            MessageFault::Check,
        ),
        (
            [(2, 0x11), SAME, SAME, SAME],
            0x8C06_BFF7,
            MessageFault::Address(0x11),
        ),
        (
            [(2, 0x00), SAME, SAME, SAME],
            0x4549_1067,
            MessageFault::Address(0x00),
        ),
        (
            [(2, 0x02), SAME, SAME, SAME],
            0xD726_937F,
            MessageFault::Address(0x02),
        ),
        (
            [(2, 0x10), SAME, SAME, SAME],
            0xC531_7E7B,
            MessageFault::Address(0x10),
        ),
        (
            [(2, 0x42), SAME, SAME, SAME],
            0xDF45_1061,
            MessageFault::Address(0x42),
        ),
        (
            [(2, 0x24), SAME, SAME, SAME],
            0x6166_CA6F,
            MessageFault::Address(0x24),
        ),
        (
            [(2, 0x33), (3, 0x02), SAME, SAME],
            0xF124_700E,
            MessageFault::Address(0x33),
        ),
        (
            [(2, 0xF1), (25, 0x01), SAME, SAME],
            0xDFC4_934B,
            MessageFault::Address(0xF1),
        ),
        (
            [(3, 0x02), SAME, SAME, SAME],
            0xBC22_700D,
            MessageFault::Flags(0x02),
        ),
        (
            [(3, 0x81), SAME, SAME, SAME],
            0x067B_5B12,
            MessageFault::Flags(0x81),
        ),
        (
            [(3, 0xFE), (14, 0x01), SAME, SAME],
            0xB7FF_EF48,
            MessageFault::Flags(0xFE),
        ),
        (
            [(14, 0x01), SAME, SAME, SAME],
            0xD639_2B16,
            MessageFault::EchoFields,
        ),
        (
            [(19, 0x01), SAME, SAME, SAME],
            0xBFFA_AB66,
            MessageFault::EchoFields,
        ),
        (
            [(20, 0x01), SAME, SAME, SAME],
            0x50A8_1E65,
            MessageFault::EchoFields,
        ),
        (
            [(25, 0x01), SAME, SAME, SAME],
            0x1809_9572,
            MessageFault::EchoFields,
        ),
    ];
    for (changes, check, fault) in rows {
        let mut front = *FIRST;
        for (place, byte) in changes {
            assert!(rt; place < 32);
            front[place] = byte;
        }
        assert_eq!(rt;
            decode(&checked(&front, check)),
            Err(fault),
            "at {changes:?}"
        );
    }
}

// A piece of some bytes, of which the first twelve are taken.
fn piece(bytes: &[u8]) -> Piece {
    let mut taken = ArrayVec::new();
    let _ = taken.try_extend_from_slice(&bytes[..bytes.len().min(12)]);
    Piece::Bytes(taken)
}

// What a hunter tells of these runs with gaps between them, each run in pieces of that size.
fn told(
    alloc: Global,
    runs: &[&[u8]],
    size: usize,
) -> Result<(Vec<Message>, Vec<MessageFault>), Fail>
    requires { 0 < size }
{
    let mut hunter = Hunter::new();
    let mut messages = Vec::new(alloc);
    let mut refusals = Vec::new(alloc);
    for run in runs {
        for bytes in run.chunks(size) {
            let hunted = hunter.push(&piece(bytes));
            if let Some(message) = hunted.message {
                messages.push(message)?;
            }
            if let Some(fault) = hunted.refused {
                refusals.push(fault)?;
            }
        }
        let hunted = hunter.push(&Piece::Gap);
        if hunted != NOTHING {
            return Err(Fail::from("a gap told something"));
        }
    }
    Ok((messages, refusals))
}

const NOTHING: Hunted = Hunted {
    message: None,
    refused: None,
};

// The first message, one with a marker among its phases, and one that begins within a refused place.
const A: &[u8; 36] =
    b"\xD5\x94\x12\0\0\0\0\x01\0\0\0\0\x03\xE8\0\0\0\0\0\0\0\0\0\0\0\0\0\x01\xFF\xFF\0\0\x57\x5E\xFD\x63";

const B: &[u8; 36] =
    b"\xD5\x94\x21\x01\0\0\0\x07\0\0\0\0\x07\xD0\0\0\0\0\x03\xE8\0\0\0\0\x03\xFF\xD5\x94\0\0\0\x01\xB9\x9C\x9F\x92";

const C: &[u8; 36] =
    b"\xD5\x94\x12\0\0\0\0\x01\0\0\0\0\x03\xE8\0\0\0\0\0\0\0\0\0\0\0\0\x54\x0B\xE6\x4D\0\0\x95\x22\xB4\x1A";

// B with a wrong check, and parts of A.
const NEAR: &[u8; 36] =
    b"\xD5\x94\x21\x01\0\0\0\x07\0\0\0\0\x07\xD0\0\0\0\0\x03\xE8\0\0\0\0\x03\xFF\xD5\x94\0\0\0\x01\xB9\x9C\x9F\x93";

const A_FRONT: &[u8; 20] = b"\xD5\x94\x12\0\0\0\0\x01\0\0\0\0\x03\xE8\0\0\0\0\0\0";

const A_BACK: &[u8; 16] = b"\0\0\0\0\0\0\0\x01\xFF\xFF\0\0\x57\x5E\xFD\x63";

const A_TAIL: &[u8; 34] =
    b"\x12\0\0\0\0\x01\0\0\0\0\x03\xE8\0\0\0\0\0\0\0\0\0\0\0\0\0\x01\xFF\xFF\0\0\x57\x5E\xFD\x63";

// Makes one run of these parts.
fn joined(alloc: Global, parts: &[&[u8]]) -> Result<Vec<u8>, Fail> {
    let mut run = Vec::new(alloc);
    for part in parts {
        run.extend_from_slice(part)?;
    }
    Ok(run)
}

#[test]
fn a_refused_place_hides_no_message(rt: HostRuntime) -> Result<(), Fail> {
    let alloc = rt.alloc();
    let run = joined(
        alloc,
        &[b"\xD5\x94\x11\0\0\0", C, b"\xFF\xFF\xFF\xFF\xFF\xFF"],
    )?;
    let mut hunter = Hunter::new();
    let want = [
        NOTHING,
        NOTHING,
        Hunted {
            message: None,
            refused: Some(MessageFault::Address(0x11)),
        },
        Hunted {
            message: Some(message((1, 2), 1, 1000, None, phases(0x540B, -0x19B3, 0))?),
            refused: None,
        },
    ];
    for (bytes, want) in run.chunks(12).zip(want) {
        assert_eq!(rt; hunter.push(&piece(bytes)), want);
    }
    Ok(())
}

#[test]
fn any_cutting_tells_the_same(rt: HostRuntime) -> Result<(), Fail> {
    let alloc = rt.alloc();
    let first = joined(
        alloc,
        &[
            b"\xFF\xFF\xFF\xFF\xFF",
            A,
            b"\xD5\x94\x11\0\0\0",
            C,
            b"\xFF\xFF\xFF",
        ],
    )?;
    let second = joined(alloc, &[A_FRONT])?;
    let third = joined(alloc, &[A_BACK, NEAR, B, A, b"\xD5"])?;
    let fourth = joined(alloc, &[b"\x94", A_TAIL, B])?;
    let runs = [
        first.as_slice(),
        second.as_slice(),
        third.as_slice(),
        fourth.as_slice(),
    ];
    let a = message((1, 2), 1, 1000, None, phases(1, -1, 0))?;
    let b = message((2, 1), 7, 2000, Some((1000, 1023)), phases(-0x2A6C, 0, 1))?;
    let c = message((1, 2), 1, 1000, None, phases(0x540B, -0x19B3, 0))?;
    for size in 1..=12 {
        let (messages, refusals) = told(alloc, &runs, size)?;
        assert_eq!(rt;
            messages.as_slice(),
            [a, c, b, a, b].as_slice(),
            "in pieces of {size}"
        );
        let faults = [
            MessageFault::Address(0x11),
            MessageFault::Check,
            MessageFault::Check,
        ];
        assert_eq!(rt;
            refusals.as_slice(),
            faults.as_slice(),
            "in pieces of {size}"
        );
    }
    Ok(())
}

// Two places are tested with the last piece: the first is refused, and the other is a message or refused too.
#[test]
fn the_first_fault_of_a_piece_is_told(rt: HostRuntime) -> Result<(), Fail> {
    let alloc = rt.alloc();
    let mut front = *FIRST;
    front[2] = 0x11;
    let other = checked(&front, 0x8C06_BFF7);
    let rows = [
        (*A, Some(message((1, 2), 1, 1000, None, phases(1, -1, 0))?)),
        (other, None),
    ];
    for (bytes, message) in rows {
        let run = joined(alloc, &[b"\xFF\xD5\x94", &bytes])?;
        let mut hunter = Hunter::new();
        let mut last = NOTHING;
        for bytes in run.chunks(12) {
            last = hunter.push(&piece(bytes));
        }
        let refused = Some(MessageFault::Check);
        assert_eq!(rt; last, Hunted { message, refused });
    }
    Ok(())
}
