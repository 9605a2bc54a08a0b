ghost use Rattle.std.specs.Prelude.{◌≤◌};

use crate::{Busy, Inlet, Outlet};
use bit_sync::Receiver;
use c3794_frame::decode;
use ld_base::{Chunk, Message, Phases, Station, Words};
use relay_message::{Hunter, encode};
use std::test::Fail;

fn words() -> Result<Words, Fail> {
    Ok(Words::new(0x9B, 0xDF).ok_or("no words")?)
}

// The message of that number from station 1 to station 2.
fn message(number: u32) -> Result<Message, Fail> {
    Ok(Message {
        from: Station::new(1).ok_or("no station")?,
        to: Station::new(2).ok_or("no station")?,
        number,
        sent: 1000,
        echo: None,
        phases: Phases { a: 1, b: -1, c: 0 },
    })
}

// The bytes of the first one.
const FIRST: [u8; 36] =
    *b"\xD5\x94\x12\x00\0\0\0\x01\0\0\0\0\x03\xE8\0\0\0\0\0\0\0\0\0\0\0\0\0\x01\xFF\xFF\0\0\x57\x5E\xFD\x63";

// A frame's line bytes: those given, and 0xAA up to 32.
fn line_bytes(front: &[u8; 8]) -> [u8; 32] {
    let mut bits = [0xAA; 32];
    bits[..8].copy_from_slice(front);
    bits
}

#[test]
fn idle_slots_alternate_the_words(rt: HostRuntime) -> Result<(), Fail> {
    let mut outlet = Outlet::new(5, words()?);
    assert_eq!(rt;
        outlet.slot(false),
        line_bytes(&[0x9B, 0x0F, 0x66, 0x55, 0x55, 0x55, 0x55, 0x55])
    );
    assert_eq!(rt;
        outlet.slot(false),
        line_bytes(&[0xDF, 0x0F, 0x66, 0x55, 0x55, 0x55, 0x55, 0x55])
    );
    assert_eq!(rt;
        outlet.slot(true),
        line_bytes(&[0x9B, 0x0F, 0x66, 0x95, 0x55, 0x55, 0x55, 0x55])
    );
    assert!(rt; !outlet.in_flight());
    Ok(())
}

#[test]
fn a_message_goes_out_in_turn(rt: HostRuntime) -> Result<(), Fail> {
    let usual = words()?;
    let mut outlet = Outlet::new(5, usual);
    outlet.slot(false);
    assert_eq!(rt; outlet.load(FIRST), Ok(()));
    for k in 0..8usize {
        assert!(rt; outlet.in_flight(), "in slot {k}");
        assert_eq!(rt; outlet.load([0; 36]), Err(Busy));
        let frame = decode(&outlet.slot(false), 5, &usual)
            .ok()
            .ok_or("no frame")?;
        let mut payload = [0xFF; 12];
        for i in 0..5 {
            if 5 * k + i < 36 {
                payload[i] = FIRST[5 * k + i];
            }
        }
        assert_eq!(rt; frame.odd(), k % 2 == 0);
        assert_eq!(rt; frame.payload(), payload);
    }
    assert!(rt; !outlet.in_flight());
    assert_eq!(rt; outlet.load(FIRST), Ok(()));
    Ok(())
}

// A line from an outlet to a hunter.
#[derive(Drop)]
struct Line {
    outlet: Outlet,
    receiver: Receiver,
    inlet: Inlet,
    hunter: Hunter,
}

impl Line {
    fn new(channels: u8, words: Words) -> Line
        requires { (1 ≤ channels) × (channels ≤ 12) }
    {
        Line {
            outlet: Outlet::new(channels, words),
            receiver: Receiver::new(channels, words, 3),
            inlet: Inlet::new(channels),
            hunter: Hunter::new(),
        }
    }

    // The message that ends in the next slot.
    fn slot(&mut self) -> Option<Message> {
        let frame = Chunk::new(256, self.outlet.slot(false))?;
        let got = self.receiver.feed(&frame).frame?;
        let piece = self.inlet.take(&got);
        self.hunter.push(&piece).message
    }
}

#[test]
fn messages_come_through_on_any_count_of_channels(rt: HostRuntime) -> Result<(), Fail> {
    let sent = [message(1)?, message(2)?, message(3)?];
    for channels in 1..13u8 {
        let mut line = Line::new(channels, words()?);
        assert_eq!(rt; line.slot(), None);
        let mut heard = Vec::new(rt.alloc());
        for message in &sent {
            assert_eq!(rt; line.outlet.load(encode(message)), Ok(()));
            for _ in 0..36u8 {
                if !line.outlet.in_flight() {
                    break;
                }
                if let Some(message) = line.slot() {
                    heard.push(message)?;
                }
            }
            // Every other message follows the one before at once.
            if message.number % 2 == 0 {
                assert_eq!(rt; line.slot(), None);
            }
        }
        assert_eq!(rt; heard.as_slice(), sent.as_slice(), "on {channels} channels");
    }
    Ok(())
}

#[test]
fn a_message_in_frames_of_twelve_channels_has_its_bytes(rt: HostRuntime) -> Result<(), Fail> {
    assert_eq!(rt; encode(&message(1)?), FIRST);
    let mut line = Line::new(12, words()?);
    assert_eq!(rt; line.slot(), None);
    assert_eq!(rt; line.outlet.load(FIRST), Ok(()));
    assert_eq!(rt;
        [line.slot(), line.slot(), line.slot()],
        [None, None, Some(message(1)?)]
    );
    Ok(())
}
