use crate::{Frame, FrameFault, decode, encode};
use ld_base::Words;
use std::test::Fail;

// A frame's line bytes: those given, and 0xAA up to 32.
fn line(front: &[u8; 10]) -> [u8; 32] {
    let mut bits = [0xAA; 32];
    bits[..10].copy_from_slice(front);
    bits
}

fn words(a: u8, b: u8) -> Result<Words, Fail> {
    Ok(Words::new(a, b).ok_or("no words")?)
}

#[test]
fn frames_have_their_bits(rt: HostRuntime) -> Result<(), Fail> {
    let usual = words(0x9B, 0xDF)?;
    let idle = Frame::new(false, false, &[0xFF; 5]);
    let idle_bits = line(&[0x9B, 0x0F, 0x66, 0x55, 0x55, 0x55, 0x55, 0x55, 0xAA, 0xAA]);
    assert_eq!(rt; encode(&idle, &usual), idle_bits);
    let yellow = Frame::new(false, true, &[0xFF; 5]);
    assert_eq!(rt;
        encode(&yellow, &usual),
        line(&[0x9B, 0x0F, 0x66, 0x95, 0x55, 0x55, 0x55, 0x55, 0xAA, 0xAA])
    );
    let one = Frame::new(true, false, &[0xD5]);
    assert_eq!(rt;
        encode(&one, &usual),
        line(&[0xDF, 0x0F, 0x56, 0x55, 0x55, 0x55, 0x55, 0x55, 0xA6, 0x66])
    );
    let other = words(128, 255)?;
    assert_eq!(rt;
        encode(&idle, &other),
        line(&[0x80, 0x0F, 0x66, 0x55, 0x55, 0x55, 0x55, 0x55, 0xAA, 0xAA])
    );
    assert_eq!(rt; decode(&idle_bits, 5, &usual), Ok(idle));
    assert_eq!(rt; decode(&idle_bits, 6, &usual), Err(FrameFault::Count(5)));
    let mut broken = idle_bits;
    broken[2] ^= 0x40;
    assert_eq!(rt; decode(&broken, 5, &usual), Err(FrameFault::Pair(16)));
    Ok(())
}

#[test]
fn each_flipped_bit_has_its_fault(rt: HostRuntime) -> Result<(), Fail> {
    let usual = words(0x9B, 0xDF)?;
    let frames = [
        Frame::new(false, false, &[0xFF; 5]),
        Frame::new(true, true, &[0xD5]),
        Frame::new(false, true, &[0, 1, 2, 3, 4, 5, 6, 7, 8, 9, 10, 11]),
    ];
    for frame in frames {
        for bit in 0..=255u8 {
            let mut bits = encode(&frame, &usual);
            bits[(bit / 8) as usize] ^= 0x80 >> (bit % 8);
            let fault = if bit < 16 {
                FrameFault::Header
            } else {
                FrameFault::Pair(bit / 2 * 2)
            };
            assert_eq!(rt;
                decode(&bits, frame.channels(), &usual),
                Err(fault),
                "at {bit}"
            );
        }
    }
    Ok(())
}
