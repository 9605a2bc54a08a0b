use crate::{Got, Receiver, SyncState};
use c3794_frame::{Frame, FrameFault, encode};
use ld_base::{Chunk, Words};
use std::alloc::Global;
use std::test::Fail;

// The usual header words.
fn usual() -> Result<Words, Fail> {
    Ok(Words::new(0x9B, 0xDF).ok_or("no words")?)
}

// Some bits as a chunk.
fn chunk(bits: u16, bytes: [u8; 32]) -> Result<Chunk, Fail> {
    Ok(Chunk::new(bits, bytes).ok_or("too many bits")?)
}

// Some bits of a stream as a chunk, with zeros behind its end.
fn piece(stream: &[u8], from: usize, count: u16) -> Result<Chunk, Fail> {
    let mut bytes = [0u8; 32];
    for k in 0..count {
        let at = from.wrapping_add(usize::from(k));
        let bit = stream.get(at / 8).copied().unwrap_or(0) >> (7 - at % 8) & 1;
        if let Some(byte) = bytes.get_mut(usize::from(k / 8)) {
            *byte |= bit << (7 - k % 8);
        }
    }
    chunk(count, bytes)
}

// An idle frame with five channels.
fn idle(odd: bool) -> Result<[u8; 32], Fail> {
    Ok(encode(&Frame::new(odd, false, &[0xFF; 5]), &usual()?))
}

// An idle frame without its header.
fn headless() -> Result<[u8; 32], Fail> {
    let mut frame = idle(false)?;
    frame[0] = 0;
    frame[1] = 0;
    Ok(frame)
}

// A receiver after 512 bits of alternating idle frames.
fn locked(misses: u8) -> Result<Receiver, Fail> {
    let mut receiver = Receiver::new(5, usual()?, if misses == 1 { 1 } else { 3 });
    let _first = receiver.feed(&chunk(256, idle(false)?)?);
    let _second = receiver.feed(&chunk(256, idle(true)?)?);
    Ok(receiver)
}

#[test]
fn single_bits_make_the_lock_and_the_first_frame(rt: HostRuntime) -> Result<(), Fail> {
    let mut receiver = Receiver::new(5, usual()?, 3);
    assert_eq!(rt; receiver.state(), SyncState::Hunting);
    let first = idle(false)?;
    let second = idle(true)?;
    for at in 0..512u16 {
        let frame = if at < 256 { &first } else { &second };
        let fed = receiver.feed(&piece(frame, usize::from(at % 256), 1)?);
        assert_eq!(rt; fed.locked, at >= 271, "at {at}");
        let expected = if at == 511 {
            Some(Got::Good(Frame::new(true, false, &[0xFF; 5])))
        } else {
            None
        };
        assert_eq!(rt; fed.frame, expected, "at {at}");
    }
    Ok(())
}

// The frames of a stream that comes in chunks of so many bits.
fn read(alloc: Global, stream: &[u8], count: u16) -> Result<Vec<Got>, Fail> {
    let mut receiver = Receiver::new(5, usual()?, 3);
    let mut frames = Vec::new(alloc);
    let bits = stream.len().wrapping_mul(8);
    let mut from = 0usize;
    for _ in 0..bits {
        if from >= bits {
            break;
        }
        let rest = u16::try_from(bits - from).unwrap_or(count).min(count);
        if let Some(frame) = receiver.feed(&piece(stream, from, rest)?).frame {
            frames.push(frame)?;
        }
        from = from.wrapping_add(usize::from(rest));
    }
    Ok(frames)
}

// Frames, noise, frames that begin within a byte, one of them with a broken pair, three without a header, and frames again.
fn noisy(alloc: Global) -> Result<Vec<u8>, Fail> {
    let mut stream = Vec::new(alloc);
    stream.extend_from_slice(&[idle(false)?, idle(true)?, idle(false)?].as_flattened())?;
    let mut word = 12345u32;
    for _ in 0..100 {
        word = word.wrapping_mul(1_664_525).wrapping_add(1_013_904_223);
        stream.push((word >> 24) as u8)?;
    }
    let mut broken = idle(true)?;
    broken[9] ^= 0x40;
    let frames = [
        idle(false)?,
        broken,
        idle(false)?,
        headless()?,
        headless()?,
        headless()?,
        idle(false)?,
        idle(true)?,
        idle(false)?,
    ];
    let mut before = 0u8;
    for frame in frames {
        for byte in frame {
            stream.push(before << 5 | byte >> 3)?;
            before = byte;
        }
    }
    stream.push(before << 5)?;
    Ok(stream)
}

#[test]
fn every_cutting_gives_the_same_frames(rt: HostRuntime) -> Result<(), Fail> {
    let alloc: Global = rt.alloc();
    let stream = noisy(alloc)?;
    let frames = read(alloc, &stream, 1)?;
    let pair = Got::Bad(FrameFault::Pair(72));
    let header = Got::Bad(FrameFault::Header);
    assert!(rt; frames.contains(&pair));
    assert_eq!(rt; frames.iter().filter(|got| **got == header).count(), 6);
    for count in [7, 8, 255, 256] {
        assert_eq!(rt; read(alloc, &stream, count)?, frames, "in {count} bits");
    }
    Ok(())
}

#[test]
fn a_receiver_keeps_little(rt: HostRuntime) {
    assert!(rt; std::mem::size_of::<Receiver>() <= 128);
}

#[test]
fn misses_end_the_lock(rt: HostRuntime) -> Result<(), Fail> {
    let bad = Some(Got::Bad(FrameFault::Header));
    let mut receiver = locked(3)?;
    for count in 1..4u8 {
        let fed = receiver.feed(&chunk(256, headless()?)?);
        assert_eq!(rt; fed.frame, bad);
        assert_eq!(rt; fed.locked, count < 3);
    }
    let mut strict = locked(1)?;
    let fed = strict.feed(&chunk(256, headless()?)?);
    assert_eq!(rt; fed.frame, bad);
    assert!(rt; !fed.locked);
    Ok(())
}
