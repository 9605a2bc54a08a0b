use crate::{check, check_fast};

// Vectors of CRC-32/BZIP2 and of this project's messages.
#[test]
fn known_bytes_have_their_checks(rt: HostRuntime) {
    let vectors: [(&[u8], u32); 5] = [
        (b"", 0),
        (b"\xFF", 0x0000_00FF),
        (b"\xFF\xFF", 0x0000_FFFF),
        (b"\xFF\xFF\xFF\xFF", 0xFFFF_FFFF),
        (b"123456789", 0xFC89_1918),
    ];
    for (bytes, want) in vectors {
        assert_eq!(rt; check(bytes), want, "at {bytes:?}");
        assert_eq!(rt; check_fast(bytes), want, "at {bytes:?}");
    }
}

#[test]
fn the_table_agrees_with_the_bits(rt: HostRuntime) {
    let mut bytes = [0u8; 600];
    let mut word = 1u32;
    for byte in bytes.iter_mut() {
        word = word.wrapping_mul(1_103_515_245).wrapping_add(12_345);
        *byte = (word >> 24) as u8;
    }
    for length in 0..=bytes.len() {
        let front = &bytes[..length];
        assert_eq!(rt; check(front), check_fast(front), "at {length}");
    }
}
