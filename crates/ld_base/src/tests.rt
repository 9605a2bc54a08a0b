use crate::{
    BadSetting, Chunk, Failed, Fields, HandWire, Key, MemorySink, MemorySource, Settings, Sink,
    Source, Station, Ticks, Wire, WireError, Words,
};
use std::alloc::Global;
use std::test::Fail;

// Fields and what `Settings::new` says of them.
#[derive(Clone, Copy)]
struct Case {
    fields: Fields,
    refused: Option<BadSetting>,
}

#[test]
fn a_message_fits_its_channel(rt: HostRuntime) {
    let mut one_channel = Fields::usual(2, 1);
    one_channel.spacing = 5000;
    one_channel.cycle = 4;
    let mut long_limit = Fields::usual(2, 5);
    long_limit.limit = 48_001;
    let mut same_words = Fields::usual(2, 5);
    same_words.worda = 223;
    let mut two_out_of_range = Fields::usual(4, 5);
    two_out_of_range.misses = 11;
    let needed = BadSetting::ChannelTooSlow { needed: 1125 };
    let most = BadSetting::LimitTooLong { most: 48_000 };
    let cases = [
        Case {
            fields: one_channel,
            refused: None,
        },
        Case {
            fields: Fields::usual(2, 4),
            refused: Some(needed),
        },
        Case {
            fields: Fields::usual(2, 5),
            refused: None,
        },
        Case {
            fields: long_limit,
            refused: Some(most),
        },
        Case {
            fields: same_words,
            refused: Some(BadSetting::SameWords),
        },
        Case {
            fields: two_out_of_range,
            refused: Some(BadSetting::Range(Key::Stations)),
        },
    ];
    for case in cases {
        assert_eq!(rt; Settings::new(case.fields).err(), case.refused);
    }
}

#[test]
fn listed_calls_fail(rt: HostRuntime) -> Result<(), Fail> {
    let alloc: Global = rt.alloc();
    let mut source = MemorySource::new(Vec::from_slice(alloc, b"abc")?, vec![in alloc; 1u64]?);
    let mut into = [0u8; 2];
    assert_eq!(rt; source.read(&mut into), Ok(2));
    assert_eq!(rt; source.read(&mut into), Err(Failed));
    assert_eq!(rt; source.read(&mut into), Ok(1));
    assert_eq!(rt; source.read(&mut into), Ok(0));
    let Ok(mut sink) = MemorySink::new(4, vec![in alloc; 0u64]?) else {
        assert!(rt; false);
        return Ok(());
    };
    assert_eq!(rt; sink.write(b"ab"), Err(Failed));
    assert_eq!(rt; sink.write(b"ab"), Ok(2));
    assert_eq!(rt; sink.write(b"cde"), Err(Failed));
    assert_eq!(rt; sink.written(), b"ab".as_slice());
    Ok(())
}

#[test]
fn a_chunk_keeps_its_first_bits(rt: HostRuntime) {
    let bytes = [0b1010_1111; 32];
    assert!(rt; Chunk::new(257, bytes).is_none());
    let Some(chunk) = Chunk::new(11, bytes) else {
        assert!(rt; false);
        return;
    };
    assert_eq!(rt; chunk.bits(), 11);
    let mut front = [0; 32];
    front[0] = 0b1010_1111;
    front[1] = 0b1010_0000;
    assert_eq!(rt; Some(chunk), Chunk::new(11, front));
    assert!(rt; Some(chunk) != Chunk::new(12, front));
}

#[test]
fn a_chunk_gives_its_bits_and_bytes(rt: HostRuntime) {
    let mut bytes = [0xFF; 32];
    bytes[31] = 0b1111_1010;
    let Some(chunk) = Chunk::new(256, bytes) else {
        assert!(rt; false);
        return;
    };
    assert_eq!(rt; chunk.bytes(), bytes);
    assert!(rt; chunk.bit(254));
    assert!(rt; !chunk.bit(255));
    assert_eq!(rt; Chunk::default().bits(), 0);
    assert_eq!(rt; Chunk::new(0, bytes), Some(Chunk::default()));
}

#[test]
fn a_hand_wire_gives_its_chunks_in_turn(rt: HostRuntime) -> Result<(), Fail> {
    let alloc: Global = rt.alloc();
    let early = Chunk::new(1, [0x80; 32]).ok_or("no chunk")?;
    let late = Chunk::new(2, [0x80; 32]).ok_or("no chunk")?;
    let chunks = vec![in alloc; (5, early), (3, late)]?;
    let mut wire = HandWire::new(chunks, vec![in alloc; 1u64]?, vec![in alloc; 2u64]?);
    assert_eq!(rt; wire.quiet_until(4), 4);
    assert_eq!(rt; wire.take(4), Ok(None));
    assert_eq!(rt; wire.take(5), Ok(Some(early)));
    assert_eq!(rt; wire.take(5), Err(Failed));
    assert_eq!(rt; wire.take(5), Ok(Some(late)));
    assert_eq!(rt; wire.take(6), Ok(None));
    assert_eq!(rt; wire.send(6, &[0; 32]), Ok(()));
    assert_eq!(rt; wire.send(6, &[0; 32]), Err(WireError::Failed));
    Ok(())
}

#[test]
fn what_is_in_range_is_taken(rt: HostRuntime) {
    assert_eq!(rt;
        Ticks::new(2_000_000_000_000).map(Ticks::get),
        Some(2_000_000_000_000)
    );
    assert!(rt; Ticks::new(2_000_000_000_001).is_none());
    let stations = [(0, None), (1, Some(1)), (3, Some(3)), (4, None)];
    for (number, station) in stations {
        assert_eq!(rt; Station::new(number).map(Station::get), station);
    }
    let words = [
        (128, 255, Some((128, 255))),
        (127, 255, None),
        (255, 127, None),
        (200, 200, None),
    ];
    for (a, b, numbers) in words {
        assert_eq!(rt; Words::new(a, b).map(|words| words.numbers()), numbers);
    }
}
