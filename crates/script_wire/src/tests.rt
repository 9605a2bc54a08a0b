//! What comes of frames on a wire whose rules are rows of a scenario.

use crate::ScriptWire;
use ld_base::{Chunk, Failed, Station, Wire, WireError};
use std::alloc::Global;
use std::test::Fail;
use waveform_reader::read;

// A frame of 32 different bytes.
const FRAME: [u8; 32] = *b"abcdefghijklmnopqrstuvwxyz012345";

// The last tick at which a wire may be asked.
const LAST_ASKED: u64 = 60_000_000;

// The settings of a line of three stations.
const HEAD: &str = "set,stations,3\nset,channels,5\nset,end,20000000\n";

// The wire from station 1 to station 2 in a scenario of these rows behind its settings.
fn wire(alloc: Global, rows: &str) -> Result<ScriptWire, Fail> {
    let text = format!(in alloc; "{HEAD}{rows}")?;
    let scenario = read(alloc, text.as_bytes()).ok().ok_or("no scenario")?;
    let from = Station::new(1).ok_or("no station")?;
    let to = Station::new(2).ok_or("no station")?;
    Ok(ScriptWire::new(alloc, &scenario, from, to)?)
}

fn send(wire: &mut ScriptWire, at: u64) -> Result<(), WireError> {
    wire.send(at.min(LAST_ASKED), &FRAME)
}

fn take(wire: &mut ScriptWire, at: u64) -> Result<Option<Chunk>, Failed> {
    wire.take(at.min(LAST_ASKED))
}

fn quiet_until(wire: &ScriptWire, at: u64) -> u64 {
    wire.quiet_until(at.min(LAST_ASKED))
}

// Whether a bit of the frame is set.
fn frame_bit(at: u16) -> bool {
    FRAME
        .get(usize::from(at / 8))
        .is_some_and(|byte| byte >> (7 - at % 8) & 1 == 1)
}

// So many bits of the frame from a place on, one of them inverted.
fn bits(from: u16, count: u16, inverted: u16) -> Chunk {
    let mut bytes = [0u8; 32];
    for place in 0..256u16 {
        let at = from.saturating_add(place);
        if place < count && frame_bit(at) != (at == inverted) {
            bytes[usize::from(place / 8)] |= 0x80 >> (place % 8);
        }
    }
    Chunk::new(count, bytes).unwrap_or_default()
}

// What a wire gives: at a tick, so many bits of the frame from a place on, one of them inverted.
type Given = (u64, u16, u16, u16);

// No bit is inverted.
const NONE: u16 = 1000;

#[test]
fn each_act_does_its_work(rt: HostRuntime) -> Result<(), Fail> {
    // The frame is sent at tick 125. Of chunks due at one tick the second is taken at the next.
    let cases: [(&str, &[Given]); 16] = [
        ("", &[(1125, 0, 256, NONE)]),
        ("delay,125,1,2,1\n", &[(126, 0, 256, NONE)]),
        ("lose,125,125,1,2\n", &[]),
        ("repeat,100,150,1,2,5\nlose,100,150,1,2\n", &[]),
        ("flip,125,125,1,2,9\n", &[(1125, 0, 256, 9)]),
        ("flip,125,125,1,2,255\n", &[(1125, 0, 256, 255)]),
        (
            "flip,0,125,1,2,0\nflip,125,200,1,2,9\nflip,100,150,1,2,0\n",
            &[(1125, 0, 256, 9)],
        ),
        (
            "slip,100,150,1,2,13\nslip,100,150,1,2,1\n",
            &[(1125, 13, 243, NONE)],
        ),
        (
            "slip,100,150,1,2,8\nflip,100,150,1,2,8\n",
            &[(1125, 8, 248, 8)],
        ),
        ("slip,125,125,1,2,255\n", &[(1125, 255, 1, NONE)]),
        (
            "cut,100,150,1,2,100\ncut,100,150,1,2,9\n",
            &[(1125, 0, 100, NONE), (1126, 100, 156, NONE)],
        ),
        (
            "cut,100,150,1,2,9\nslip,100,150,1,2,200\n",
            &[(1125, 200, 9, NONE), (1126, 209, 47, NONE)],
        ),
        (
            "cut,100,150,1,2,56\nslip,100,150,1,2,200\n",
            &[(1125, 200, 56, NONE)],
        ),
        (
            "repeat,100,150,1,2,50\nrepeat,100,150,1,2,20\n",
            &[
                (1125, 0, 256, NONE),
                (1145, 0, 256, NONE),
                (1175, 0, 256, NONE),
            ],
        ),
        (
            "cut,100,150,1,2,55\nrepeat,100,150,1,2,2\nslip,100,150,1,2,200\n",
            &[
                (1125, 200, 55, NONE),
                (1126, 255, 1, NONE),
                (1127, 200, 56, NONE),
            ],
        ),
        (
            "flip,0,124,1,2,1\nslip,126,300,1,2,8\nlose,0,0,1,2\n",
            &[(1125, 0, 256, NONE)],
        ),
    ];
    for (rows, given) in cases {
        let mut wire = wire(rt.alloc(), rows)?;
        assert_eq!(rt; send(&mut wire, 125), Ok(()));
        let mut last = 125;
        for (at, from, count, inverted) in given {
            assert_eq!(rt; quiet_until(&wire, last), *at);
            assert_eq!(rt; take(&mut wire, at.saturating_sub(1)), Ok(None));
            assert_eq!(rt;
                take(&mut wire, *at),
                Ok(Some(bits(*from, *count, *inverted)))
            );
            last = at.saturating_add(1);
        }
        assert_eq!(rt; take(&mut wire, LAST_ASKED), Ok(None));
        assert_eq!(rt; quiet_until(&wire, 151), 20_000_000);
        assert_eq!(rt; quiet_until(&wire, 20_000_001), 20_000_001);
        assert_eq!(rt; wire.faults(), 0);
    }
    Ok(())
}

#[test]
fn a_failing_call_is_counted_and_does_nothing(rt: HostRuntime) -> Result<(), Fail> {
    let rows = "failtake,100,200,1,2\nfailsend,125,125,1,2\nlose,125,125,1,2\ndelay,0,1,2,10\n";
    let mut wire = wire(rt.alloc(), rows)?;
    assert_eq!(rt; send(&mut wire, 125), Err(WireError::Failed));
    assert_eq!(rt; quiet_until(&wire, 201), 20_000_000);
    assert_eq!(rt; send(&mut wire, 124), Ok(()));
    assert_eq!(rt; send(&mut wire, 126), Ok(()));
    assert_eq!(rt; quiet_until(&wire, 0), 100);
    // Each tick is named while takes fail, and then the chunks that are overdue come one a tick.
    for at in [100u64, 134, 199, 200] {
        assert_eq!(rt; quiet_until(&wire, at), at);
        assert_eq!(rt; take(&mut wire, at), Err(Failed));
    }
    for at in [201u64, 202] {
        assert_eq!(rt; quiet_until(&wire, at), at);
        assert_eq!(rt; take(&mut wire, at), Ok(Some(bits(0, 256, NONE))));
    }
    assert_eq!(rt; take(&mut wire, 203), Ok(None));
    assert_eq!(rt; wire.faults(), 5);
    Ok(())
}

#[test]
fn the_last_delay_in_the_file_that_has_begun_counts(rt: HostRuntime) -> Result<(), Fail> {
    let rows = "delay,500,1,2,300\ndelay,750,2,1,7\ndelay,1000,1,2,100\ndelay,1000,1,2,200\n";
    let delays = [
        (499u64, 1000u64),
        (500, 300),
        (750, 300),
        (999, 300),
        (1000, 200),
        (0, 1000),
        (60_000_000, 200),
    ];
    let mut wire = wire(rt.alloc(), rows)?;
    for (at, delay) in delays {
        assert_eq!(rt; send(&mut wire, at), Ok(()));
        let due = delay.saturating_add(at);
        assert_eq!(rt; quiet_until(&wire, at), due);
        // The ticks go back and forth, so each chunk is taken at the end of all ticks but the last one.
        assert_eq!(rt; take(&mut wire, LAST_ASKED).is_ok(), true);
    }
    Ok(())
}

#[test]
fn a_falling_delay_lets_a_later_frame_overtake(rt: HostRuntime) -> Result<(), Fail> {
    let rows = concat!(
        "delay,0,1,2,2000\ndelay,125,1,2,500\n",
        "slip,0,0,1,2,1\nslip,125,125,1,2,2\nslip,250,250,1,2,3\n",
        "repeat,250,250,1,2,250\n",
    );
    let mut wire = wire(rt.alloc(), rows)?;
    for at in [0u64, 125, 250, 500] {
        assert_eq!(rt; send(&mut wire, at), Ok(()));
    }
    // The repeat of the third frame and the fourth frame are due at one tick, and were queued in this order.
    let given = [
        (625, 2, 254),
        (750, 3, 253),
        (1000, 3, 253),
        (1001, 0, 256),
        (2000, 1, 255),
    ];
    for (at, from, count) in given {
        assert_eq!(rt; take(&mut wire, at), Ok(Some(bits(from, count, NONE))));
    }
    assert_eq!(rt; take(&mut wire, LAST_ASKED), Ok(None));
    Ok(())
}

#[test]
fn a_wire_has_the_rules_of_its_line_alone(rt: HostRuntime) -> Result<(), Fail> {
    let rows = "lose,0,1000,2,1\nfailtake,0,1000,1,3\nfailsend,0,1000,3,2\nslip,0,0,1,2,8\n";
    let mut wire = wire(rt.alloc(), rows)?;
    assert_eq!(rt; send(&mut wire, 0), Ok(()));
    assert_eq!(rt; quiet_until(&wire, 0), 1000);
    assert_eq!(rt; take(&mut wire, 1000), Ok(Some(bits(8, 248, NONE))));
    Ok(())
}

#[test]
fn the_next_tick_is_right_at_any_tick(rt: HostRuntime) -> Result<(), Fail> {
    let rows = "failtake,300,310,1,2\nfailtake,100,105,1,2\nfailtake,104,120,1,2\n";
    let mut wire = wire(rt.alloc(), rows)?;
    let next = [
        (85, 100),
        (100, 100),
        (120, 120),
        (121, 300),
        (310, 310),
        (311, 20_000_000),
        (0, 100),
        (60_000_000, 60_000_000),
    ];
    // Whichever ticks the wire has looked at before.
    for (looked, _) in next {
        let _ = take(&mut wire, looked);
        for (at, tick) in next {
            assert_eq!(rt; quiet_until(&wire, at), tick);
        }
    }
    Ok(())
}
