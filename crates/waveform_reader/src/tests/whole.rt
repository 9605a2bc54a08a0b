//! What is read: each part of a scenario.

use super::{BODY, HEAD, bad, scenario, station, verdict};
use crate::{Shape, ShapeFrom};
use ld_base::{Act, Fields, Phases, Reason, Rule, Station};
use std::test::Fail;

// A rule of the line from one station to another.
fn rule(first: u64, last: u64, line: (Station, Station), act: Act) -> Rule {
    let (from, to) = line;
    Rule {
        from,
        to,
        first,
        last,
        act,
    }
}

fn shape_from(from: u64, station: Station, shape: Shape) -> ShapeFrom {
    ShapeFrom {
        station,
        from,
        shape,
    }
}

#[test]
fn load_current_is_read_whole(rt: HostRuntime) -> Result<(), Fail> {
    let alloc = rt.alloc();
    let text = format!(in alloc; "{HEAD}{BODY}")?;
    let scenario = scenario(alloc, text.as_str())?;
    let (first, second) = (station(1)?, station(2)?);
    let settings = Fields {
        drift: 20,
        ..Fields::usual(2, 5)
    };
    assert_eq!(rt; scenario.settings().fields(), settings);
    assert_eq!(rt; scenario.end(), 200_000);
    for (number, after_seven) in [(1, 7_000_000), (2, 4_207_000_000), (3, 7_000_000)] {
        assert_eq!(rt; scenario.clock(station(number)?).phase(7), after_seven);
    }
    let delay = Act::Delay(3000);
    let rules = [
        rule(0, 0, (first, second), delay),
        rule(0, 0, (second, first), delay),
    ];
    assert_eq!(rt; scenario.rules(), rules.as_slice());
    let amp = [1000, 1000, 1000];
    let (here, there) = ([0, 13, 7], [10, 3, 17]);
    let shapes = [
        shape_from(0, first, Shape::Wave { amp, step: here }),
        shape_from(0, second, Shape::Wave { amp, step: there }),
    ];
    assert_eq!(rt; scenario.shapes(), shapes.as_slice());
    Ok(())
}

#[test]
fn each_setting_is_read(rt: HostRuntime) -> Result<(), Fail> {
    let text = concat!(
        "set,end,1\nset,misses,10\nset,wordb,128\nset,worda,255\nset,q,1\nset,p,-10000\nset,rd,9999\nset,rn,10000\n",
        "set,pickup,32767\nset,count,32\nset,silent,1000000\nset,limit,480000\nset,age,10000000\nset,slow,200000\n",
        "set,drift,200\nset,cycle,4\nset,spacing,10000\nset,channels,12\nset,stations,3\n",
    );
    let scenario = scenario(rt.alloc(), text)?;
    let settings = Fields {
        stations: 3,
        channels: 12,
        spacing: 10_000,
        cycle: 4,
        drift: 200,
        slow: 200_000,
        age: 10_000_000,
        limit: 480_000,
        silent: 1_000_000,
        count: 32,
        pickup: 32_767,
        rn: 10_000,
        rd: 9999,
        p: -10_000,
        q: 1,
        worda: 255,
        wordb: 128,
        misses: 10,
    };
    assert_eq!(rt; scenario.settings().fields(), settings);
    assert_eq!(rt; scenario.end(), 1);
    Ok(())
}

#[test]
fn each_record_is_read_at_both_ends_of_its_ranges(rt: HostRuntime) -> Result<(), Fail> {
    let text = concat!(
        "set,stations,3\nset,channels,5\nset,end,20000000\nset,drift,200\n",
        "lose,0,0,1,2\nflip,0,20000000,1,3,0\nflip,20000000,20000000,3,1,255\n",
        "repeat,0,1,2,1,1\nrepeat,0,1,2,1,1000000\ncut,0,1,1,2,1\ncut,0,1,1,2,255\nslip,0,1,1,2,1\nslip,0,1,1,2,255\n",
        "failsend,0,1000,2,3\nfailtake,19999000,20000000,3,2\ndelay,0,1,2,1\ndelay,20000000,1,2,100000\n",
        "hold,0,1,-32768,32767,-1\nhold,20000000,1,0,0,0\nwave,0,3,0,0,32767,19,1,0\n",
        "clock,1,1000000000000\nclock,3,0\nrate,100,1,-200\nrate,200,1,200\nrate,20000000,2,200\n",
    );
    let scenario = scenario(rt.alloc(), text)?;
    let (first, second, third) = (station(1)?, station(2)?, station(3)?);
    let line = (first, second);
    let rules = [
        rule(0, 0, line, Act::Lose),
        rule(0, 20_000_000, (first, third), Act::Flip(0)),
        rule(20_000_000, 20_000_000, (third, first), Act::Flip(255)),
        rule(0, 1, (second, first), Act::Repeat(1)),
        rule(0, 1, (second, first), Act::Repeat(1_000_000)),
        rule(0, 1, line, Act::Cut(1)),
        rule(0, 1, line, Act::Cut(255)),
        rule(0, 1, line, Act::Slip(1)),
        rule(0, 1, line, Act::Slip(255)),
        rule(0, 1000, (second, third), Act::FailSend),
        rule(19_999_000, 20_000_000, (third, second), Act::FailTake),
        rule(0, 0, line, Act::Delay(1)),
        rule(20_000_000, 20_000_000, line, Act::Delay(100_000)),
    ];
    assert_eq!(rt; scenario.rules(), rules.as_slice());
    let extremes = Phases {
        a: -32_768,
        b: 32_767,
        c: -1,
    };
    let wave = Shape::Wave {
        amp: [0, 32_767, 1],
        step: [0, 19, 0],
    };
    let shapes = [
        shape_from(0, first, Shape::Hold(extremes)),
        shape_from(20_000_000, first, Shape::Hold(Phases::default())),
        shape_from(0, third, wave),
    ];
    assert_eq!(rt; scenario.shapes(), shapes.as_slice());
    let clock = scenario.clock(first);
    assert_eq!(rt; clock.phase(100), 1_000_000_000_100_000_000);
    assert_eq!(rt; clock.phase(200), 1_000_000_000_199_980_000);
    assert_eq!(rt; clock.phase(201), 1_000_000_000_200_980_200);
    assert_eq!(rt;
        scenario.clock(second).phase(20_000_001),
        20_000_001_000_200
    );
    assert_eq!(rt; scenario.clock(third).phase(0), 0);
    Ok(())
}

#[test]
fn a_scenario_is_whole_from_its_sixth_row_on(rt: HostRuntime) -> Result<(), Fail> {
    let alloc = rt.alloc();
    let text = format!(in alloc; "{HEAD}{BODY}")?;
    let mut kept = 0u32;
    let mut cut = String::new(alloc);
    assert_eq!(rt; verdict(alloc, b""), bad(0, Reason::Settings));
    for row in text.lines() {
        cut.push_str(row)?;
        cut.push_str("\n")?;
        kept = kept.saturating_add(1);
        let want = if kept < 6 {
            bad(0, Reason::Settings)
        } else {
            Ok(())
        };
        assert_eq!(rt; verdict(alloc, cut.as_bytes()), want, "after {kept} rows");
    }
    assert_eq!(rt; kept, 12);
    Ok(())
}

#[test]
fn a_row_that_is_cut_short_is_told(rt: HostRuntime) -> Result<(), Fail> {
    let alloc = rt.alloc();
    let text = format!(in alloc; "{HEAD}{BODY}")?;
    for (left_out, reason) in [(",17\n", Reason::Fields), ("17\n", Reason::Number)] {
        let cut = text.as_str().strip_suffix(left_out).ok_or("a cut")?;
        assert_eq!(rt; verdict(alloc, cut.as_bytes()), bad(12, reason));
    }
    Ok(())
}
