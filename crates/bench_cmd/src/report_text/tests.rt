use crate::report_text::report_text;
use channel_alarm::{Alarm, Turn};
use ld_base::Station;
use line_world::{Line, Total};
use std::test::Fail;
use trip_logic::Verdict;

// A station, where there is one of that number.
fn station(number: u8) -> Result<Station, Fail> {
    Ok(Station::new(number).ok_or("no station")?)
}

#[test]
fn each_kind_of_line_has_its_text(rt: HostRuntime) -> Result<(), Fail> {
    let (first, second, third) = (station(1)?, station(2)?, station(3)?);
    let lines: [(Line, &[u8]); 4] = [
        (
            Line::Est {
                time: u64::MAX,
                station: third,
                peer: second,
                estimate2: i64::MIN,
                round_trip: i64::MAX,
                error: u128::MAX,
                bound: Some(u128::MAX),
            },
            b"est,18446744073709551615,3,2,-9223372036854775808,9223372036854775807,\
340282366920938463463374607431768211455,340282366920938463463374607431768211455\n",
        ),
        (
            Line::Est {
                time: 0,
                station: first,
                peer: second,
                estimate2: -1,
                round_trip: 0,
                error: 0,
                bound: None,
            },
            b"est,0,1,2,-1,0,0,-\n",
        ),
        (
            Line::Judged {
                time: 20_000_000,
                station: first,
                number: u32::MAX,
                verdicts: [Verdict::Waiting, Verdict::Restrain, Verdict::Outside],
            },
            b"set,20000000,1,4294967295,WRO\n",
        ),
        (
            Line::Alarm {
                time: 12,
                station: second,
                peer: third,
                turn: Turn {
                    alarm: Alarm::Unaligned,
                    on: false,
                },
            },
            b"alarm,12,2,3,Unaligned,off\n",
        ),
    ];
    let mut all = Vec::new(rt.alloc());
    let mut want = Vec::new(rt.alloc());
    for (line, text) in lines {
        all.push(line)?;
        want.extend_from_slice(text)?;
    }
    want.extend_from_slice(b"forged,0\nend,1\n")?;
    let made = report_text(rt.alloc(), &all, &[], 0, 1)?;
    assert_eq!(rt; made.as_slice(), want.as_slice());
    Ok(())
}

#[test]
fn totals_come_by_station_and_then_the_end(rt: HostRuntime) -> Result<(), Fail> {
    let counted = Total {
        accepted: u64::MAX,
        sets: 1,
        trips: 2,
        refused: 3,
        strange: 4,
        repeats: 5,
        slow: 6,
        bad: u64::MAX,
    };
    let totals = [Total::default(), counted, Total::default()];
    let made = report_text(rt.alloc(), &[], &totals, u64::MAX, 20_000_000)?;
    assert_eq!(rt;
        made.as_slice(),
        b"total,1,0,0,0,0,0,0,0,0\ntotal,2,18446744073709551615,1,2,3,4,5,6,18446744073709551615\n\
total,3,0,0,0,0,0,0,0,0\nforged,18446744073709551615\nend,20000000\n"
            .as_slice()
    );
    Ok(())
}
