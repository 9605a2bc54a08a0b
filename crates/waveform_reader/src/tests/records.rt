//! The rules of the rows behind the settings, each broken alone and beside greater ones: the least is told.

use super::{bad, verdict_behind};
use ld_base::Reason;
use std::alloc::Global;
use std::test::Fail;

// A number behind a record's name: a good one, and those next to its range on either side. The settings have a drift of 20.
type Column = (&'static str, &'static str, &'static str);

const TICK: Column = ("5", "-1", "20000001");

const STATION: Column = ("1", "0", "4");

const RECEIVER: Column = ("2", "0", "4");

const START: Column = ("5", "-1", "1000000000001");

const RATE: Column = ("5", "-21", "21");

const VALUE: Column = ("5", "-32769", "32768");

const AMPLITUDE: Column = ("5", "-1", "32768");

const STEP: Column = ("5", "-1", "20");

const DELAY: Column = ("5", "0", "100001");

const BIT: Column = ("5", "-1", "256");

const EXTRA: Column = ("5", "0", "1000001");

const BITS: Column = ("5", "0", "256");

// A record: its name, its numbers, and the place of the first station among them.
type Kind = (&'static str, &'static [Column], usize);

static KINDS: [Kind; 12] = [
    ("clock", &[STATION, START], 0),
    ("rate", &[TICK, STATION, RATE], 1),
    ("hold", &[TICK, STATION, VALUE, VALUE, VALUE], 1),
    (
        "wave",
        &[
            TICK, STATION, AMPLITUDE, STEP, AMPLITUDE, STEP, AMPLITUDE, STEP,
        ],
        1,
    ),
    ("delay", &[TICK, STATION, RECEIVER, DELAY], 1),
    ("lose", &[TICK, TICK, STATION, RECEIVER], 2),
    ("flip", &[TICK, TICK, STATION, RECEIVER, BIT], 2),
    ("repeat", &[TICK, TICK, STATION, RECEIVER, EXTRA], 2),
    ("cut", &[TICK, TICK, STATION, RECEIVER, BITS], 2),
    ("slip", &[TICK, TICK, STATION, RECEIVER, BITS], 2),
    ("failsend", &[TICK, TICK, STATION, RECEIVER], 2),
    ("failtake", &[TICK, TICK, STATION, RECEIVER], 2),
];

// A row of good numbers, with other texts at some places.
fn row(
    alloc: Global,
    name: &str,
    columns: &[Column],
    changes: &[(usize, &str)],
) -> Result<String, Fail> {
    let mut row = String::new(alloc);
    row.push_str(name)?;
    for (place, column) in columns.iter().enumerate() {
        row.push_str(",")?;
        match changes.iter().find(|change| change.0 == place) {
            Some(change) => row.push_str(change.1)?,
            None => row.push_str(column.0)?,
        }
    }
    Ok(row)
}

#[test]
fn an_unknown_name_is_told_first(rt: HostRuntime) -> Result<(), Fail> {
    let rows = [
        "clocks,1,0",
        "#x",
        "##,1",
        " set,drift,1",
        "set ,drift,1",
        "Set",
        "SET,x",
        ",1",
        "\"\"",
        "clock ",
        "Clock,1,0",
        "delays,x,-1,9",
        "end",
        "0,0",
    ];
    for row in rows {
        assert_eq!(rt;
            verdict_behind(rt.alloc(), row)?,
            bad(7, Reason::Kind),
            "at {row:?}"
        );
    }
    Ok(())
}

#[test]
fn a_count_of_fields_is_told_before_what_they_say(rt: HostRuntime) -> Result<(), Fail> {
    let alloc = rt.alloc();
    for (name, columns, _) in &KINDS {
        let good = row(alloc, name, columns, &[])?;
        assert_eq!(rt; verdict_behind(alloc, &good)?, Ok(()), "at {good}");
        let (_, fewer) = columns.split_last().ok_or("columns")?;
        let bare = format!(in alloc; "{name}")?;
        let short = row(alloc, name, fewer, &[])?;
        let odd = row(alloc, name, fewer, &[(0, "x")])?;
        let long = format!(in alloc; "{good},5")?;
        let open = format!(in alloc; "{good},")?;
        for text in [bare, short, odd, long, open] {
            assert_eq!(rt;
                verdict_behind(alloc, &text)?,
                bad(7, Reason::Fields),
                "at {text}"
            );
        }
    }
    Ok(())
}

#[test]
fn each_number_is_one_and_in_range_before_it_fits_the_line(rt: HostRuntime) -> Result<(), Fail> {
    let alloc = rt.alloc();
    for (name, columns, station) in &KINDS {
        for (place, column) in columns.iter().enumerate() {
            let cases = [
                ([(place, "x"), (place, "x")], Reason::Number),
                ([(place, ""), (0, "-2")], Reason::Number),
                ([(place, column.1), (place, column.1)], Reason::Range),
                ([(place, column.2), (*station, "3")], Reason::Range),
                ([(*station, "3"), (*station, "3")], Reason::Station),
            ];
            for (changes, reason) in cases {
                let text = row(alloc, name, columns, &changes)?;
                assert_eq!(rt; verdict_behind(alloc, &text)?, bad(7, reason), "at {text}");
            }
        }
    }
    Ok(())
}

#[test]
fn a_line_has_two_stations_before_its_ticks_are_in_order(rt: HostRuntime) -> Result<(), Fail> {
    let alloc = rt.alloc();
    for (name, columns, sender) in &KINDS[4..] {
        let receiver = sender.saturating_add(1);
        for station in [(*sender, "3"), (receiver, "3"), (receiver, "1")] {
            let text = row(alloc, name, columns, &[(0, "6"), station])?;
            assert_eq!(rt;
                verdict_behind(alloc, &text)?,
                bad(7, Reason::Station),
                "at {text}"
            );
        }
    }
    for (name, columns, _) in &KINDS[5..] {
        let text = row(alloc, name, columns, &[(0, "6")])?;
        assert_eq!(rt;
            verdict_behind(alloc, &text)?,
            bad(7, Reason::Order),
            "at {text}"
        );
    }
    Ok(())
}

#[test]
fn records_are_in_order(rt: HostRuntime) -> Result<(), Fail> {
    let (first, second) = (bad(8, Reason::Order), bad(9, Reason::Order));
    let cases = [
        ("clock,1,0\nclock,1,0\n", first),
        ("clock,1,0\nclock,2,0\nclock,1,7\n", second),
        ("clock,2,0\nclock,1,0\n", Ok(())),
        ("hold,5,1,0,0,0\nhold,4,1,0,0,0\n", first),
        ("hold,5,1,0,0,0\nwave,4,1,0,0,0,0,0,0\n", first),
        ("wave,5,1,0,0,0,0,0,0\nhold,4,1,0,0,0\n", first),
        ("wave,5,1,0,0,0,0,0,0\nwave,4,1,0,0,0,0,0,0\n", first),
        ("hold,5,1,0,0,0\nhold,3,2,0,0,0\nhold,4,1,0,0,0\n", second),
        ("hold,5,1,0,0,0\nhold,5,1,1,1,1\nhold,4,2,0,0,0\n", Ok(())),
        ("rate,5,1,1\nrate,4,1,1\n", first),
        ("rate,5,2,1\nrate,4,1,1\nrate,4,2,1\n", second),
        (
            "rate,5,1,1\nrate,5,1,2\nhold,4,1,0,0,0\nrate,4,2,1\n",
            Ok(()),
        ),
        ("delay,5,1,2,9\ndelay,4,1,2,9\n", first),
        ("delay,5,1,2,9\ndelay,4,2,1,9\ndelay,3,2,1,9\n", second),
        (
            "delay,5,1,2,9\ndelay,5,1,2,8\nlose,4,4,1,2\ndelay,4,2,1,9\n",
            Ok(()),
        ),
        (
            "lose,5,5,1,2\ndelay,4,1,2,9\nflip,3,3,1,2,0\nlose,2,9,1,2\n",
            Ok(()),
        ),
    ];
    for (rows, want) in cases {
        assert_eq!(rt; verdict_behind(rt.alloc(), rows)?, want, "at {rows:?}");
    }
    Ok(())
}
