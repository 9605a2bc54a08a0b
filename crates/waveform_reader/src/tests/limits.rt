//! How many records of a kind there may be, and how long a failure may last. What is too many is out of range, whatever else is
//! wrong.

use super::{HEAD, bad, verdict};
use ld_base::Reason;
use std::alloc::Global;
use std::test::Fail;

// The settings, these rows so many times, and a last one.
fn repeated(alloc: Global, times: u32, rows: &str, last: &str) -> Result<String, Fail> {
    let mut text = String::new(alloc);
    text.push_str(HEAD)?;
    for _ in 0..times {
        text.push_str(rows)?;
    }
    text.push_str(last)?;
    Ok(text)
}

#[test]
fn records_are_counted(rt: HostRuntime) -> Result<(), Fail> {
    let delay = "delay,0,1,2,3000\n";
    let rates = "rate,5,1,0\nrate,5,2,0\n";
    let repeat = "repeat,0,9,1,2,5\n";
    let cases = [
        // 16 rates of each station.
        (16, rates, "", Ok(())),
        (16, rates, "rate,4,1,0\n", bad(39, Reason::Range)),
        (16, rates, "rate,4,2,0\n", bad(39, Reason::Range)),
        (16, rates, "rate,4,3,0\n", bad(39, Reason::Station)),
        (15, rates, "rate,4,1,0\n", bad(37, Reason::Order)),
        // 4 repeats, of any line.
        (4, repeat, "lose,0,9,1,2\n", Ok(())),
        (4, repeat, "repeat,0,9,2,1,5\n", bad(11, Reason::Range)),
        (4, repeat, "repeat,9,0,1,1,5\n", bad(11, Reason::Range)),
        (3, repeat, "repeat,9,0,1,1,5\n", bad(10, Reason::Station)),
        // 1,000 records of the script, delays among them.
        (
            1000,
            delay,
            "clock,1,0\nhold,0,1,0,0,0\nrate,0,1,0\n#\n",
            Ok(()),
        ),
        (1000, delay, delay, bad(1007, Reason::Range)),
        (1000, delay, "lose,9,0,1,1\n", bad(1007, Reason::Range)),
        (1000, delay, "failtake,0,9,3,1\n", bad(1007, Reason::Range)),
        (1000, delay, "flip,0,9,1,2\n", bad(1007, Reason::Fields)),
        (999, delay, "flip,9,0,1,2,5\n", bad(1006, Reason::Order)),
        (
            500,
            "lose,0,9,1,2\nslip,0,9,2,1,5\n",
            delay,
            bad(1007, Reason::Range),
        ),
    ];
    for (times, rows, last, want) in cases {
        let text = repeated(rt.alloc(), times, rows, last)?;
        assert_eq!(rt;
            verdict(rt.alloc(), text.as_bytes()),
            want,
            "at {times} times {rows:?}, {last:?}"
        );
    }
    Ok(())
}

#[test]
fn a_failure_ends_at_most_1000_ticks_after_it_begins(rt: HostRuntime) -> Result<(), Fail> {
    let cases = [
        ("0,1000,1,2\n", Ok(())),
        ("5,1005,2,1\n", Ok(())),
        ("19999000,20000000,1,2\n", Ok(())),
        ("0,1001,1,2\n", bad(7, Reason::Range)),
        ("5,1006,1,2\n", bad(7, Reason::Range)),
        ("0,20000000,1,1\n", bad(7, Reason::Range)),
        ("0,1001,3,1\n", bad(7, Reason::Range)),
        ("0,1000,1,1\n", bad(7, Reason::Station)),
        ("20000000,0,1,2\n", bad(7, Reason::Order)),
    ];
    for (fields, want) in cases {
        for name in ["failsend", "failtake"] {
            let text = format!(in rt.alloc(); "{HEAD}{name},{fields}")?;
            assert_eq!(rt;
                verdict(rt.alloc(), text.as_bytes()),
                want,
                "at {name},{fields}"
            );
        }
    }
    Ok(())
}
