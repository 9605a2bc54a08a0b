//! A `set` that comes too late, and the settings as a whole.

use super::{BODY, HEAD, bad, verdict, verdict_behind};
use crate::ReadScenario;
use ld_base::Reason;
use std::test::Fail;

// A key: its name, the ends of its range, and the numbers next to them.
type Named = (&'static str, [&'static str; 2], [&'static str; 2]);

static KEYS: [Named; 19] = [
    ("stations", ["2", "3"], ["1", "4"]),
    ("channels", ["1", "12"], ["0", "13"]),
    ("spacing", ["500", "10000"], ["499", "10001"]),
    ("cycle", ["4", "20"], ["3", "21"]),
    ("drift", ["0", "200"], ["-1", "201"]),
    ("slow", ["1", "200000"], ["0", "200001"]),
    ("age", ["1000", "10000000"], ["999", "10000001"]),
    ("limit", ["1", "480000"], ["0", "480001"]),
    ("silent", ["1", "1000000"], ["0", "1000001"]),
    ("count", ["1", "32"], ["0", "33"]),
    ("pickup", ["1", "32767"], ["0", "32768"]),
    ("rn", ["1", "10000"], ["0", "10001"]),
    ("rd", ["1", "10000"], ["0", "10001"]),
    ("p", ["-10000", "10000"], ["-10001", "10001"]),
    ("q", ["1", "10000"], ["0", "10001"]),
    ("worda", ["128", "255"], ["127", "256"]),
    ("wordb", ["128", "255"], ["127", "256"]),
    ("misses", ["1", "10"], ["0", "11"]),
    ("end", ["1", "20000000"], ["0", "20000001"]),
];

// The keys that have no default come first here, and are set.
const REQUIRED: &str = "set,stations,2\nset,channels,5\nset,end,200000\n";

#[test]
fn a_late_key_is_known_and_in_range_before_it_is_late(rt: HostRuntime) -> Result<(), Fail> {
    let alloc = rt.alloc();
    for (key, good, out) in &KEYS {
        let given = matches!(*key, "stations" | "channels" | "end");
        let late = if given { Reason::Key } else { Reason::Late };
        for (value, reason) in [
            (good[0], late),
            (good[1], late),
            (out[0], Reason::Range),
            (out[1], Reason::Range),
            ("x", Reason::Number),
        ] {
            let text = format!(in alloc; "{REQUIRED}clock,1,0\nset,{key},{value}")?;
            assert_eq!(rt;
                verdict(alloc, text.as_bytes()),
                bad(5, reason),
                "at {text:?}"
            );
        }
    }
    Ok(())
}

#[test]
fn a_bad_row_comes_before_settings_that_are_not_whole(rt: HostRuntime) -> Result<(), Fail> {
    let cases: [(&str, Result<(), ReadScenario>); 5] = [
        ("set", bad(1, Reason::Fields)),
        ("set,end,x", bad(1, Reason::Number)),
        ("set,colour,7", bad(1, Reason::Key)),
        ("set,stations,2\nset,channels,13", bad(2, Reason::Range)),
        ("set,stations,2\n#\nset,stations,2", bad(3, Reason::Key)),
    ];
    for (text, want) in cases {
        assert_eq!(rt; verdict(rt.alloc(), text.as_bytes()), want, "at {text:?}");
    }
    Ok(())
}

#[test]
fn settings_are_closed_before_the_first_record(rt: HostRuntime) -> Result<(), Fail> {
    let whole = bad(0, Reason::Settings);
    let cases: [(&str, Result<(), ReadScenario>); 17] = [
        ("", whole),
        ("#\n", whole),
        ("nothing\n", whole),
        ("clock,x\n", whole),
        ("\"\"\n", whole),
        ("#\nset,stations,2\n#,x\nset,end,1\n", whole),
        ("set,stations,2\nset,channels,5\nclock\n", whole),
        ("set,stations,2\nset,end,1\nlose,9,0,1,1\n", whole),
        ("set,channels,5\nset,end,1\nclock,3,0\n", whole),
        ("clock,1,0\nset,stations,4\n", whole),
        ("set,stations,4\nclock\n", bad(1, Reason::Range)),
        ("set,stations,2\nset,channels,5\nset,end,1\n", Ok(())),
        (
            "set,stations,2\nset,channels,5\nset,end,1\nset,rd,7\nclock\n",
            whole,
        ),
        (
            "set,stations,2\nset,channels,4\nset,spacing,1000\nset,cycle,20\nset,drift,20\nset,end,200000\n",
            whole,
        ),
        (
            "set,stations,2\nset,channels,5\nset,end,1\nset,limit,48001\n",
            whole,
        ),
        (
            "set,stations,2\nset,channels,5\nset,end,1\nset,wordb,155\n",
            whole,
        ),
        (
            "set,stations,2\nset,channels,5\nset,end,1\nset,rd,7\nset,rn,7\nset,limit,48000\n",
            Ok(()),
        ),
    ];
    for (text, want) in cases {
        assert_eq!(rt; verdict(rt.alloc(), text.as_bytes()), want, "at {text:?}");
    }
    Ok(())
}

#[test]
fn settings_of_load_current_may_be_varied(rt: HostRuntime) -> Result<(), Fail> {
    let cases = [
        ("set,worda,223\n", bad(0, Reason::Settings)),
        ("set,worda,127\n", bad(7, Reason::Range)),
        ("set,rd,7\n", bad(0, Reason::Settings)),
        ("set,misses,11\n", bad(7, Reason::Range)),
        ("set,misses,10\n", Ok(())),
    ];
    for (row, want) in cases {
        let rows = format!(in rt.alloc(); "{row}{BODY}")?;
        assert_eq!(rt; verdict_behind(rt.alloc(), &rows)?, want, "at {row:?}");
    }
    let fast = format!(in rt.alloc(); "{HEAD}{BODY}rate,0,1,21\n")?;
    assert_eq!(rt;
        verdict(rt.alloc(), fast.as_bytes()),
        bad(13, Reason::Range)
    );
    Ok(())
}
