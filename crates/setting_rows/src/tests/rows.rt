//! The rules of a `set`, and which rows stand among the settings.

use super::{BOTH, bad, head, verdict};
use crate::{Ahead, Known, Misread, read_head};
use csv::ByteRecord;
use ld_base::Reason;
use row_reader::Rows;
use std::alloc::Global;
use std::test::Fail;

// A key: its name, the ends of its range, and the numbers next to them.
type Named = (&'static str, [&'static str; 2], [&'static str; 2]);

static KEYS: [Named; 19] = [
    ("stations", ["2", "3"], ["1", "4"]),
    ("channels", ["1", "12"], ["0", "13"]),
    ("spacing", ["500", "10000"], ["499", "10001"]),
    ("cycle", ["4", "20"], ["3", "21"]),
    ("drift", ["0", "200"], ["-1", "201"]),
    ("slow", ["1", "200000"], ["0", "200001"]),
    ("age", ["1000", "10000000"], ["999", "10000001"]),
    ("limit", ["1", "480000"], ["0", "480001"]),
    ("silent", ["1", "1000000"], ["0", "1000001"]),
    ("count", ["1", "32"], ["0", "33"]),
    ("pickup", ["1", "32767"], ["0", "32768"]),
    ("rn", ["1", "10000"], ["0", "10001"]),
    ("rd", ["1", "10000"], ["0", "10001"]),
    ("p", ["-10000", "10000"], ["-10001", "10001"]),
    ("q", ["1", "10000"], ["0", "10001"]),
    ("worda", ["128", "255"], ["127", "256"]),
    ("wordb", ["128", "255"], ["127", "256"]),
    ("misses", ["1", "10"], ["0", "11"]),
    ("end", ["1", "20000000"], ["0", "20000001"]),
];

// A text, in a kind of text, and what is wrong with it.
type Case = (Known, String, Result<(), Misread>);

// What is wrong with rows of a key that is known.
fn add_cases(
    alloc: Global,
    known: Known,
    named: &Named,
    cases: &mut Vec<Case>,
) -> Result<(), Fail> {
    let (key, good, out) = named;
    let [low, high] = good;
    for value in good {
        let text = format!(in alloc; "set,{key},{value}")?;
        cases.push((known, text, Ok(())))?;
    }
    for value in out {
        let alone = format!(in alloc; "set,{key},{value}")?;
        cases.push((known, alone, bad(1, Reason::Range)))?;
        let twice = format!(in alloc; "set,{key},{low}\nset,{key},{value}")?;
        cases.push((known, twice, bad(2, Reason::Range)))?;
    }
    let rest = [
        ("", Reason::Fields),
        (",", Reason::Number),
        (",x", Reason::Number),
        (",1,1", Reason::Fields),
        (",999999999999999999", Reason::Range),
    ];
    for (value, reason) in rest {
        let text = format!(in alloc; "set,{key}{value}")?;
        cases.push((known, text, bad(1, reason)))?;
    }
    let twice = format!(in alloc; "set,{key},{low}\n#\nset,{key},{high}")?;
    cases.push((known, twice, bad(3, Reason::Key)))?;
    Ok(())
}

#[test]
fn each_key_has_its_rules(rt: HostRuntime) -> Result<(), Fail> {
    let alloc = rt.alloc();
    let mut cases = Vec::new(alloc);
    for named in &KEYS {
        add_cases(alloc, Known::Scenario, named, &mut cases)?;
        if named.0 != "end" {
            add_cases(alloc, Known::Recording, named, &mut cases)?;
        }
    }
    for (known, text, want) in &cases {
        let found = verdict(alloc, *known, text.as_bytes());
        assert_eq!(rt; found, *want, "at {text:?}");
    }
    Ok(())
}

#[test]
fn a_recording_has_no_end(rt: HostRuntime) -> Result<(), Fail> {
    let cases: [(&str, Result<(), Misread>); 6] = [
        ("set,end,200000", bad(1, Reason::Key)),
        ("set,end,0", bad(1, Reason::Key)),
        ("set,end,20000001", bad(1, Reason::Key)),
        ("set,end,", bad(1, Reason::Number)),
        ("set,end", bad(1, Reason::Fields)),
        (
            "set,stations,2\nset,end,1\nset,stations,2",
            bad(2, Reason::Key),
        ),
    ];
    for (text, want) in cases {
        assert_eq!(rt;
            verdict(rt.alloc(), Known::Recording, text.as_bytes()),
            want,
            "at {text:?}"
        );
    }
    Ok(())
}

#[test]
fn a_set_has_its_rules(rt: HostRuntime) -> Result<(), Fail> {
    let cases: [(&str, Result<(), Misread>); 17] = [
        ("set", bad(1, Reason::Fields)),
        ("set,,", bad(1, Reason::Number)),
        ("set,,1", bad(1, Reason::Key)),
        ("set,colour", bad(1, Reason::Fields)),
        ("set,colour,x", bad(1, Reason::Number)),
        ("set,colour,-7", bad(1, Reason::Key)),
        ("set,colour,999999999999999999", bad(1, Reason::Key)),
        ("set,Stations,2", bad(1, Reason::Key)),
        ("set, stations,2", bad(1, Reason::Key)),
        ("set,stations ,9", bad(1, Reason::Key)),
        ("set,cycle,10", bad(1, Reason::Range)),
        ("set,cycle,-4", bad(1, Reason::Range)),
        ("set,stations,-2", bad(1, Reason::Range)),
        ("set,drift,-0\nset,drift", bad(2, Reason::Fields)),
        ("set,stations,4", bad(1, Reason::Range)),
        ("set,stations,2\nset,channels,13", bad(2, Reason::Range)),
        ("set,stations,2\n#\nset,stations,2", bad(3, Reason::Key)),
    ];
    for (text, want) in cases {
        for known in &BOTH {
            assert_eq!(rt;
                verdict(rt.alloc(), *known, text.as_bytes()),
                want,
                "at {text:?}"
            );
        }
    }
    Ok(())
}

#[test]
fn the_settings_end_before_the_first_record(rt: HostRuntime) -> Result<(), Fail> {
    let cases: [(&str, Option<u64>); 7] = [
        ("", None),
        ("#\nset,stations,2\n", None),
        ("clock\nset,stations,4\n", Some(1)),
        ("set,stations,2\n#,,\n\nme,1\nset,stations,4\n", Some(3)),
        ("#x\n", Some(1)),
        ("#\nSet,stations,2\n", Some(2)),
        ("#\n\"\"\n", Some(2)),
    ];
    for (text, want) in cases {
        let mut rows = Ahead::new(rt.alloc(), text.as_bytes())?;
        let read = read_head(rt.alloc(), Known::Recording, &mut rows);
        assert!(rt; read.is_ok(), "at {text:?}");
        let mut number = None;
        if rows.row().is_some() {
            number = Some(rows.number());
        }
        assert_eq!(rt; number, want, "at {text:?}");
    }
    Ok(())
}

#[test]
fn a_late_set_is_told_its_fault(rt: HostRuntime) -> Result<(), Fail> {
    let cases = [
        ("set,channels,5", None),
        ("set,channels,13", Some(Reason::Range)),
        ("set,stations,2", Some(Reason::Key)),
        ("set,stations,4", Some(Reason::Range)),
        ("set,stations,x", Some(Reason::Number)),
        ("set,end,1", Some(Reason::Key)),
        ("set,stations", Some(Reason::Fields)),
    ];
    let settings = head(rt.alloc(), Known::Recording, b"set,stations,3")?;
    for (text, want) in cases {
        let mut rows = Rows::new(rt.alloc(), text.as_bytes());
        let mut row = ByteRecord::new(rt.alloc());
        assert!(rt; rows.read(&mut row)?, "at {text:?}");
        assert_eq!(rt; settings.fault(Known::Recording, &row), want, "at {text:?}");
    }
    Ok(())
}
