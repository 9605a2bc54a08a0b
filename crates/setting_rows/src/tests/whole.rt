//! The settings as a whole, and settings that are written and read back.

use super::head;
use crate::{Known, key_name, keys, value_of};
use ld_base::{Fields, Key};
use std::alloc::Global;
use std::test::Fail;

// The settings of a text as a whole.
fn closed(alloc: Global, known: Known, text: &str) -> Result<Option<Fields>, Fail> {
    let settings = head(alloc, known, text.as_bytes())?;
    Ok(settings.close(known).map(|settings| settings.fields()))
}

#[test]
fn settings_are_whole_once_all_that_is_required_is_set(rt: HostRuntime) -> Result<(), Fail> {
    let usual = Fields::usual(2, 5);
    let narrow = Fields { rd: 6, ..usual };
    let cases = [
        ("", None),
        ("set,stations,2\n", None),
        ("set,channels,5\n", None),
        ("set,channels,5\nset,stations,2\n", Some(usual)),
        ("set,stations,2\nset,channels,5\nset,rd,6\n", Some(narrow)),
        ("set,stations,2\nset,channels,5\nset,rd,7\n", None),
        ("set,stations,2\nset,channels,4\n", None),
        ("set,stations,2\nset,channels,5\nset,limit,48001\n", None),
        ("set,stations,2\nset,channels,5\nset,wordb,155\n", None),
    ];
    for (text, want) in cases {
        let alloc = rt.alloc();
        let recording = closed(alloc, Known::Recording, text)?;
        assert_eq!(rt; recording, want, "at {text:?}");
        let open = closed(alloc, Known::Scenario, text)?;
        assert_eq!(rt; open, None, "at {text:?}");
        let ended = format!(in alloc; "{text}set,end,7\n#\n")?;
        let scenario = closed(alloc, Known::Scenario, &ended)?;
        assert_eq!(rt; scenario, want, "at {ended:?}");
    }
    Ok(())
}

#[test]
fn a_scenario_has_its_end(rt: HostRuntime) -> Result<(), Fail> {
    let text = b"set,end,200000\nset,channels,5\nset,stations,2\n";
    let settings = head(rt.alloc(), Known::Scenario, text)?;
    let fields = settings
        .close(Known::Scenario)
        .map(|settings| settings.fields());
    assert_eq!(rt; fields, Some(Fields::usual(2, 5)));
    assert_eq!(rt; settings.end(), 200_000);
    Ok(())
}

// A value of each key that is not its default.
static WRITTEN: [(&str, i64); 18] = [
    ("stations", 3),
    ("channels", 12),
    ("spacing", 500),
    ("cycle", 4),
    ("drift", 200),
    ("slow", 1),
    ("age", 1000),
    ("limit", 24_000),
    ("silent", 7),
    ("count", 32),
    ("pickup", 32_767),
    ("rn", 10_000),
    ("rd", 9),
    ("p", -10_000),
    ("q", 8),
    ("worda", 255),
    ("wordb", 128),
    ("misses", 10),
];

#[test]
fn settings_are_read_back(rt: HostRuntime) -> Result<(), Fail> {
    let alloc = rt.alloc();
    let mut text = String::new(alloc);
    for (name, value) in &WRITTEN {
        let row = format!(in alloc; "set,{name},{value}\n")?;
        text.push_str(&row)?;
    }
    let fields = closed(alloc, Known::Recording, &text)?.ok_or("settings")?;
    assert_eq!(rt; keys().len(), WRITTEN.len());
    for (place, (name, value)) in WRITTEN.iter().enumerate() {
        let key: Key = *keys().get(place).ok_or("a key")?;
        assert_eq!(rt; key_name(key), name.as_bytes());
        assert_eq!(rt; value_of(&fields, key), *value, "at {name:?}");
    }
    Ok(())
}
