use crate::{Alarm, Alarms, Facts, Turn};
use ld_base::{Fields, Settings};
use std::test::Fail;

// Facts of a channel on which nothing is wrong.
const CALM: Facts = Facts {
    locked: true,
    yellow: false,
    quiet: 0,
    aligned: true,
    faulty: false,
};

fn alarms() -> Result<Alarms, Fail> {
    let settings = Settings::new(Fields::usual(2, 5))
        .ok()
        .ok_or("bad settings")?;
    Ok(Alarms::new(&settings))
}

fn turned(alarms: &mut Alarms, facts: &Facts, turns: &[Turn]) -> bool {
    alarms.update(facts).as_slice() == turns
}

fn turn(alarm: Alarm, on: bool) -> Turn {
    Turn { alarm, on }
}

#[test]
fn each_fact_turns_its_alarm_on_and_off(rt: HostRuntime) -> Result<(), Fail> {
    let mut unlocked = CALM;
    unlocked.locked = false;
    let mut yellow = CALM;
    yellow.yellow = true;
    let mut silent = CALM;
    silent.quiet = 20_001;
    let mut unaligned = CALM;
    unaligned.aligned = false;
    let mut faulty = CALM;
    faulty.faulty = true;
    let cases = [
        (unlocked, Alarm::Unlocked),
        (yellow, Alarm::Yellow),
        (silent, Alarm::Silent),
        (unaligned, Alarm::Unaligned),
        (faulty, Alarm::Fault),
    ];
    for (facts, alarm) in cases {
        let mut alarms = alarms()?;
        assert!(rt; turned(&mut alarms, &CALM, &[]));
        assert!(rt; turned(&mut alarms, &facts, &[turn(alarm, true)]));
        assert!(rt; turned(&mut alarms, &facts, &[]));
        assert!(rt; turned(&mut alarms, &CALM, &[turn(alarm, false)]));
    }
    Ok(())
}

#[test]
fn what_changes_at_once_is_told_in_order(rt: HostRuntime) -> Result<(), Fail> {
    let mut alarms = alarms()?;
    let start = Facts {
        locked: false,
        yellow: false,
        quiet: 20_000,
        aligned: false,
        faulty: true,
    };
    let on = [
        turn(Alarm::Unlocked, true),
        turn(Alarm::Unaligned, true),
        turn(Alarm::Fault, true),
    ];
    assert!(rt; turned(&mut alarms, &start, &on));
    let later = Facts {
        locked: true,
        yellow: true,
        quiet: 20_001,
        aligned: false,
        faulty: false,
    };
    let mixed = [
        turn(Alarm::Unlocked, false),
        turn(Alarm::Yellow, true),
        turn(Alarm::Silent, true),
        turn(Alarm::Fault, false),
    ];
    assert!(rt; turned(&mut alarms, &later, &mixed));
    Ok(())
}

#[test]
fn a_peer_is_silent_after_more_ticks_than_the_setting(rt: HostRuntime) -> Result<(), Fail> {
    let mut alarms = alarms()?;
    assert_eq!(rt; alarms.silent(), 20_000);
    let mut quiet = CALM;
    quiet.quiet = 20_000;
    assert!(rt; turned(&mut alarms, &quiet, &[]));
    quiet.quiet = 20_001;
    assert!(rt; turned(&mut alarms, &quiet, &[turn(Alarm::Silent, true)]));
    assert_eq!(rt; alarms.silent(), 20_000);
    Ok(())
}
