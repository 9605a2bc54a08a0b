//! The numbers that C gets for what is named.

ghost use Rattle.std.specs.Prelude.{◌≡◌};
ghost use Rattle.terminal_c.specs.Codes.{alarm_number, key_number, refusal_of, verdict_number};

use crate::flat::Refusal;
use channel_alarm::Alarm;
use ld_base::{BadSetting, Key};
use trip_logic::Verdict;

/// The number of a key, by its place in the order of keys.
fn key_number(key: Key) -> u32
    ensures { result ≡ key_number key }
{
    match key {
        Key::Stations => 1,
        Key::Channels => 2,
        Key::Spacing => 3,
        Key::Cycle => 4,
        Key::Drift => 5,
        Key::Slow => 6,
        Key::Age => 7,
        Key::Limit => 8,
        Key::Silent => 9,
        Key::Count => 10,
        Key::Pickup => 11,
        Key::Rn => 12,
        Key::Rd => 13,
        Key::P => 14,
        Key::Q => 15,
        Key::WordA => 16,
        Key::WordB => 17,
        Key::Misses => 18,
    }
}

/// A refusal of settings by its number.
pub(crate) fn refusal_of(bad: BadSetting) -> Refusal
    ensures { result ≡ refusal_of bad }
{
    match bad {
        BadSetting::Range(key) => Refusal {
            reason: key_number(key),
            ticks: 0,
        },
        BadSetting::ChannelTooSlow { needed } => Refusal {
            reason: 19,
            ticks: needed,
        },
        BadSetting::LimitTooLong { most } => Refusal {
            reason: 20,
            ticks: most,
        },
        BadSetting::SameWords => Refusal {
            reason: 21,
            ticks: 0,
        },
    }
}

/// The number of a verdict.
pub(crate) fn verdict_number(verdict: Verdict) -> u8
    ensures { result ≡ verdict_number verdict }
{
    match verdict {
        Verdict::Waiting => 0,
        Verdict::Restrain => 1,
        Verdict::Outside => 2,
        Verdict::Trip => 3,
    }
}

/// The number of an alarm.
pub(crate) fn alarm_number(alarm: Alarm) -> u8
    ensures { result ≡ alarm_number alarm }
{
    match alarm {
        Alarm::Unlocked => 0,
        Alarm::Yellow => 1,
        Alarm::Silent => 2,
        Alarm::Unaligned => 3,
        Alarm::Fault => 4,
    }
}
