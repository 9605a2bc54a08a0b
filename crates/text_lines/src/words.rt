//! The words of a terminal's answers.

ghost use Rattle.std.specs.Prelude.{◌≡◌, ◌≤◌, ◌∷◌, [], length};
ghost use Rattle.text_lines.specs.Words.{alarm_name, letter};

use channel_alarm::Alarm;
use trip_logic::Verdict;

/// The letter of a verdict.
pub fn letter(verdict: Verdict) -> u8
    ensures { letter verdict ≡ result ∷ [] }
{
    match verdict {
        Verdict::Waiting => b'W',
        Verdict::Restrain => b'R',
        Verdict::Outside => b'O',
        Verdict::Trip => b'T',
    }
}

/// The name of an alarm.
pub fn alarm_name(alarm: Alarm) -> &'static [u8]
    ensures name { result.now ≡ alarm_name alarm }
    ensures few { length result.now ≤ 9 }
{
    match alarm {
        Alarm::Unlocked => b"Unlocked",
        Alarm::Yellow => b"Yellow",
        Alarm::Silent => b"Silent",
        Alarm::Unaligned => b"Unaligned",
        Alarm::Fault => b"Fault",
    }
}
