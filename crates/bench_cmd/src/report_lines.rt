//! The lines of a report.

ghost use Rattle.std.specs.Prelude.{◌≡◌, ◌≤◌, ◌+◌, ◌^◌, ◌++◌, length, OnOk};
ghost use Rattle.bench_cmd.specs.ReportLines.{last_lines, line_text, total_text};
ghost use Rattle.bench_cmd.specs.GeneratorText.{sums_line};

use ld_base::NoMemory;
use line_world::{Line, Total};
use text_lines::TextLine;

/// Appends a line of a report.
pub(crate) fn write_line(text: &mut Vec<u8>, told: &Line) -> Result<(), NoMemory>
    ensures { OnOk result (text.new.items ≡ text.old.items ++ line_text told.now) }
{
    let mut line = TextLine::new();
    line.put(b"\n");
    match told {
        Line::Est {
            time,
            station,
            peer,
            estimate2,
            round_trip,
            error,
            bound,
        } => {
            line.put_bound(*bound);
            line.put_wide_field(*error);
            line.put_signed_field(*round_trip);
            line.put_signed_field(*estimate2);
            line.put_station(*peer);
            line.put_front(b"est", *time, *station);
        }
        Line::Judged {
            time,
            station,
            number,
            verdicts,
        } => {
            line.put_letters(verdicts);
            line.put_field(u64::from(*number));
            line.put_front(b"set", *time, *station);
        }
        Line::Alarm {
            time,
            station,
            peer,
            turn,
        } => {
            line.put_turn(turn);
            line.put_station(*peer);
            line.put_front(b"alarm", *time, *station);
        }
    }
    line.append_to(text)
}

/// Appends the line of what a station counted.
pub(crate) fn write_total(text: &mut Vec<u8>, station: u64, total: &Total) -> Result<(), NoMemory>
    ensures { OnOk result (text.new.items ≡ text.old.items ++ total_text station total.now) }
{
    let mut line = TextLine::new();
    line.put(b"\n");
    line.put_field(total.bad);
    line.put_field(total.slow);
    line.put_field(total.repeats);
    line.put_field(total.strange);
    line.put_field(total.refused);
    line.put_field(total.trips);
    line.put_field(total.sets);
    line.put_field(total.accepted);
    line.put_field(station);
    line.put(b"total");
    line.append_to(text)
}

/// Appends the last lines: how many accepted messages are forged, and the tick at which the run ended.
pub(crate) fn write_last(text: &mut Vec<u8>, forged: u64, end: u64) -> Result<(), NoMemory>
    ensures { OnOk result (text.new.items ≡ text.old.items ++ last_lines forged end) }
{
    let mut line = TextLine::new();
    line.put(b"\n");
    line.put_field(end);
    line.put(b"end");
    line.put(b"\n");
    line.put_field(forged);
    line.put(b"forged");
    line.append_to(text)
}

/// Appends the line of what up to three stations counted together, and of how many accepted messages are forged.
pub(crate) fn write_sums(text: &mut Vec<u8>, totals: &[Total], forged: u64) -> Result<(), NoMemory>
    requires { length totals.now ≤ 3 }
    ensures { OnOk result (text.new.items ≡ text.old.items ++ sums_line totals.now forged) }
{
    let mut accepted = 0u128;
    let mut sets = 0u128;
    let mut trips = 0u128;
    for total in totals {
        accepted = plus(accepted, total.accepted);
        sets = plus(sets, total.sets);
        trips = plus(trips, total.trips);
    }
    let mut line = TextLine::new();
    line.put(b"\n");
    line.put_field(forged);
    line.put_wide_field(trips);
    line.put_wide_field(sets);
    line.put_wide_field(accepted);
    line.put(b"#");
    line.append_to(text)
}

// A sum of few counts with one more.
fn plus(sum: u128, count: u64) -> u128
    requires { sum ≤ 2 ^ 66 }
    ensures sum { result ≡ sum + count }
    ensures few { result ≤ sum + 2 ^ 64 }
{
    sum + u128::from(count)
}
