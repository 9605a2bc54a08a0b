//! The text of a report.

ghost use Rattle.std.specs.Prelude.{◌≡◌, ◌≤◌, ◌++◌, length, IfOk, OnOk};
ghost use Rattle.std.specs.List.{flat_map};
ghost use Rattle.bench_cmd.specs.ReportLines.{line_text, totals_from};
ghost use Rattle.bench_cmd.specs.ReportText.{report_text};

use crate::report_lines::{write_last, write_line, write_total};
use ld_base::NoMemory;
use line_world::{Line, Total};
use std::alloc::Global;

/// The text of the lines of a report, of what the stations from 1 on counted, of how many accepted messages are forged, and of
/// the tick at which the run ended.
pub(crate) fn report_text(
    alloc: Global,
    lines: &[Line],
    totals: &[Total],
    forged: u64,
    end: u64,
) -> Result<Vec<u8>, NoMemory>
    ensures { IfOk result (λ text. text.items ≡ report_text lines.now totals.now forged end) }
{
    let mut text = Vec::new(alloc);
    write_lines(&mut text, lines)?;
    write_totals(&mut text, totals)?;
    write_last(&mut text, forged, end)?;
    Ok(text)
}

// Appends the lines of a report.
fn write_lines(text: &mut Vec<u8>, lines: &[Line]) -> Result<(), NoMemory>
    ensures { OnOk result (text.new.items ≡ text.old.items ++ flat_map line_text lines.now) }
{
    for line in lines {
        write_line(text, line)?;
    }
    Ok(())
}

// Appends what the stations from 1 on counted.
fn write_totals(text: &mut Vec<u8>, totals: &[Total]) -> Result<(), NoMemory>
    ensures { OnOk result (text.new.items ≡ text.old.items ++ totals_from 1 totals.now) }
{
    let mut station = 1;
    for total in totals {
        write_total(text, station, total)?;
        station += 1;
    }
    Ok(())
}

#[cfg(test)]
mod tests;
