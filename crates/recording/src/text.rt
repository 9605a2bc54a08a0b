//! The text of a recording.

ghost use Rattle.std.specs.Prelude.{◌≡◌, ◌≤◌, ◌++◌, All, IfOk, OnOk};
ghost use Rattle.ld_base.specs.Ticks.{last_stamp};
ghost use Rattle.row_reader.specs.PlainRows.{line_of};
ghost use Rattle.relay_core.specs.StationLog.{StationLog, stamp_at};
ghost use Rattle.recording.specs.RecordText.{RecordText, entry_text, log_text, me_row};

use crate::call_lines::write_call;
use crate::setting_lines::write_settings;
use ld_base::{NoMemory, Settings, Station};
use pingpong::Entry;
use relay_core::Call;
use std::alloc::Global;
use text_lines::TextLine;
use text_lines::laws::lines_are_those_of_rows;

/// The settings, the station, and each call of the station's log in a journal, as the text of RecordText.
pub fn recording_text(
    alloc: Global,
    s: &Settings,
    me: Station,
    journal: &[Entry],
) -> Result<Vec<u8>, NoMemory>
    requires { All (λ e. stamp_at me e ≤ last_stamp) journal.now }
    ensures { IfOk result (λ text. text.items ≡ RecordText s.now me journal.now) }
{
    let mut text = Vec::new(alloc);
    write_settings(&mut text, &s.fields())?;
    write_me(&mut text, me)?;
    write_log(&mut text, me, journal)?;
    Ok(text)
}

// Appends the row that says whose log it is.
fn write_me(text: &mut Vec<u8>, me: Station) -> Result<(), NoMemory>
    ensures { OnOk result (text.new.items ≡ text.old.items ++ line_of (me_row me)) }
{
    lines_are_those_of_rows();
    let mut line = TextLine::new();
    line.put(b"\n");
    line.put_station(me);
    line.put(b"me");
    line.append_to(text)
}

// Appends the rows of the log of a station in a journal.
fn write_log(text: &mut Vec<u8>, me: Station, journal: &[Entry]) -> Result<(), NoMemory>
    requires { All (λ e. stamp_at me e ≤ last_stamp) journal.now }
    ensures { OnOk result (text.new.items ≡ text.old.items ++ log_text (StationLog me journal.now)) }
{
    for entry in journal {
        write_entry(text, me, entry)?;
    }
    Ok(())
}

// Appends the row of the call that a station was handed by an entry, where there is one.
fn write_entry(text: &mut Vec<u8>, me: Station, entry: &Entry) -> Result<(), NoMemory>
    requires { stamp_at me entry.now ≤ last_stamp }
    ensures { OnOk result (text.new.items ≡ text.old.items ++ entry_text me entry.now) }
{
    match Call::of(entry, me) {
        Some(call) => write_call(text, &call),
        None => Ok(()),
    }
}
