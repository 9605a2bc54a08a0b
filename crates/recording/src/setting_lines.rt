//! The rows of settings.

ghost use Rattle.std.specs.Prelude.{◌≡◌, ◌++◌, OnOk};
ghost use Rattle.recording.specs.RecordText.{set_line, settings_text};

use ld_base::{Fields, Key, NoMemory};
use setting_rows::{key_name, keys, value_of};
use text_lines::TextLine;
use text_lines::laws::lines_are_those_of_rows;

/// Appends a row for each key of the settings, in their order.
pub(crate) fn write_settings(text: &mut Vec<u8>, fields: &Fields) -> Result<(), NoMemory>
    ensures { OnOk result (text.new.items ≡ text.old.items ++ settings_text fields.now) }
{
    let all = keys();
    for key in all {
        write_setting(text, fields, *key)?;
    }
    Ok(())
}

// Appends the row that sets a key.
fn write_setting(text: &mut Vec<u8>, fields: &Fields, key: Key) -> Result<(), NoMemory>
    ensures { OnOk result (text.new.items ≡ text.old.items ++ set_line fields.now key) }
{
    lines_are_those_of_rows();
    let mut line = TextLine::new();
    line.put(b"\n");
    line.put_signed_field(value_of(fields, key));
    line.put_word(key_name(key));
    line.put(b"set");
    line.append_to(text)
}
