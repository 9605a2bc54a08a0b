//! Rows of text.

ghost use Rattle.std.specs.Prelude.{◌≡◌, ◌++◌, OnOk};
ghost use Rattle.row_reader.specs.PlainRows.{line_of};
ghost use Rattle.scenario_generator.specs.Rows.{row, set_row};

use itoa::Buffer;
use ld_base::NoMemory;

/// Appends a row of a name and some numbers.
pub(crate) fn write_row(text: &mut Vec<u8>, name: &[u8], numbers: &[i64]) -> Result<(), NoMemory>
    ensures { OnOk result (text.new.items ≡ text.old.items ++ line_of (row name.now numbers.now)) }
{
    text.extend_from_slice(name)?;
    for number in numbers {
        text.push(b',')?;
        text.extend_from_slice(Buffer::new().format(*number).as_bytes())?;
    }
    text.push(b'\n')?;
    Ok(())
}

/// Appends a row that sets a key.
pub(crate) fn write_set(text: &mut Vec<u8>, key: &[u8], value: u64) -> Result<(), NoMemory>
    ensures { OnOk result (text.new.items ≡ text.old.items ++ line_of (set_row key.now value)) }
{
    text.extend_from_slice(b"set,")?;
    text.extend_from_slice(key)?;
    text.push(b',')?;
    text.extend_from_slice(Buffer::new().format(value).as_bytes())?;
    text.push(b'\n')?;
    Ok(())
}
