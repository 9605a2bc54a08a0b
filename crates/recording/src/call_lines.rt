//! The rows of a terminal's calls.

ghost use Rattle.std.specs.Prelude.{◌≡◌, ℕ, ◌<◌, ◌≤◌, ◌+◌, ◌++◌, length, decimal, OnOk};
ghost use Rattle.hex.specs.Hex.{encode_lower};
ghost use Rattle.ld_base.specs.Bits.{line_bit, line_bits};
ghost use Rattle.row_reader.specs.PlainRows.{line_of};
ghost use Rattle.text_lines.specs.Lines.{field_and};
ghost use Rattle.recording.specs.RecordText.{bytes_of_bits, call_row};

use ld_base::{Chunk, NoMemory};
use relay_core::Call;
use text_lines::TextLine;
use text_lines::laws::lines_are_those_of_rows;

/// Appends the row of a call.
pub(crate) fn write_call(text: &mut Vec<u8>, call: &Call) -> Result<(), NoMemory>
    ensures { OnOk result (text.new.items ≡ text.old.items ++ line_of (call_row call.now)) }
{
    lines_are_those_of_rows();
    let mut line = TextLine::new();
    line.put(b"\n");
    match call {
        Call::Sample { now, values } => {
            line.put_phases(values);
            line.put_field(now.get());
            line.put(b"sample");
        }
        Call::Slot { now } => {
            line.put_field(now.get());
            line.put(b"slot");
        }
        Call::Bits { now, peer, chunk } => {
            put_chunk(&mut line, chunk);
            line.put_station(*peer);
            line.put_field(now.get());
            line.put(b"bits");
        }
        Call::Fault { now, peer } => {
            line.put_station(*peer);
            line.put_field(now.get());
            line.put(b"fault");
        }
    }
    line.append_to(text)
}

// Puts the count of a chunk's bits and its bytes in front, each behind a comma.
fn put_chunk(line: &mut TextLine, chunk: &Chunk)
    requires { length line.old ≤ 100 }
    ensures chunk { line.new ≡ field_and (decimal (length chunk.now)) (field_and (encode_lower (bytes_of_bits chunk.now)) line.old) }
    ensures few { length line.new ≤ length line.old + 86 }
{
    put_bits(line, chunk.bits(), &chunk.bytes());
}

// Puts a count of bits in front, and the bytes that have them, behind the last of which there are zeros.
fn put_bits(line: &mut TextLine, count: u16, bytes: &[u8])
    requires room { length line.old ≤ 100 }
    requires whole { (count ≤ 256) × (length bytes.now ≡ 32) }
    requires zeros { (i : ℕ) → count ≤ i → i < 256 → line_bit bytes.now i ≡ 0 }
    ensures bits { line.new ≡ field_and (decimal count) (field_and (encode_lower (bytes_of_bits (line_bits count bytes.now))) line.old) }
    ensures few { length line.new ≤ length line.old + 86 }
{
    line.put_hex_field(&bytes[..usize::from(count.div_ceil(8))]);
    line.put_field(u64::from(count));
}
