//! The rows of an input, one at a time.

ghost use Rattle.std.specs.Prelude.{◌≡◌, ◌≤◌, [], ◌∷◌, length, IfOk, MatchBool, OnErr};
ghost use Rattle.csv.specs.Records.{fields_of};
ghost use Rattle.row_reader.specs.Rows.{rows_of};

use csv::{ByteRecord, Reader, ReaderBuilder};
use ld_base::NoMemory;
use std::alloc::Global;
use std::marker::Model;

/// The rows of a text that are left to read: its records by RFC 4180, after a byte order mark. A row may have any count of
/// fields, and a field any bytes.
#[derive(Drop)]
pub struct Rows<'a> {
    reader: Reader<&'a [u8]>,
}

impl<'a> Model for Rows<'a> {
    ghost use Rattle.std.specs.Prelude.{ℕ, List};
    ghost use Rattle.row_reader.specs.Rows.{rows_left, ReadsRows};

    ghost Value = { List (List (List ℕ)) };

    ghost view = { λ a. rows_left a.reader };

    ghost invariant = { λ a. ReadsRows a.reader };
}

impl Rows<'_> {
    /// All rows of the text.
    pub fn new(alloc: Global, text: &[u8]) -> Rows<'_>
        ensures all { result ≡ rows_of text.now }
        ensures few { length result ≤ length text.now }
    {
        let reader = ReaderBuilder::new()
            .has_headers(false)
            .flexible(true)
            .from_reader(alloc, text);
        Rows { reader }
    }

    /// Reads the next row into `row`, and says whether there was one. Where memory is refused no row is left to read. No row
    /// is refused for its length.
    pub fn read(&mut self, row: &mut ByteRecord) -> Result<bool, NoMemory>
        ensures stopped { OnErr result (self.new ≡ []) }
        ensures read { IfOk result (λ found. MatchBool found (self.old ≡ fields_of row.new ∷ self.new) (self.old ≡ [])) }
    {
        let Ok(found) = self.reader.read_byte_record(row) else {
            // A slice doesn't fail and rows may have any length, so what is left is memory.
            return Err(NoMemory);
        };
        Ok(found)
    }
}

#[cfg(test)]
mod tests {
    use super::*;
    use std::test::Fail;

    // The rows of a text, each field with a `|` after it and each row with a `/`.
    fn marked(alloc: Global, text: &[u8]) -> Result<Vec<u8>, Fail> {
        let mut rows = Rows::new(alloc, text);
        let mut row = ByteRecord::new(alloc);
        let mut all = Vec::new(alloc);
        while rows.read(&mut row)? {
            for field in row.iter() {
                all.extend_from_slice(field)?;
                all.push(b'|')?;
            }
            all.push(b'/')?;
        }
        Ok(all)
    }

    #[test]
    fn reads_bytes_as_they_come(rt: HostRuntime) -> Result<(), Fail> {
        let cases: [(&[u8], &[u8]); 9] = [
            (b"", b""),
            (b"a,\"b,c\",\"d\"\"e\"\n", b"a|b,c|d\"e|/"),
            (b"\"a\nb\",c\n\"\"\n", b"a\nb|c|/|/"),
            (b"\na\n\n\r\n\nb,c\n\n", b"a|/b|c|/"),
            (b"a,b\r\nc,d\r\n", b"a|b|/c|d|/"),
            (b"\xEF\xBB\xBF\"a\"\n\xEF\xBB\xBFb\n", b"a|/\xEF\xBB\xBFb|/"),
            (b"\xFF,\x80\xC3\n", b"\xFF|\x80\xC3|/"),
            (b"a,b\nc", b"a|b|/c|/"),
            (b" a , b\nc,", b" a | b|/c||/"),
        ];
        for (text, want) in cases {
            let all = marked(rt.alloc(), text)?;
            assert_eq!(rt; all.as_slice(), want, "at {text:?}");
        }
        Ok(())
    }
}
