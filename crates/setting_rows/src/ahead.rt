//! The rows of a text, of which the next is looked at before it is taken.

ghost use Rattle.std.specs.Prelude.{◌≡◌, ◌+◌, ◌<◌, IfOk, MatchOption, OnOk, [], drop, length, option_map, slice_get};
ghost use Rattle.csv.specs.Records.{fields_of};
ghost use Rattle.row_reader.specs.Rows.{rows_of};
ghost use Rattle.setting_rows.specs.Ahead.{IsNextHeading};
ghost use Rattle.setting_rows.specs.Head.{head_rows};

use crate::head::is_heading;
use csv::ByteRecord;
use ld_base::NoMemory;
use row_reader::Rows;
use std::alloc::Global;
use std::marker::Model;

/// The rows of a text that are still ahead, each with its number.
#[derive(Drop)]
pub struct Ahead<'a> {
    rows: Rows<'a>,
    row: ByteRecord,
    found: bool,
    taken: u64,
}

impl<'a> Model for Ahead<'a> {
    ghost use Rattle.std.specs.Prelude.{◌+◌, ◌^◌, ◌<◌, length};
    ghost use Rattle.csv.specs.Records.{fields_of};
    ghost use Rattle.setting_rows.specs.Ahead.{left_of};
    ghost use Rattle.setting_rows.specs.Ahead as spec;

    ghost Value = { spec.Ahead };

    ghost view = { λ a. record { taken = a.taken; left = left_of a.found (fields_of a.row) a.rows } };

    ghost invariant = { λ a. a.taken + length (left_of a.found (fields_of a.row) a.rows) < 2 ^ 64 };
}

impl Ahead<'_> {
    /// All rows of the text, none of them taken.
    pub fn new(alloc: Global, text: &[u8]) -> Result<Ahead<'_>, NoMemory>
        ensures { IfOk result (λ ahead. ahead ≡ record { taken = 0; left = rows_of text.now }) }
    {
        let mut rows = Rows::new(alloc, text);
        let mut row = ByteRecord::new(alloc);
        let found = rows.read(&mut row)?;
        Ok(Ahead {
            rows,
            row,
            found,
            taken: 0,
        })
    }

    /// The next row, where there is one.
    pub fn row(&self) -> Option<&ByteRecord>
        ensures { option_map (λ row. fields_of row.now) result ≡ slice_get self.now.left 0 }
    {
        if self.found { Some(&self.row) } else { None }
    }

    /// The next row, where it stands among the settings.
    pub(crate) fn heading(&self) -> Option<&ByteRecord>
        ensures { MatchOption result (head_rows self.now.left ≡ []) (λ row. IsNextHeading self.now.left (fields_of row.now)) }
    {
        let row = self.row()?;
        if is_heading(row) { Some(row) } else { None }
    }

    /// The number of the next row, counted from 1.
    pub fn number(&self) -> u64
        requires { 0 < length self.now.left }
        ensures { result ≡ self.now.taken + 1 }
    {
        self.taken + 1
    }

    /// Takes the next row. After a refusal of memory nothing is said of the rows.
    pub fn advance(&mut self) -> Result<(), NoMemory>
        requires { 0 < length self.old.left }
        ensures { OnOk result (self.new ≡ record { taken = self.old.taken + 1; left = drop 1 self.old.left }) }
    {
        self.found = self.rows.read(&mut self.row)?;
        self.taken += 1;
        Ok(())
    }
}
