//! The law of plain rows, the contract of a function that does nothing.

ghost use Rattle.std.specs.Prelude.{◌≡◌, List, All, true};
ghost use Rattle.row_reader.specs.PlainRows.{is_plain_row, text_of};
ghost use Rattle.row_reader.specs.Rows.{Row, rows_of};

/// Plain rows are read from their text as they are: take lines that each end in one line feed, whose fields are joined by commas
/// and have ASCII characters alone, without a comma, a quote, a carriage return or a line feed, the first field of each line
/// not being empty.
pub fn plain_rows_are_read()
    ensures { (rows : List Row) → All (λ row. is_plain_row row ≡ true) rows → rows_of (text_of rows) ≡ rows }
{}
