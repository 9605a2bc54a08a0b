//! The law of lines of text, the contract of a function that does nothing.

ghost use Rattle.std.specs.Prelude.{◌≡◌, ◌∷◌, ℕ, List};
ghost use Rattle.row_reader.specs.PlainRows.{line_of};
ghost use Rattle.text_lines.specs.Lines.{row};

/// A line of text is the line of the row that has its kind and its fields.
pub fn lines_are_those_of_rows()
    ensures { (kind : List ℕ) (fields : List (List ℕ)) → row kind fields ≡ line_of (kind ∷ fields) }
{}
