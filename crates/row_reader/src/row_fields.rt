//! The fields of a row.

ghost use Rattle.std.specs.Prelude.{◌≡◌};
ghost use Rattle.csv.specs.Records.{fields_of};
ghost use Rattle.row_reader.specs.RowFields.{field_of};

use csv::ByteRecord;

/// The field at a place, counted from 0, or an empty one where there is none.
#[tactic(auto, using(crate::proofs::RowFieldFacts::field_at_or))]
pub fn field(row: &ByteRecord, place: usize) -> &[u8]
    ensures { result.now ≡ field_of (fields_of row.now) place }
{
    match row.get(place) {
        Some(field) => field,
        None => &[],
    }
}
