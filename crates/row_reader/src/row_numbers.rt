//! The numbers of a row.

ghost use Rattle.std.specs.Prelude.{◌≡◌, ◌+◌, ◌≤◌, IfSome, drop, length, option_map};
ghost use Rattle.csv.specs.Records.{fields_of};
ghost use Rattle.row_reader.specs.RowNumbers.{numbers_of};

use crate::numbers::number;
use arrayvec::ArrayVec;
use csv::ByteRecord;

/// The numbers in a row's fields from a place on. None where one of them isn't a number.
#[tactic(auto, using(crate::proofs::RowNumberFacts::numbers_more, crate::proofs::RowNumberFacts::numbers_none))]
pub fn numbers_of<const N: usize>(row: &ByteRecord, from: usize) -> Option<ArrayVec<i64, N>>
    requires there { from ≤ length (fields_of row.now) }
    requires few { length (fields_of row.now) ≤ from + N }
    ensures numbers { option_map (λ v. v.items) result ≡ numbers_of (drop from (fields_of row.now)) }
    ensures count { IfSome result (λ v. from + length v.items ≡ length (fields_of row.now)) }
{
    let mut numbers = ArrayVec::new();
    for place in from..row.len() {
        numbers.push(number(row.get(place)?)?);
    }
    Some(numbers)
}
