//! The command `judge`: verdicts of aligned sample sets.

ghost use Rattle.std.specs.Prelude.{◌≡◌, ◌≤◌, ◌+◌, ◌++◌, ◌∷◌, [], None, Some, true, false, length, IfOk, MatchOption, MatchResult, OnOk};
ghost use Rattle.csv.specs.Records.{fields_of};
ghost use Rattle.bench_cmd.specs.Judge.{are_values_at, is_in_range, judge_rows, judge_settings, line_of, phases_at, row_fault, set_of, set_of_numbers};
ghost use Rattle.row_reader.specs.Rows.{rows_of};
ghost use Rattle.bench_cmd.specs.Outcomes.{IsOutcome};

use crate::output::Outcome;
use csv::ByteRecord;
use itoa::write_digits;
use ld_base::{Fields, NoMemory, Phases, Reason, SampleSet, Settings};
use row_reader::{Fault, Rows, numbers_of};
use std::alloc::Global;
use text_lines::letter;
use trip_logic::{Trip, Verdict};

/// The fields of a row: the number of the set, and three phases of each terminal.
const FIELDS: usize = 7;

/// The most digits of the number of a set.
const MOST_DIGITS: usize = 10;

/// The verdicts of the input's rows as text, or the first row with a fault.
pub(crate) fn judge(alloc: Global, count: u8, input: &[u8]) -> Result<Outcome, NoMemory>
    requires { (1 ≤ count) × (count ≤ 32) }
    ensures { IfOk result (λ outcome. IsOutcome outcome (judge_rows count (rows_of input.now))) }
{
    let settings = judge_settings(count);
    let mut trip = Trip::new(alloc, &settings)?;
    let mut rows = Rows::new(alloc, input);
    let mut row = ByteRecord::new(alloc);
    let mut text = Vec::new(alloc);
    let mut at = 0u64;
    let mut next = 0u64;
    'judging: while rows.read(&mut row)? {
        at += 1;
        match set_of(&row, next) {
            Ok(set) => {
                let verdicts = trip.judge(&set);
                write_line(&mut text, set.number, &verdicts)?;
                next = u64::from(set.number) + 1;
            }
            Err(reason) => return Ok(Outcome::Bad(Fault { row: at, reason })),
        }
    }
    Ok(Outcome::Text(text))
}

// Two stations, five channels and the defaults, with that count.
#[tactic(auto, unfolding(ld_base::specs::Settings::setting_fault, ld_base::specs::Settings::key_out_of_range))]
fn judge_settings(count: u8) -> Settings
    requires { (1 ≤ count) × (count ≤ 32) }
    ensures { result ≡ judge_settings count }
{
    let mut fields = Fields::usual(2, 5);
    fields.count = count;
    match Settings::new(fields) {
        Ok(settings) => settings,
        Err(_) => unreachable!(),
    }
}

// The set of a row, or the least rule that it breaks, where the numbers from `next` on come after that of the row before.
fn set_of(row: &ByteRecord, next: u64) -> Result<SampleSet, Reason>
    ensures { MatchResult result
        (λ set. (row_fault next (fields_of row.now) ≡ None) × (set ≡ set_of (fields_of row.now)))
        (λ reason. row_fault next (fields_of row.now) ≡ Some reason) }
{
    if row.len() != FIELDS {
        return Err(Reason::Fields);
    }
    let Some(numbers) = numbers_of::<FIELDS>(row, 0) else {
        return Err(Reason::Number);
    };
    let Some(set) = set_in_range(&numbers) else {
        return Err(Reason::Range);
    };
    if u64::from(set.number) < next {
        return Err(Reason::Order);
    }
    Ok(set)
}

// The set of seven numbers, where all lie in their ranges.
fn set_in_range(numbers: &[i64]) -> Option<SampleSet>
    requires { length numbers.now ≡ 7 }
    ensures { MatchOption result (is_in_range numbers.now ≡ false)
        (λ set. (is_in_range numbers.now ≡ true) × (set ≡ set_of_numbers numbers.now)) }
{
    Some(SampleSet {
        number: u32::try_from(numbers[0]).ok()?,
        values: [
            phases_at(numbers, 1)?,
            phases_at(numbers, 4)?,
            Phases::default(),
        ],
    })
}

// The three values from a place on, where they are values of 16 bits.
fn phases_at(numbers: &[i64], place: usize) -> Option<Phases>
    requires { place + 3 ≤ length numbers.now }
    ensures { MatchOption result (are_values_at numbers.now place ≡ false)
        (λ phases. (are_values_at numbers.now place ≡ true) × (phases ≡ phases_at numbers.now place)) }
{
    Some(Phases {
        a: i16::try_from(numbers[place]).ok()?,
        b: i16::try_from(numbers[place + 1]).ok()?,
        c: i16::try_from(numbers[place + 2]).ok()?,
    })
}

// Appends the line of a set, which is made at its place in front of what follows the number.
fn write_line(text: &mut Vec<u8>, number: u32, verdicts: &[Verdict; 3]) -> Result<(), NoMemory>
    ensures { OnOk result (text.new.items ≡ text.old.items ++ line_of number verdicts.now) }
{
    let mut line = [
        0,
        0,
        0,
        0,
        0,
        0,
        0,
        0,
        0,
        0,
        b',',
        letter(verdicts[0]),
        letter(verdicts[1]),
        letter(verdicts[2]),
        b'\n',
    ];
    let start = write_digits(u64::from(number), &mut line, MOST_DIGITS);
    text.extend_from_slice(&line[start..])?;
    Ok(())
}
