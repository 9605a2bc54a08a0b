//! What the records behind the settings say.

ghost use Rattle.std.specs.Prelude.{◌≡◌, ◌≤◌, ◌<◌, true, negsuc, pos, length};
ghost use Rattle.row_reader.specs.RowNumbers.{is_between, number_at};
ghost use Rattle.waveform_reader.specs.Columns.{are_between, columns_of};
ghost use Rattle.waveform_reader.specs.Draft.{amplitudes_of, hold_of, natural_at, record_of, rule_of, shape_of, steps_of, wave_of};
ghost use Rattle.waveform_reader.specs.declared.kind.Kind.TheVariants as kind;

use crate::kind::Kind;
use crate::shape::{Shape, ShapeFrom};
use ld_base::{Act, Phases, Rule, Station};
use pingpong::RateFrom;

/// What a station's clock shows at tick 0.
#[derive(Clone, Copy, Debug)]
pub(crate) struct Start {
    pub station: Station,
    pub ticks: u64,
}

/// A rate of a station's clock.
#[derive(Clone, Copy, Debug)]
pub(crate) struct Rating {
    pub station: Station,
    pub rate: RateFrom,
}

/// What a record behind the settings says.
#[derive(Clone, Copy, Debug)]
pub(crate) enum Record {
    Clock(Start),
    Rate(Rating),
    Shape(ShapeFrom),
    Script(Rule),
}

/// What a record of that kind says by its numbers, which lie in their ranges.
pub(crate) fn record_of(kind: Kind, drift: u32, numbers: &[i64]) -> Record
    requires drift { drift ≤ 200 }
    requires count { length numbers.now ≡ length (columns_of kind) }
    requires ranges { are_between drift 0 (columns_of kind) numbers.now ≡ true }
    ensures { result ≡ record_of kind numbers.now }
{
    match kind {
        Kind::Clock => Record::Clock(Start {
            station: station_at(numbers, 0),
            ticks: natural_at(numbers, 1),
        }),
        Kind::Rate => Record::Rate(Rating {
            station: station_at(numbers, 1),
            rate: RateFrom {
                from: natural_at(numbers, 0),
                rate: numbers[2] as i32,
            },
        }),
        Kind::Hold => shape_of(numbers, hold_of(numbers)),
        Kind::Wave => shape_of(numbers, wave_of(numbers)),
        Kind::Delay => Record::Script(Rule {
            from: station_at(numbers, 1),
            to: station_at(numbers, 2),
            first: natural_at(numbers, 0),
            last: natural_at(numbers, 0),
            act: Act::Delay(natural_at(numbers, 3) as u32),
        }),
        Kind::Lose => rule_of(numbers, Act::Lose),
        Kind::Flip => rule_of(numbers, Act::Flip(natural_at(numbers, 4) as u16)),
        Kind::Repeat => rule_of(numbers, Act::Repeat(natural_at(numbers, 4) as u32)),
        Kind::Cut => rule_of(numbers, Act::Cut(natural_at(numbers, 4) as u16)),
        Kind::Slip => rule_of(numbers, Act::Slip(natural_at(numbers, 4) as u16)),
        Kind::FailSend => rule_of(numbers, Act::FailSend),
        Kind::FailTake => rule_of(numbers, Act::FailTake),
    }
}

// A shape from the tick at place 0, of the station at place 1.
fn shape_of(numbers: &[i64], shape: Shape) -> Record
    requires count { 2 ≤ length numbers.now }
    requires station { is_between (pos 1, pos 3) (number_at numbers.now 1) ≡ true }
    ensures { result ≡ shape_of numbers.now shape }
{
    Record::Shape(ShapeFrom {
        station: station_at(numbers, 1),
        from: natural_at(numbers, 0),
        shape,
    })
}

// The values at the places 2 to 4.
fn hold_of(numbers: &[i64]) -> Shape
    requires count { length numbers.now ≡ length (columns_of kind.Hold) }
    requires ranges { are_between 0 0 (columns_of kind.Hold) numbers.now ≡ true }
    ensures { result ≡ hold_of numbers.now }
{
    Shape::Hold(Phases {
        a: value_at(numbers, 2),
        b: value_at(numbers, 3),
        c: value_at(numbers, 4),
    })
}

// Three amplitudes from place 2 on, each before its step.
fn wave_of(numbers: &[i64]) -> Shape
    requires count { length numbers.now ≡ length (columns_of kind.Wave) }
    requires ranges { are_between 0 0 (columns_of kind.Wave) numbers.now ≡ true }
    ensures { result ≡ wave_of numbers.now }
{
    Shape::Wave {
        amp: amplitudes_of(numbers),
        step: steps_of(numbers),
    }
}

fn amplitudes_of(numbers: &[i64]) -> [i16; 3]
    requires count { length numbers.now ≡ length (columns_of kind.Wave) }
    requires ranges { are_between 0 0 (columns_of kind.Wave) numbers.now ≡ true }
    ensures { result ≡ amplitudes_of numbers.now }
{
    [
        value_at(numbers, 2),
        value_at(numbers, 4),
        value_at(numbers, 6),
    ]
}

fn steps_of(numbers: &[i64]) -> [u8; 3]
    requires count { length numbers.now ≡ length (columns_of kind.Wave) }
    requires ranges { are_between 0 0 (columns_of kind.Wave) numbers.now ≡ true }
    ensures { result ≡ steps_of numbers.now }
{
    [
        step_at(numbers, 3),
        step_at(numbers, 5),
        step_at(numbers, 7),
    ]
}

// A rule from the tick at place 0 to that at place 1, of the line from the station at place 2 to that at place 3.
fn rule_of(numbers: &[i64], act: Act) -> Record
    requires count { 4 ≤ length numbers.now }
    requires sender { is_between (pos 1, pos 3) (number_at numbers.now 2) ≡ true }
    requires receiver { is_between (pos 1, pos 3) (number_at numbers.now 3) ≡ true }
    ensures { result ≡ rule_of numbers.now act }
{
    Record::Script(Rule {
        from: station_at(numbers, 2),
        to: station_at(numbers, 3),
        first: natural_at(numbers, 0),
        last: natural_at(numbers, 1),
        act,
    })
}

fn natural_at(numbers: &[i64], place: usize) -> u64
    requires { place < length numbers.now }
    ensures { result ≡ natural_at numbers.now place }
{
    numbers[place].unsigned_abs()
}

fn station_at(numbers: &[i64], place: usize) -> Station
    requires inside { place < length numbers.now }
    requires range { is_between (pos 1, pos 3) (number_at numbers.now place) ≡ true }
    ensures { result ≡ natural_at numbers.now place }
{
    station_of(natural_at(numbers, place) as u8)
}

/// The station of that number.
pub(crate) fn station_of(number: u8) -> Station
    requires { (1 ≤ number) × (number ≤ 3) }
    ensures { result ≡ number }
{
    match Station::new(number) {
        Some(station) => station,
        None => unreachable!(),
    }
}

fn value_at(numbers: &[i64], place: usize) -> i16
    requires inside { place < length numbers.now }
    requires range { is_between (negsuc 32767, pos 32767) (number_at numbers.now place) ≡ true }
    ensures { result ≡ number_at numbers.now place }
{
    numbers[place] as i16
}

fn step_at(numbers: &[i64], place: usize) -> u8
    requires inside { place < length numbers.now }
    requires range { is_between (pos 0, pos 19) (number_at numbers.now place) ≡ true }
    ensures { result ≡ natural_at numbers.now place }
{
    natural_at(numbers, place) as u8
}
