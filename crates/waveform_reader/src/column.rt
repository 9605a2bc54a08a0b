//! What the numbers of records say, and the ranges in which they lie.

ghost use Rattle.std.specs.Prelude.{◌≡◌, length};
ghost use Rattle.row_reader.specs.RowNumbers.{is_between};
ghost use Rattle.waveform_reader.specs.Columns.{are_between, span_of};

/// What a number of a record says.
#[derive(Clone, Copy, Debug, PartialEq, Eq)]
pub(crate) enum Column {
    /// A true tick.
    Tick,
    Station,
    /// The ticks of a clock's start.
    Start,
    /// A clock's rate, in millionths.
    Rate,
    /// A value, in counts of the converter.
    Value,
    /// The amplitude of a wave, in counts of the converter.
    Amplitude,
    /// Twentieths of a cycle.
    Step,
    /// The ticks of a line's delay.
    Delay,
    /// A bit of a frame.
    Bit,
    /// The ticks after which a frame is repeated.
    Extra,
    /// A count of bits.
    Bits,
}

impl Column {
    /// Whether a number lies in the column's range, where clocks may drift so many millionths either way.
    pub(crate) fn holds(self, drift: u32, number: i64) -> bool
        ensures { result ≡ is_between (span_of drift self) number }
    {
        match self {
            Column::Tick => (0..=20_000_000).contains(&number),
            Column::Station => (1..=3).contains(&number),
            Column::Start => (0..=1_000_000_000_000).contains(&number),
            Column::Rate => (-i64::from(drift)..=i64::from(drift)).contains(&number),
            Column::Value => (-32_768..=32_767).contains(&number),
            Column::Amplitude => (0..=32_767).contains(&number),
            Column::Step => (0..=19).contains(&number),
            Column::Delay => (1..=100_000).contains(&number),
            Column::Bit => (0..=255).contains(&number),
            Column::Extra => (1..=1_000_000).contains(&number),
            Column::Bits => (1..=255).contains(&number),
        }
    }
}

/// Whether numbers lie in the ranges of their columns, where clocks may drift so many millionths either way.
#[tactic(auto, using(crate::proofs::ColumnFacts::between_more))]
pub(crate) fn are_between(columns: &[Column], drift: u32, numbers: &[i64]) -> bool
    requires { length numbers.now ≡ length columns.now }
    ensures { result ≡ are_between drift 0 columns.now numbers.now }
{
    for (place, column) in columns.iter().enumerate() {
        if !column.holds(drift, numbers[place]) {
            return false;
        }
    }
    true
}
