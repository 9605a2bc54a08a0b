//! The records behind the settings: their names, and the numbers that follow.

ghost use Rattle.std.specs.Prelude.{◌≡◌};
ghost use Rattle.waveform_reader.specs.Columns.{columns_of};
ghost use Rattle.waveform_reader.specs.Names.{kind_name, kind_of};

use crate::column::Column;

/// The kinds of records behind the settings.
#[derive(Clone, Copy, Debug, PartialEq, Eq)]
pub(crate) enum Kind {
    Clock,
    Rate,
    Hold,
    Wave,
    Delay,
    Lose,
    Flip,
    Repeat,
    Cut,
    Slip,
    FailSend,
    FailTake,
}

/// The kinds.
static KINDS: [Kind; 12] = [
    Kind::Clock,
    Kind::Rate,
    Kind::Hold,
    Kind::Wave,
    Kind::Delay,
    Kind::Lose,
    Kind::Flip,
    Kind::Repeat,
    Kind::Cut,
    Kind::Slip,
    Kind::FailSend,
    Kind::FailTake,
];

impl Kind {
    /// The kind of that name. None where it is the name of none.
    #[tactic(auto, unfolding(crate::specs::Names::kind_of))]
    pub(crate) fn named(name: &[u8]) -> Option<Kind>
        ensures { result ≡ kind_of name.now }
    {
        KINDS.iter().copied().find(|kind| name == kind.name())
    }

    /// The name of the kind's records.
    fn name(self) -> &'static [u8]
        ensures { result.now ≡ kind_name self }
    {
        match self {
            Kind::Clock => b"clock",
            Kind::Rate => b"rate",
            Kind::Hold => b"hold",
            Kind::Wave => b"wave",
            Kind::Delay => b"delay",
            Kind::Lose => b"lose",
            Kind::Flip => b"flip",
            Kind::Repeat => b"repeat",
            Kind::Cut => b"cut",
            Kind::Slip => b"slip",
            Kind::FailSend => b"failsend",
            Kind::FailTake => b"failtake",
        }
    }

    /// The numbers that follow the name.
    pub(crate) fn columns(self) -> &'static [Column]
        ensures { result.now ≡ columns_of self }
    {
        match self {
            Kind::Clock => &[Column::Station, Column::Start],
            Kind::Rate => &[Column::Tick, Column::Station, Column::Rate],
            Kind::Hold => &[
                Column::Tick,
                Column::Station,
                Column::Value,
                Column::Value,
                Column::Value,
            ],
            Kind::Wave => &[
                Column::Tick,
                Column::Station,
                Column::Amplitude,
                Column::Step,
                Column::Amplitude,
                Column::Step,
                Column::Amplitude,
                Column::Step,
            ],
            Kind::Delay => &[
                Column::Tick,
                Column::Station,
                Column::Station,
                Column::Delay,
            ],
            Kind::Lose | Kind::FailSend | Kind::FailTake => &[
                Column::Tick,
                Column::Tick,
                Column::Station,
                Column::Station,
            ],
            Kind::Flip => &[
                Column::Tick,
                Column::Tick,
                Column::Station,
                Column::Station,
                Column::Bit,
            ],
            Kind::Repeat => &[
                Column::Tick,
                Column::Tick,
                Column::Station,
                Column::Station,
                Column::Extra,
            ],
            Kind::Cut | Kind::Slip => &[
                Column::Tick,
                Column::Tick,
                Column::Station,
                Column::Station,
                Column::Bits,
            ],
        }
    }
}
