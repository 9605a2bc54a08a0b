//! The settings that C hands in.

ghost use Rattle.std.specs.Prelude.{◌≡◌};
ghost use Rattle.ld_base.specs.Settings.{usual};
ghost use Rattle.terminal_c.specs.Stands.{fields_of};

use crate::flat::Settings;
use ld_base::Fields;

/// The fields of these settings.
pub(crate) fn fields_of(settings: &Settings) -> Fields
    ensures { result ≡ fields_of settings.now }
{
    Fields {
        stations: settings.stations,
        channels: settings.channels,
        spacing: settings.spacing,
        cycle: settings.cycle,
        drift: settings.drift,
        slow: settings.slow,
        age: settings.age,
        limit: settings.limit,
        silent: settings.silent,
        count: settings.count,
        pickup: settings.pickup,
        rn: settings.rn,
        rd: settings.rd,
        p: settings.p,
        q: settings.q,
        worda: settings.worda,
        wordb: settings.wordb,
        misses: settings.misses,
    }
}

/// The defaults of a line of so many stations and channels.
pub(crate) fn usual(stations: u8, channels: u8) -> Settings
    ensures { fields_of result ≡ usual stations channels }
{
    let fields = Fields::usual(stations, channels);
    Settings {
        spacing: fields.spacing,
        drift: fields.drift,
        slow: fields.slow,
        age: fields.age,
        limit: fields.limit,
        silent: fields.silent,
        rn: fields.rn,
        rd: fields.rd,
        p: fields.p,
        q: fields.q,
        pickup: fields.pickup,
        stations: fields.stations,
        channels: fields.channels,
        cycle: fields.cycle,
        count: fields.count,
        worda: fields.worda,
        wordb: fields.wordb,
        misses: fields.misses,
    }
}
