//! Making a terminal.

ghost use Rattle.std.specs.Prelude.{◌≡◌, ◌≤◌, [], IfOk, MatchResult};
ghost use Rattle.relay_core.specs.StandsFor.{StandsFor};
ghost use Rattle.terminal_c.specs.Making.{FailsMaking};
ghost use Rattle.terminal_c.specs.Stands.{Stands, fields_of};
ghost use Rattle.terminal_c.specs.Status.{is_station, new_status};
ghost use Rattle.terminal_c.specs.declared.status.Status.TheVariants.{Done};

use crate::flat;
use crate::handle::Handle;
use crate::held::Held;
use crate::loose::Loose;
use crate::settings::fields_of;
use crate::status::Status;
use ld_base::{BadSetting, Fields, NoMemory, Settings, Station};
use relay_core::Terminal;
use std::alloc::Global;

/// Why no terminal is made.
pub(crate) enum Failed {
    /// The settings are refused.
    Settings(BadSetting),
    /// Any other reason.
    Other(Status),
}

/// A handle with the terminal of station `me`, where the old handle is free.
pub(crate) fn made(
    alloc: Global,
    old: &Handle,
    settings: &flat::Settings,
    me: u8,
) -> Result<Handle, Failed>
    ensures { MatchResult result (λ new. (new_status old.now (fields_of settings.now) me ≡ Done) × Stands new (fields_of settings.now) me [])
        (FailsMaking old.now (fields_of settings.now) me) }
{
    if old.full {
        return Err(Failed::Other(Status::Full));
    }
    let fields = fields_of(settings);
    let settings = match Settings::new(fields) {
        Ok(settings) => settings,
        Err(bad) => return Err(Failed::Settings(bad)),
    };
    if !is_station(&fields, me) {
        return Err(Failed::Other(Status::Station));
    }
    let Some(station) = Station::new(me) else {
        unreachable!()
    };
    match boxed(alloc, &settings, station) {
        Ok(terminal) => Ok(Handle {
            held: Held::some(Loose::of(terminal)),
            full: true,
            me,
            stations: fields.stations,
        }),
        Err(NoMemory) => Err(Failed::Other(Status::Memory)),
    }
}

// Whether a line of these settings has such a station.
fn is_station(fields: &Fields, me: u8) -> bool
    ensures { result ≡ is_station fields.now me }
{
    1 <= me && me <= 3 && me <= fields.stations
}

// A new terminal in memory of its own.
fn boxed(alloc: Global, settings: &Settings, me: Station) -> Result<Box<Terminal>, NoMemory>
    requires { me ≤ settings.now.stations }
    ensures { IfOk result (λ t. (t.value.settings ≡ settings.now) × (t.value.me ≡ me) × StandsFor t.value []) }
{
    let terminal = Terminal::new(alloc, settings, me)?;
    Ok(Box::new(alloc, terminal)?)
}
