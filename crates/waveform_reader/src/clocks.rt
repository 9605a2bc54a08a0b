//! The clocks that records tell of, and the scenario of all records.

ghost use Rattle.std.specs.Prelude.{◌≡◌, ◌≤◌, None, length};
ghost use Rattle.ld_base.specs.Settings.{IsWithin, setting_fault};
ghost use Rattle.pingpong.specs.Clock.{Course, IsCourse};
ghost use Rattle.waveform_reader.specs.Scenario.{rates_of, setup_of, start_of};
ghost use Rattle.waveform_reader.specs.Sound.{IsDraft, IsSetup};

use crate::record::{Rating, Start, station_of};
use crate::scenario::Scenario;
use crate::shape::ShapeFrom;
use arrayvec::ArrayVec;
use ld_base::{Rule, Settings, Station};
use pingpong::{Clock, RateFrom};

/// The scenario of these settings and records.
pub(crate) fn scenario_of(
    settings: Settings,
    end: u64,
    starts: &[Start],
    rates: &[Rating],
    shapes: Vec<ShapeFrom>,
    rules: Vec<Rule>,
) -> Scenario
    requires drift { settings.drift ≤ 200 }
    requires accepted { setting_fault settings ≡ None }
    requires end { IsWithin (1, 20000000) end }
    requires kept { IsDraft settings (record { starts = starts.now; rates = rates.now; shapes = shapes.items; rules = rules.items }) }
    ensures whole { result ≡ setup_of settings end (record { starts = starts.now; rates = rates.now; shapes = shapes.items; rules = rules.items }) }
    ensures kept { IsSetup result }
{
    let clocks = [
        clock_of(starts, rates, station_of(1)),
        clock_of(starts, rates, station_of(2)),
        clock_of(starts, rates, station_of(3)),
    ];
    Scenario::new(settings, end, clocks, shapes, rules)
}

// The clock of a station by these starts and rates.
fn clock_of(starts: &[Start], rates: &[Rating], station: Station) -> Clock
    requires { IsCourse (record { start = start_of starts.now station; rates = rates_of rates.now station }) }
    ensures { result ≡ record { start = start_of starts.now station; rates = rates_of rates.now station } }
{
    let kept = rates_of(rates, station);
    match Clock::new(start_of(starts, station), &kept) {
        Some(clock) => clock,
        None => unreachable!(),
    }
}

// The ticks of a station's start, 0 where none is told.
fn start_of(starts: &[Start], station: Station) -> u64
    ensures { result ≡ start_of starts.now station }
{
    match starts.iter().find(|start| start.station == station) {
        Some(start) => start.ticks,
        None => 0,
    }
}

// The rates of a station, in their order.
fn rates_of(rates: &[Rating], station: Station) -> ArrayVec<RateFrom, 16>
    requires { length (rates_of rates.now station) ≤ 16 }
    ensures { result.items ≡ rates_of rates.now station }
{
    let mut kept = ArrayVec::new();
    for rating in rates {
        if rating.station == station {
            kept.push(rating.rate);
        }
    }
    kept
}
