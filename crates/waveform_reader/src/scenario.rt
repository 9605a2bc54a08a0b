//! A scenario: settings, clocks, waveforms and the script of the channel.

ghost use Rattle.std.specs.Prelude.{◌≡◌, ◌-◌, ◌≤◌, Some, find, option_map, reverse, slice_get};
ghost use Rattle.pingpong.specs.Clock.{Course};
ghost use Rattle.waveform_reader.specs.Scenario.{Setup};
ghost use Rattle.waveform_reader.specs.Shapes.{has_begun, value_at};
ghost use Rattle.waveform_reader.specs.Sound.{IsSetup};

use crate::shape::ShapeFrom;
use ld_base::{Phases, Rule, Settings, Station};
use pingpong::Clock;
use std::marker::Model;

/// What a run of the bench goes by. Its clocks keep within the drift of the settings. In a scenario of two stations the third has
/// no current, and a clock that starts at 0 with rate 0. (This project's own.)
#[derive(Drop)]
pub struct Scenario {
    settings: Settings,
    end: u64,
    clocks: [Clock; 3],
    shapes: Vec<ShapeFrom>,
    rules: Vec<Rule>,
}

impl Model for Scenario {
    ghost use Rattle.waveform_reader.specs.Scenario.{Setup};
    ghost use Rattle.waveform_reader.specs.Sound.{IsSetup};

    ghost Value = { Setup };

    ghost view = { λ s. record { settings = s.settings; end = s.end; clocks = s.clocks; shapes = s.shapes.items; rules = s.rules.items } };

    ghost invariant = { λ s. IsSetup (record { settings = s.settings; end = s.end; clocks = s.clocks; shapes = s.shapes.items; rules = s.rules.items }) };
}

impl Scenario {
    /// A scenario of these parts.
    pub(crate) fn new(
        settings: Settings,
        end: u64,
        clocks: [Clock; 3],
        shapes: Vec<ShapeFrom>,
        rules: Vec<Rule>,
    ) -> Scenario
        requires { IsSetup (record { settings = settings; end = end; clocks = clocks; shapes = shapes.items; rules = rules.items }) }
        ensures parts { result ≡ record { settings = settings; end = end; clocks = clocks; shapes = shapes.items; rules = rules.items } }
        ensures kept { IsSetup result }
    {
        Scenario {
            settings,
            end,
            clocks,
            shapes,
            rules,
        }
    }

    /// The settings of the line.
    pub fn settings(&self) -> &Settings
        ensures settings { result.now ≡ self.now.settings }
        ensures kept { IsSetup self.now }
    {
        &self.settings
    }

    /// The true tick at which the run ends: 1 to 20,000,000.
    pub fn end(&self) -> u64
        ensures { result ≡ self.now.end }
    {
        self.end
    }

    /// The clock of a station.
    pub fn clock(&self, station: Station) -> &Clock
        ensures clock { slice_get self.now.clocks (station - 1) ≡ Some result.now }
        ensures kept { IsSetup self.now }
    {
        &self.clocks[usize::from(station.get()) - 1]
    }

    /// The waveforms, in the order of the file. Those of one station are in the order of their first ticks.
    pub fn shapes(&self) -> &[ShapeFrom]
        ensures shapes { result.now ≡ self.now.shapes }
        ensures kept { IsSetup self.now }
    {
        &self.shapes
    }

    /// The rules of the script, in the order of the file: at most 1000. The delays of one line are in the order of their first
    /// ticks, and each has its first tick for its last.
    pub fn rules(&self) -> &[Rule]
        ensures rules { result.now ≡ self.now.rules }
        ensures kept { IsSetup self.now }
    {
        &self.rules
    }

    /// The currents of a station at a true tick of at most 60,000,000, in counts of the converter: what the last of its shapes
    /// gives that has begun by then, and zero where none has. So a station that isn't there has zero.
    pub fn value(&self, station: Station, t: u64) -> Phases
        requires { t ≤ 60000000 }
        ensures { result ≡ value_at self.now.settings self.now.shapes station t }
    {
        match last_begun(&self.shapes, station, t) {
            Some(from) => from.shape.value(&self.settings, t),
            None => Phases::default(),
        }
    }
}

// The last of a station's shapes that has begun by a tick.
fn last_begun(shapes: &[ShapeFrom], station: Station, t: u64) -> Option<&ShapeFrom>
    ensures { option_map (λ from. from.now) result ≡ find (has_begun station t) (reverse shapes.now) }
{
    shapes
        .iter()
        .rev()
        .find(|from| from.station == station && from.from <= t)
}
