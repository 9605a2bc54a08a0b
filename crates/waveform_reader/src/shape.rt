ghost use Rattle.std.specs.Prelude.{◌≡◌, ◌≤◌, ◌≤ℤ◌, pos};
ghost use Rattle.waveform_reader.specs.Shapes.{twentieths_at, value_of, wave_value};
ghost use Rattle.waveform_reader.specs.Sound.{IsShape};

use ld_base::{Phases, Settings, Station};
use phasor::factor;

/// The places of a wave in its cycle.
const PLACES: u8 = 20;

/// What the cosine of no turn is rounded to.
const SCALE: i64 = 16384;

/// How the currents of a station go, in counts of the converter. (This project's own.)
#[derive(Clone, Copy, Debug, PartialEq, Eq, Hash)]
pub enum Shape {
    /// These values at every tick.
    Hold(Phases),
    /// At tick t `amp * C[k] / 16384` in each phase, rounded toward zero. `C` is 16384 times the cosine at twentieths of a cycle,
    /// as phasors take it, and `k` is `step` and the twentieths of cycles that have gone by since tick 0.
    Wave {
        /// The amplitudes of phases a, b and c: 0 to 32767 counts of the converter.
        amp: [i16; 3],
        /// How far ahead the phases are, in twentieths of a cycle: 0 to 19.
        step: [u8; 3],
    },
}

/// The shape of a station's currents from a true tick on.
#[derive(Clone, Copy, Debug, PartialEq, Eq, Hash)]
pub struct ShapeFrom {
    pub station: Station,
    /// The first true tick at which it counts: 0 to 20,000,000. It counts until a later one of the station begins; of two that begin
    /// at one tick the later one in the file counts.
    pub from: u64,
    pub shape: Shape,
}

impl Shape {
    /// What it gives at a true tick, in counts of the converter.
    pub(crate) fn value(&self, settings: &Settings, t: u64) -> Phases
        requires shape { IsShape self.now }
        requires time { t ≤ 60000000 }
        ensures { result ≡ value_of settings.now t self.now }
    {
        match self {
            Shape::Hold(values) => *values,
            Shape::Wave { amp, step } => {
                let twentieths = twentieths_at(settings, t);
                Phases {
                    a: wave_value(twentieths, amp[0], step[0]),
                    b: wave_value(twentieths, amp[1], step[1]),
                    c: wave_value(twentieths, amp[2], step[2]),
                }
            }
        }
    }
}

// The twentieths of cycles that have gone by since tick 0.
fn twentieths_at(settings: &Settings, t: u64) -> u32
    requires { t ≤ 60000000 }
    ensures value { result ≡ twentieths_at settings.now t }
    ensures size { result ≤ 1200000000 }
{
    let fields = settings.fields();
    let cycle = u64::from(fields.spacing) * u64::from(fields.cycle);
    (u64::from(PLACES) * t / cycle) as u32
}

// A phase of a wave, rounded toward zero.
fn wave_value(twentieths: u32, amplitude: i16, step: u8) -> i16
    requires amplitude { pos 0 ≤ℤ amplitude }
    requires time { twentieths ≤ 1200000000 }
    ensures { result ≡ wave_value twentieths amplitude step }
{
    let cosine = factor(PLACES, twentieths + u32::from(step)).re;
    (i64::from(amplitude) * cosine / SCALE) as i16
}
