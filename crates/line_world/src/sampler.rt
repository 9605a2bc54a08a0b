//! When a station takes its samples.

ghost use Rattle.std.specs.Prelude.{ℕ, ◌<◌, ◌≤◌, All, suc, slice_index, unsigned_abs};
ghost use Rattle.pingpong.specs.Clock.{phase as clock_phase};
ghost use Rattle.line_world.specs.Tick.{IsNextSample};

use ld_base::Station;
use line_journal::station;
use pingpong::Clock;
use pingpong::laws::a_clock_keeps_its_drift;
use waveform_reader::Scenario;

/// Millionths of a tick.
const MILLION: u64 = 1_000_000;

/// The most that a clock gains or loses in a tick, in millionths of a tick.
const MOST_DRIFT: u64 = 200;

/// The least tick from this one on at which a station takes a sample.
pub(crate) fn next_sample(scenario: &Scenario, station: Station, from: u64) -> u64
    requires { (1 ≤ from) × (from ≤ 20000001) }
    ensures next { IsNextSample scenario.now station from result }
    ensures soon { result ≤ 20020000 }
{
    a_clock_keeps_its_drift();
    let spacing = MILLION * u64::from(scenario.settings().fields().spacing);
    let clock = scenario.clock(station);
    let phase = clock.phase(from - 1);
    let left = spacing - phase % spacing;
    let earliest = from - 1 + (left - 1) / (MILLION + MOST_DRIFT);
    let latest = from - 1 + left.div_ceil(MILLION - MOST_DRIFT);
    first_from(clock, phase + left, earliest, latest)
}

// The least tick at which a clock's phase is at least that, of which one tick is too early and another is late enough.
fn first_from(clock: &Clock, phase: u64, mut early: u64, mut late: u64) -> u64
    requires early { clock_phase clock.now early < phase }
    requires late { phase ≤ clock_phase clock.now late }
    requires small { late ≤ 60000000 }
    ensures reached { phase ≤ clock_phase clock.now result }
    ensures least { (t : ℕ) → phase ≤ clock_phase clock.now t → result ≤ t }
    ensures soon { result ≤ late }
{
    while late - early > 1 {
        let middle = early + (late - early) / 2;
        if clock.phase(middle) < phase {
            early = middle;
        } else {
            late = middle;
        }
    }
    late
}

/// The ticks of the first samples of the three stations.
pub(crate) fn first_samples(scenario: &Scenario) -> [u64; 3]
    ensures { (k : ℕ) → k < 3 → IsNextSample scenario.now (suc k) 0 (slice_index result k) }
{
    [
        next_sample(scenario, station(1), 1),
        next_sample(scenario, station(2), 1),
        next_sample(scenario, station(3), 1),
    ]
}
