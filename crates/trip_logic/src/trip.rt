ghost use Rattle.std.specs.Prelude.{◌≡◌, ℕ, ◌<◌, ◌≤◌, ◌+◌, ◌++◌, [], ◌∷◌, List, IfOk, false, if◌then◌else◌, is_none, option_copied, option_map, slice_index, slice_index_or, unwrap_or};
ghost use Rattle.std.specs.Option.{ForSome};
ghost use Rattle.ld_base.specs.Settings.{AreInRange};
ghost use Rattle.ld_base.specs.declared.phases.SampleSet.{SampleSet};
ghost use Rattle.phasor.specs.Sizes.{AreWithin, sum_bits};
ghost use Rattle.phasor.specs.Sum.{of_three};
ghost use Rattle.trip_logic.specs.Cause.{cause};
ghost use Rattle.trip_logic.specs.Counting.{run_after, verdict_of};
ghost use Rattle.trip_logic.specs.Progress.{StandsFor};
ghost use Rattle.trip_logic.specs.declared.verdict.Verdict.TheVariants as verdict;
ghost use Rattle.trip_logic.specs.TripAt.{is_outside, sector_of, verdicts};

use crate::{Verdict, push_uncounted, region_of, run_after, verdict_of};
use alpha_plane::Region;
use circular_buffer::HeapCircularBuffer;
use ld_base::{Fields, NoMemory, SampleSet, Settings};
use phasor::{Phasor, Window};
use std::alloc::Global;
use std::marker::Model;

/// The trip rule of a line, with what it keeps of the sets judged so far.
#[derive(Drop)]
pub struct Trip {
    settings: Settings,
    region: Region,
    window: Window,
    runs: [u8; 3],
    recent: HeapCircularBuffer<SampleSet>,
}

impl Model for Trip {
    ghost use Rattle.std.specs.Prelude.{◌≡◌};
    ghost use Rattle.trip_logic.specs.Progress.{Progress, most_recent};

    ghost Value = { Progress };

    ghost use Rattle.trip_logic.specs.TripAt.{sector_of};

    ghost view = { λ t. record { settings = t.settings; window = t.window; runs = t.runs; recent = t.recent.items } };

    ghost invariant = { λ t. (t.region ≡ sector_of t.settings) × (t.window.cycle ≡ t.settings.cycle)
        × (t.recent.capacity ≡ most_recent t.settings) };
}

impl Trip {
    /// The trip rule of these settings, before the first set. It keeps room for the sets of `cause`.
    pub fn new(alloc: Global, s: &Settings) -> Result<Trip, NoMemory>
        ensures settings { IfOk result (λ t. t.settings ≡ s.now) }
        ensures next { IfOk result (λ t. t.window.next ≡ 0) }
        ensures stands { IfOk result (λ t. StandsFor t []) }
    {
        let settings = *s;
        let fields = settings.fields();
        let most = usize::from(fields.cycle) + usize::from(fields.count);
        Ok(Trip {
            settings,
            region: region_of(s),
            window: Window::new(fields.cycle),
            runs: [0; 3],
            recent: HeapCircularBuffer::with_capacity(alloc, most)?,
        })
    }

    /// Judges the next set: the verdicts of the phases a, b and c.
    pub fn judge(&mut self, set: &SampleSet) -> [Verdict; 3]
        requires { self.old.window.next ≤ set.now.number }
        ensures settings { self.new.settings ≡ self.old.settings }
        ensures next { self.new.window.next ≡ set.now.number + 1 }
        ensures verdicts { (judged : List SampleSet) → StandsFor self.old judged
            → result ≡ verdicts self.old.settings (judged ++ set.now ∷ []) set.now.number }
        ensures stands { (judged : List SampleSet) → StandsFor self.old judged
            → StandsFor self.new (judged ++ set.now ∷ []) }
        ensures earlier { (judged : List SampleSet) (n : ℕ) → n < set.now.number
            → verdicts self.old.settings (judged ++ set.now ∷ []) n ≡ verdicts self.old.settings judged n }
    {
        push_uncounted(&mut self.window, set);
        self.recent.push_back(*set);
        let fields = self.settings.fields();
        let outside = phases_outside(&fields, &self.region, self.window.sums());
        self.runs = runs_after(&self.runs, outside, fields.count);
        verdicts_of(&self.runs, outside, fields.count)
    }

    /// The set that was judged `back` sets ago, 0 the last one, so that a trip can be traced to the sets that led to it. None
    /// exactly where `back` isn't below the lesser of the sets judged and a cycle with the count of a trip.
    pub fn cause(&self, back: usize) -> Option<&SampleSet>
        ensures { (judged : List SampleSet) → StandsFor self.now judged
            → option_copied result ≡ cause self.now.settings judged back }
    {
        self.recent.nth_back(back)
    }
}

// For each phase whether its sums lie outside. None where there are no sums.
fn phases_outside(
    fields: &Fields,
    region: &Region,
    sums: Option<[[Phasor; 3]; 3]>,
) -> Option<[bool; 3]>
    requires region { region.now ≡ sector_of fields.now }
    requires in_range { AreInRange fields.now }
    requires size { ForSome sums (AreWithin sum_bits) }
    ensures { result ≡ option_map (λ sums. of_three (λ phase. is_outside fields.now phase sums)) sums }
{
    let sums = sums?;
    Some([
        is_outside(fields, region, &sums, 0),
        is_outside(fields, region, &sums, 1),
        is_outside(fields, region, &sums, 2),
    ])
}

// Whether a phase's sums lie outside.
fn is_outside(fields: &Fields, region: &Region, sums: &[[Phasor; 3]; 3], phase: usize) -> bool
    requires region { region.now ≡ sector_of fields.now }
    requires in_range { AreInRange fields.now }
    requires size { AreWithin sum_bits sums.now }
    requires phase { phase < 3 }
    ensures { result ≡ is_outside fields.now phase sums.now }
{
    let column = [sums[0][phase], sums[1][phase], sums[2][phase]];
    let stations = usize::from(fields.stations);
    region.outside_all(&column[..stations], fields.pickup, fields.cycle)
}

// How many consecutive sets were outside, up to `count`, after one more.
fn runs_after(runs: &[u8; 3], outside: Option<[bool; 3]>, count: u8) -> [u8; 3]
    ensures { result ≡ of_three (λ phase. run_after (slice_index runs.now phase)
        (unwrap_or (option_map (λ flags. slice_index_or flags phase false) outside) false) count) }
{
    match outside {
        None => [0; 3],
        Some(outside) => [
            run_after(runs[0], outside[0], count),
            run_after(runs[1], outside[1], count),
            run_after(runs[2], outside[2], count),
        ],
    }
}

// The verdicts after these runs of consecutive sets outside.
fn verdicts_of(runs: &[u8; 3], outside: Option<[bool; 3]>, count: u8) -> [Verdict; 3]
    ensures { result ≡ of_three (λ phase. if is_none outside then verdict.Waiting else verdict_of (slice_index runs.now phase) count) }
{
    match outside {
        None => [Verdict::Waiting; 3],
        Some(_) => [
            verdict_of(runs[0], count),
            verdict_of(runs[1], count),
            verdict_of(runs[2], count),
        ],
    }
}

#[cfg(test)]
mod tests;
