//! The sequence element of a line: the rule of the phases over its two sequences.

ghost use Rattle.std.specs.Prelude.{◌≡◌, ℕ, ◌<◌, ◌≤◌, ◌+◌, ◌++◌, [], ◌∷◌, List, false, if◌then◌else◌, is_none, option_map, slice_index, slice_index_or, unwrap_or};
ghost use Rattle.std.specs.Option.{ForSome};
ghost use Rattle.ld_base.specs.Settings.{AreInRange};
ghost use Rattle.ld_base.specs.declared.phases.SampleSet.{SampleSet};
ghost use Rattle.alpha_plane.specs.Outside.{pickup_limit};
ghost use Rattle.phasor.specs.Sizes.{AreWithin, sum_bits};
ghost use Rattle.trip_logic.specs.Counting.{run_after, verdict_of};
ghost use Rattle.trip_logic.specs.TripAt.{sector_of};
ghost use Rattle.trip_logic.specs.declared.verdict.Verdict.TheVariants as verdict;
ghost use Rattle.sequence_element.specs.Progress.{StandsFor};
ghost use Rattle.sequence_element.specs.SequenceOut.{is_negative_outside, is_zero_outside, verdicts};

use crate::sequences::{negative_of, zero_of};
use alpha_plane::{Current, Region};
use ld_base::{Fields, SampleSet, Settings};
use phasor::{Phasor, Window};
use std::marker::Model;
use trip_logic::{Verdict, push_uncounted, region_of, run_after, verdict_of};

// The scale of the phasor tables, and that of negative sequences beside it.
const PHASOR_SCALE: u64 = 16_384;

const NEGATIVE_SCALE: u64 = 1024;

/// The sequence element of a line, with what it keeps of the sets judged so far. It trips on the zero or the negative sequence
/// as a phase trips on its sums: by the same region and count, with a pickup for each.
#[derive(Drop)]
pub struct Sequence {
    settings: Settings,
    region: Region,
    zero_pickup: u16,
    negative_pickup: u16,
    window: Window,
    runs: [u8; 2],
}

impl Model for Sequence {
    ghost use Rattle.std.specs.Prelude.{◌≡◌};
    ghost use Rattle.sequence_element.specs.Progress.{Progress};

    ghost Value = { Progress };

    ghost use Rattle.trip_logic.specs.TripAt.{sector_of};

    ghost view = { λ s. record { settings = s.settings; zero_pickup = s.zero_pickup; negative_pickup = s.negative_pickup; window = s.window; runs = s.runs } };

    ghost invariant = { λ s. (s.region ≡ sector_of s.settings) × (s.window.cycle ≡ s.settings.cycle) };
}

impl Sequence {
    /// The sequence element of these settings, before the first set. The pickups of the zero and of the negative sequence are in
    /// counts of the converter, of three times the sequence: of the phases added up as they are or turned.
    pub fn new(s: &Settings, zero: u16, negative: u16) -> Sequence
        requires zero { (1 ≤ zero) × (zero ≤ 32767) }
        requires negative { (1 ≤ negative) × (negative ≤ 32767) }
        ensures settings { result.settings ≡ s.now }
        ensures pickups { (result.zero_pickup ≡ zero) × (result.negative_pickup ≡ negative) }
        ensures next { result.window.next ≡ 0 }
        ensures stands { StandsFor result [] }
    {
        let settings = *s;
        Sequence {
            settings,
            region: region_of(s),
            zero_pickup: zero,
            negative_pickup: negative,
            window: Window::new(settings.fields().cycle),
            runs: [0; 2],
        }
    }

    /// Judges the next set: the verdicts of the zero and of the negative sequence.
    pub fn judge(&mut self, set: &SampleSet) -> [Verdict; 2]
        requires { self.old.window.next ≤ set.now.number }
        ensures settings { self.new.settings ≡ self.old.settings }
        ensures pickups { (self.new.zero_pickup ≡ self.old.zero_pickup) × (self.new.negative_pickup ≡ self.old.negative_pickup) }
        ensures next { self.new.window.next ≡ set.now.number + 1 }
        ensures verdicts { (judged : List SampleSet) → StandsFor self.old judged
            → result ≡ verdicts self.old.settings self.old.zero_pickup self.old.negative_pickup (judged ++ set.now ∷ []) set.now.number }
        ensures stands { (judged : List SampleSet) → StandsFor self.old judged
            → StandsFor self.new (judged ++ set.now ∷ []) }
        ensures earlier { (judged : List SampleSet) (n : ℕ) → n < set.now.number
            → verdicts self.old.settings self.old.zero_pickup self.old.negative_pickup (judged ++ set.now ∷ []) n
            ≡ verdicts self.old.settings self.old.zero_pickup self.old.negative_pickup judged n }
    {
        push_uncounted(&mut self.window, set);
        let fields = self.settings.fields();
        let sums = self.window.sums();
        let outside = sequences_outside(
            &fields,
            &self.region,
            self.zero_pickup,
            self.negative_pickup,
            sums,
        );
        self.runs = runs_after(self.runs, outside, fields.count);
        verdicts_of(self.runs, outside, fields.count)
    }
}

// Whether the zero and the negative sequence lie outside. None where there are no sums.
fn sequences_outside(
    fields: &Fields,
    region: &Region,
    zero: u16,
    negative: u16,
    sums: Option<[[Phasor; 3]; 3]>,
) -> Option<[bool; 2]>
    requires region { region.now ≡ sector_of fields.now }
    requires in_range { AreInRange fields.now }
    requires size { ForSome sums (AreWithin sum_bits) }
    ensures { result ≡ option_map (λ sums. is_zero_outside fields.now zero sums ∷ is_negative_outside fields.now negative sums ∷ []) sums }
{
    let sums = sums?;
    Some([
        is_zero_outside(fields, region, &sums, zero),
        is_negative_outside(fields, region, &sums, negative),
    ])
}

// Whether the zero sequences of the stations lie outside.
fn is_zero_outside(fields: &Fields, region: &Region, sums: &[[Phasor; 3]; 3], pickup: u16) -> bool
    requires region { region.now ≡ sector_of fields.now }
    requires in_range { AreInRange fields.now }
    requires size { AreWithin sum_bits sums.now }
    ensures { result ≡ is_zero_outside fields.now pickup sums.now }
{
    let currents = [
        Current::from(zero_of(&sums[0])),
        Current::from(zero_of(&sums[1])),
        Current::from(zero_of(&sums[2])),
    ];
    let stations = usize::from(fields.stations);
    region.outside_beyond(&currents[..stations], limit_of(pickup, fields.cycle))
}

// Whether the negative sequences of the stations lie outside.
fn is_negative_outside(
    fields: &Fields,
    region: &Region,
    sums: &[[Phasor; 3]; 3],
    pickup: u16,
) -> bool
    requires region { region.now ≡ sector_of fields.now }
    requires in_range { AreInRange fields.now }
    requires size { AreWithin sum_bits sums.now }
    ensures { result ≡ is_negative_outside fields.now pickup sums.now }
{
    let currents = [
        Current::from(negative_of(&sums[0])),
        Current::from(negative_of(&sums[1])),
        Current::from(negative_of(&sums[2])),
    ];
    let stations = usize::from(fields.stations);
    let limit = limit_of(pickup, fields.cycle) * NEGATIVE_SCALE;
    region.outside_beyond(&currents[..stations], limit)
}

// The limit of a pickup in the scale of phasors.
fn limit_of(pickup: u16, cycle: u8) -> u64
    ensures { result ≡ pickup_limit pickup cycle }
{
    u64::from(pickup) * u64::from(cycle) * PHASOR_SCALE
}

// How many consecutive sets were outside, up to `count`, after one more.
fn runs_after(runs: [u8; 2], outside: Option<[bool; 2]>, count: u8) -> [u8; 2]
    ensures { result ≡
        run_after (slice_index runs 0) (unwrap_or (option_map (λ flags. slice_index_or flags 0 false) outside) false) count ∷
        run_after (slice_index runs 1) (unwrap_or (option_map (λ flags. slice_index_or flags 1 false) outside) false) count ∷ [] }
{
    match outside {
        None => [0; 2],
        Some(outside) => [
            run_after(runs[0], outside[0], count),
            run_after(runs[1], outside[1], count),
        ],
    }
}

// The verdicts after these runs of consecutive sets outside.
fn verdicts_of(runs: [u8; 2], outside: Option<[bool; 2]>, count: u8) -> [Verdict; 2]
    ensures { result ≡
        (if is_none outside then verdict.Waiting else verdict_of (slice_index runs 0) count) ∷
        (if is_none outside then verdict.Waiting else verdict_of (slice_index runs 1) count) ∷ [] }
{
    match outside {
        None => [Verdict::Waiting; 2],
        Some(_) => [verdict_of(runs[0], count), verdict_of(runs[1], count)],
    }
}

#[cfg(test)]
mod tests;
