//! What every rule over the sets of a line has in common: its window, its region, the counter of consecutive sets outside, and the
//! verdict by it.

ghost use Rattle.std.specs.Prelude.{◌≡◌, ◌<◌, ◌≤◌, ◌+◌, ◌++◌, [], ◌∷◌, List};
ghost use Rattle.ld_base.specs.declared.phases.SampleSet.{SampleSet};
ghost use Rattle.phasor.specs.Window as window;
ghost use Rattle.trip_logic.specs.Counting.{run_after, verdict_of};
ghost use Rattle.trip_logic.specs.TripAt.{sector_of};

use crate::Verdict;
use alpha_plane::Region;
use ld_base::{SampleSet, Settings};
use phasor::{Steps, Window};
use std::marker::Brand;
use std::sync::ledger::{Blank, Ledger};

/// The restraint region of the settings.
pub fn region_of(s: &Settings) -> Region
    ensures { result ≡ sector_of s.now }
{
    let fields = s.fields();
    let Ok(region) = Region::new(fields.rn, fields.rd, fields.p, fields.q) else {
        unreachable!()
    };
    region
}

/// Pushes a set into the window of a rule that doesn't count the products.
pub fn push_uncounted(kept: &mut Window, set: &SampleSet)
    requires { kept.old.next ≤ set.now.number }
    ensures cycle { kept.new.cycle ≡ kept.old.cycle }
    ensures next { kept.new.next ≡ set.now.number + 1 }
    ensures stands { (judged : List SampleSet) → window.StandsFor kept.old judged
        → window.StandsFor kept.new (judged ++ set.now ∷ []) }
{
    push_in::<Brand>(kept, set, Blank::new(1));
}

// The same, with the products in a ledger that nobody reads.
fn push_in<L: Ledger>(kept: &mut Window, set: &SampleSet, blank: Blank)
    requires later { kept.old.next ≤ set.now.number }
    requires name { blank.name ≡ L.name }
    requires parts { blank.parts ≡ L.parts }
    requires some { 0 < blank.parts }
    ensures cycle { kept.new.cycle ≡ kept.old.cycle }
    ensures next { kept.new.next ≡ set.now.number + 1 }
    ensures stands { (judged : List SampleSet) → window.StandsFor kept.old judged
        → window.StandsFor kept.new (judged ++ set.now ∷ []) }
{
    kept.push(set.number, &set.values, &mut Steps::<L>::new(blank));
}

/// How many consecutive sets were outside after one more, where `run` were before it. It isn't counted beyond `count`.
pub fn run_after(run: u8, outside: bool, count: u8) -> u8
    ensures { result ≡ run_after run outside count }
{
    if outside {
        count.min(run.saturating_add(1))
    } else {
        0
    }
}

/// The verdict where the last `run` sets were outside, and a trip needs `count`.
pub fn verdict_of(run: u8, count: u8) -> Verdict
    ensures { result ≡ verdict_of run count }
{
    if run == count {
        Verdict::Trip
    } else if run > 0 {
        Verdict::Outside
    } else {
        Verdict::Restrain
    }
}
