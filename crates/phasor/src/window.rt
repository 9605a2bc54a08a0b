ghost use Rattle.std.specs.Prelude.{◌≡◌, ℕ, ◌+◌, ◌≤◌, ◌++◌, [], ◌∷◌, List, true, IfSome};
ghost use Rattle.ld_base.specs.Settings.{is_cycle};
ghost use Rattle.ld_base.specs.declared.phases.SampleSet.{SampleSet};
ghost use Rattle.phasor.specs.Sizes.{AreWithin, sum_bits};
ghost use Rattle.phasor.specs.Sum.{sums_before};
ghost use Rattle.phasor.specs.Window.{StandsFor};

use crate::changes::{changed, no_sums};
use crate::factors::factor;
use crate::ring::Ring;
use crate::{Phasor, Steps};
use ld_base::{Phases, SampleSet};
use std::marker::Model;
use std::sync::ledger::Ledger;

/// The last sets without a gap between their numbers, up to a full cycle, and their sums.
#[derive(Drop)]
pub struct Window {
    ring: Ring,
    sums: [[Phasor; 3]; 3],
}

impl Model for Window {
    ghost use Rattle.std.specs.Prelude.{◌≡◌, ◌≤◌, length, true};
    ghost use Rattle.std.specs.List.{All};
    ghost use Rattle.ld_base.specs.Settings.{is_cycle};
    ghost use Rattle.phasor.specs.Sizes.{IsOfSamples};
    ghost use Rattle.phasor.specs.Sum.{sums_of};
    ghost use Rattle.phasor.specs.Window.{Kept};

    ghost Value = { Kept };

    ghost view = { λ w. w.ring };

    ghost invariant = { λ w. (is_cycle w.ring.cycle ≡ true) × (length w.ring.sets ≤ w.ring.cycle)
        × (All IsOfSamples w.ring.sets) × (w.sums ≡ sums_of w.ring.cycle w.ring.sets) };
}

impl Window {
    /// An empty window of that many samples a cycle.
    pub fn new(cycle: u8) -> Window
        requires { is_cycle cycle ≡ true }
        ensures cycle { result.cycle ≡ cycle }
        ensures next { result.next ≡ 0 }
        ensures stands { StandsFor result [] }
    {
        Window {
            ring: Ring::new(cycle),
            sums: no_sums(),
        }
    }

    /// Takes the set of that number. A number that doesn't follow the last one pushed starts the window anew. At most 36
    /// products are computed, which the counter counts.
    pub fn push<L: Ledger>(&mut self, number: u32, values: &[Phases; 3], steps: &mut Steps<L>)
        requires { self.old.next ≤ number }
        ensures cycle { self.new.cycle ≡ self.old.cycle }
        ensures next { self.new.next ≡ number + 1 }
        ensures stands { (pushed : List SampleSet) → StandsFor self.old pushed
            → StandsFor self.new (pushed ++ record { number = number; values = values.now } ∷ []) }
        ensures earlier { (pushed : List SampleSet) (stop : ℕ) → stop ≤ number
            → sums_before self.old.cycle (pushed ++ record { number = number; values = values.now } ∷ []) stop
            ≡ sums_before self.old.cycle pushed stop }
        ensures products { steps.new ≤ steps.old + 36 }
    {
        self.go_on_at(number);
        let oldest = self.ring.push(number, values);
        let factor = factor(self.ring.cycle(), number);
        self.sums = changed(&self.sums, values, &oldest, factor, steps);
    }

    // Starts anew where the number doesn't follow the last one pushed.
    fn go_on_at(&mut self, number: u32)
        requires { self.old.next ≤ number }
        ensures cycle { self.new.cycle ≡ self.old.cycle }
        ensures next { self.new.next ≡ number }
        ensures stands { (pushed : List SampleSet) → StandsFor self.old pushed → StandsFor self.new pushed }
    {
        if u64::from(number) != self.ring.next() {
            self.ring.restart(number);
            self.sums = no_sums();
        }
    }

    /// The sums of the last cycle, by station and then by phase. None exactly where fewer consecutive sets were pushed.
    pub fn sums(&self) -> Option<[[Phasor; 3]; 3]>
        ensures sums { (pushed : List SampleSet) → StandsFor self.now pushed
            → result ≡ sums_before self.now.cycle pushed self.now.next }
        ensures size { IfSome result (λ sums. AreWithin sum_bits sums) }
    {
        if self.ring.is_full() {
            Some(self.sums)
        } else {
            None
        }
    }
}

#[cfg(test)]
mod tests;
