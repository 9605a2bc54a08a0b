//! The kept sets, each at its place in the cycle.

ghost use Rattle.std.specs.Prelude.{◌≡◌, ◌%◌, ◌≤◌, ◌==◌, [], length, true};
ghost use Rattle.ld_base.specs.Settings.{is_cycle};
ghost use Rattle.phasor.specs.Ring.{quiet, Leaves, IsPushed};

use ld_base::Phases;
use std::marker::Model;

/// The last sets without a gap between their numbers, up to a full cycle, each at the place of its number in the cycle.
#[derive(Drop)]
pub(crate) struct Ring {
    cycle: u8,
    next: u64,
    held: u8,
    places: [[Phases; 3]; 20],
}

impl Model for Ring {
    ghost use Rattle.std.specs.Prelude.{◌≡◌, ◌≤◌, true};
    ghost use Rattle.ld_base.specs.Settings.{is_cycle};
    ghost use Rattle.phasor.specs.Ring.{sets_below};
    ghost use Rattle.phasor.specs.Window.{Kept};

    ghost Value = { Kept };

    ghost view = { λ r. record { cycle = r.cycle; next = r.next; sets = sets_below r.cycle r.places r.held r.next } };

    ghost invariant = { λ r. (is_cycle r.cycle ≡ true) × (r.held ≤ r.cycle) × (r.held ≤ r.next) };
}

impl Ring {
    /// An empty ring of that many places.
    pub(crate) fn new(cycle: u8) -> Ring
        requires { is_cycle cycle ≡ true }
        ensures { result ≡ record { cycle = cycle; next = 0; sets = [] } }
    {
        Ring {
            cycle,
            next: 0,
            held: 0,
            places: [[Phases::default(); 3]; 20],
        }
    }

    /// The samples of a cycle.
    pub(crate) fn cycle(&self) -> u8
        ensures { result ≡ self.now.cycle }
    {
        self.cycle
    }

    /// The number that would follow the last one pushed.
    pub(crate) fn next(&self) -> u64
        ensures { result ≡ self.now.next }
    {
        self.next
    }

    /// Whether a full cycle is kept.
    pub(crate) fn is_full(&self) -> bool
        ensures full { result ≡ (length self.now.sets == self.now.cycle) }
        ensures few { length self.now.sets ≤ self.now.cycle }
    {
        self.held == self.cycle
    }

    /// Lets all sets go, and goes on at that number.
    pub(crate) fn restart(&mut self, number: u32)
        ensures { self.new ≡ record { cycle = self.old.cycle; next = number; sets = [] } }
    {
        self.held = 0;
        self.next = u64::from(number);
    }

    // The values that leave with the next set: the oldest ones where a full cycle is kept, and else none.
    fn leaving(&self, place: usize) -> [Phases; 3]
        requires place { place ≡ self.now.next % self.now.cycle }
        ensures { Leaves self.now result }
    {
        if self.held == self.cycle {
            self.places[place]
        } else {
            [Phases::default(); 3]
        }
    }

    /// Takes the values of the next number, and gives those that leave for them: zeros while a cycle isn't full.
    pub(crate) fn push(&mut self, number: u32, values: &[Phases; 3]) -> [Phases; 3]
        requires { number ≡ self.old.next }
        ensures { IsPushed self.old self.new (record { number = number; values = values.now }) result }
    {
        let place = number as usize % usize::from(self.cycle);
        let leaving = self.leaving(place);
        self.places[place] = *values;
        self.held = self.cycle.min(self.held + 1);
        self.next = u64::from(number) + 1;
        leaving
    }
}
