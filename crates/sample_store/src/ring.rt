ghost use Rattle.std.specs.Prelude.{◌≡◌, ℕ, None};

use ld_base::Phases;

/// A station's values under the number of a sample.
#[derive(Clone, Copy, Debug, PartialEq, Eq, Default)]
pub struct Numbered {
    pub number: u32,
    pub values: Phases,
}

/// The numbers that a ring has places for.
pub(crate) const PLACES: usize = 64;

/// Values of one station, each in the place of its number modulo 64.
#[derive(Clone, Copy)]
pub(crate) struct Ring {
    places: [Option<Numbered>; 64],
}

impl Ring {
    ghost use Rattle.sample_store.specs.Stock.{Puts, held_at};

    /// A ring without values.
    pub(crate) fn new() -> Ring
        ensures { (n : ℕ) → held_at result n ≡ None }
    {
        Ring { places: [None; 64] }
    }

    /// The values under a number.
    pub(crate) fn held(&self, number: u32) -> Option<Phases>
        ensures { result ≡ held_at self.now number }
    {
        let place = self.places[number as usize % PLACES]?;
        if place.number == number {
            Some(place.values)
        } else {
            None
        }
    }

    /// Puts values under a number, in place of what stands there.
    pub(crate) fn put(&mut self, number: u32, values: Phases)
        ensures { Puts self.old self.new number values }
    {
        self.places[number as usize % PLACES] = Some(Numbered { number, values });
    }
}
