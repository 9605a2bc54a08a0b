//! From samples to verdicts: aligned samples, whole sets, and the trip rule over them.

ghost use Rattle.std.specs.Prelude.{◌≡◌, ◌≤◌, ◌≢◌, ℕ, ℤ, List, [], ◌∷◌, ◌++◌, IfOk, option_copied, reverse, slice_get};
ghost use Rattle.std.specs.Option.{option_to_list};
ghost use Rattle.ld_base.specs.declared.fields.Fields.{Fields};
ghost use Rattle.sample_store.specs.Answers.{own_answer, place_answer};
ghost use Rattle.sample_store.specs.Calls.{Call, Given, question};
ghost use Rattle.sample_store.specs.JudgedSet.{JudgedSet};
ghost use Rattle.sample_store.specs.Offers.{Offer, Own, Value, Taken, next_number, numbered, own_number, place_at};
ghost use Rattle.sample_store.specs.declared.ring.Numbered.{Numbered};

use crate::Judged;
use ld_base::{NoMemory, Phases, SampleSet, Settings, Station, Ticks};
use offset_track::Fresh;
use sample_store::{OwnTaken, Placed, Store};
use std::alloc::Global;
use trip_logic::Trip;

/// Puts samples under their numbers, and judges each set that becomes whole.
#[derive(Drop)]
pub(crate) struct Decider {
    store: Store,
    trip: Trip,
    // Each set that the store gave was judged.
    ghost in_step: { trip.window.next ≡ store.given_next },
}

impl Decider {
    ghost use Rattle.relay_core.specs.Answers.{judgements, placed_of};
    ghost use Rattle.relay_core.specs.Decides.{Decides, Judges};

    /// Before the first sample of station `me`.
    pub(crate) fn new(alloc: Global, s: &Settings, me: Station) -> Result<Decider, NoMemory>
        requires { me ≤ s.now.stations }
        ensures now { IfOk result (λ d. d.store.now ≡ 0) }
        ensures decides { IfOk result (λ d. Decides s.now me d []) }
    {
        Ok(Decider {
            store: Store::new(s, me),
            trip: Trip::new(alloc, s)?,
        })
    }

    /// Takes an own sample, and judges the set that it completes.
    pub(crate) fn own(&mut self, now: Ticks, v: Phases) -> (OwnTaken, Option<Judged>)
        requires { self.old.store.now ≤ now }
        ensures settings { (self.new.store.fields ≡ self.old.store.fields) × (self.new.store.me ≡ self.old.store.me) }
        ensures now { self.new.store.now ≤ now }
        ensures taken { (f : Fields) (me : ℕ) (offers : List Offer) → Decides f me self.old offers
            → result.0 ≡ own_answer f.spacing (next_number (Taken f.spacing offers)) now }
        ensures judged { (f : Fields) (me : ℕ) (offers : List Offer) → Decides f me self.old offers
            → judgements f (JudgedSet f me) offers (Own now v ∷ []) ≡ option_to_list result.1 }
        ensures decides { (f : Fields) (me : ℕ) (offers : List Offer) → Decides f me self.old offers
            → Decides f me self.new (offers ++ Own now v ∷ []) }
    {
        let taken = self.store.own(now, v);
        let judged = self.judge(now, number_taken(taken));
        (taken, judged)
    }

    /// Places a peer's values, and judges the set that they complete.
    pub(crate) fn place(
        &mut self,
        fresh: Fresh,
        peer: Station,
        number: u32,
        v: Phases,
    ) -> (Placed, Option<Judged>)
        requires at { self.old.store.now ≤ fresh.at }
        requires in_range { peer ≤ self.old.store.fields.stations }
        requires other { peer ≢ self.old.store.me }
        ensures settings { (self.new.store.fields ≡ self.old.store.fields) × (self.new.store.me ≡ self.old.store.me) }
        ensures now { self.new.store.now ≤ fresh.at }
        ensures placed { (f : Fields) (me : ℕ) (offers : List Offer) → Decides f me self.old offers
            → result.0 ∷ [] ≡ placed_of f offers (Value fresh peer number v) }
        ensures judged { (f : Fields) (me : ℕ) (offers : List Offer) → Decides f me self.old offers
            → judgements f (JudgedSet f me) offers (Value fresh peer number v ∷ []) ≡ option_to_list result.1 }
        ensures decides { (f : Fields) (me : ℕ) (offers : List Offer) → Decides f me self.old offers
            → Decides f me self.new (offers ++ Value fresh peer number v ∷ []) }
    {
        let now = fresh.now();
        let placed = self.store.place(fresh, peer, number, v);
        let judged = self.judge(now, number_stored(placed));
        (placed, judged)
    }

    /// The last set judged.
    pub(crate) fn last(&self) -> Option<&SampleSet>
        ensures { (f : Fields) (me : ℕ) (offers : List Offer) → 1 ≤ f.count → Decides f me self.now offers
            → option_copied result ≡ slice_get (reverse (JudgedSet f me offers)) 0 }
    {
        self.trip.cause(0)
    }

    // Judges the set of the value that was put, where that made it whole.
    fn judge(&mut self, now: Ticks, put: Option<u32>) -> Option<Judged>
        requires { self.old.store.now ≤ now }
        ensures settings { (self.new.store.fields ≡ self.old.store.fields) × (self.new.store.me ≡ self.old.store.me) }
        ensures now { self.new.store.now ≡ self.old.store.now }
        ensures judged { (f : Fields) (me : ℕ) (calls : List Call) → Judges f me self.old calls
            → judgements f (Given f me) calls (question now put) ≡ option_to_list result }
        ensures judges { (f : Fields) (me : ℕ) (calls : List Call) → Judges f me self.old calls
            → Judges f me self.new (calls ++ question now put) }
    {
        let set = self.store.complete(now, put?)?;
        Some(Judged {
            number: set.number,
            verdicts: self.trip.judge(&set),
        })
    }
}

// The number under which an own sample was put, by what its store answered.
fn number_taken(taken: OwnTaken) -> Option<u32>
    ensures { (spacing now : ℕ) (before : List Numbered) → taken ≡ own_answer spacing (next_number before) now
        → result ≡ own_number spacing before now }
{
    match taken {
        OwnTaken::Took(number) => Some(number),
        OwnTaken::OffGrid | OwnTaken::Again(_) => None,
    }
}

// The number under which a peer's value was put, by what its store answered.
fn number_stored(placed: Placed) -> Option<u32>
    ensures { (spacing limit now : ℕ) (before : List Numbered) (aligned : ℤ)
        → placed ≡ place_answer spacing limit now (λ n. numbered n before) aligned
        → result ≡ place_at spacing limit now before aligned }
{
    match placed {
        Placed::Stored(number) => Some(number),
        Placed::Stale(_) | Placed::Ahead(_) | Placed::Double(_) => None,
    }
}
