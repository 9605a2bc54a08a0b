//! The laws of alignment, each the contract of a function that does nothing.

ghost use Rattle.std.specs.Prelude.{◌≡◌, ◌<◌, ℕ, ℤ, List};
ghost use Rattle.ld_base.specs.declared.fields.Fields.{Fields};
ghost use Rattle.pingpong.specs.Bounded.{Passage};
ghost use Rattle.pingpong.specs.Reading.{Reading};
ghost use Rattle.sample_store.specs.Aligned.{Aligned, IsAligned};
ghost use Rattle.sample_store.specs.Calls.{Given, as_a_terminal, offers_of};
ghost use Rattle.sample_store.specs.Instants.{AreAligned, AreNear};
ghost use Rattle.sample_store.specs.JudgedSet.{JudgedSet};
ghost use Rattle.sample_store.specs.Offers.{Offer};

/// The aligned number is the one whole number n with `-T < 2*n*T - 2*m*T + e <= T`.
pub fn the_aligned_number_is_the_one()
    ensures is { (spacing number : ℕ) (estimate2 : ℤ) → 0 < spacing → IsAligned spacing number estimate2 (Aligned spacing number estimate2) }
    ensures alone { (spacing number : ℕ) (estimate2 n : ℤ) → 0 < spacing → IsAligned spacing number estimate2 n → n ≡ Aligned spacing number estimate2 }
{}

/// The law of two instants: samples that one exchange aligns were taken at nearly one time.
pub fn aligned_samples_are_near()
    ensures { (spacing drift : ℕ) (p : Passage) (own peer : Reading) (n m now : ℕ) → AreAligned spacing drift p own peer n m now
        → AreNear spacing drift p own peer now }
{}

/// Where a store is asked for the set of each value that was put, right after it was, and at no other time, it gives exactly the
/// judged sets. Among these calls stand exactly its offers, in their order.
pub fn a_terminal_is_given_the_judged_sets()
    ensures sets { (f : Fields) (me : ℕ) (offers : List Offer) → Given f me (as_a_terminal f offers) ≡ JudgedSet f me offers }
    ensures offers { (f : Fields) (offers : List Offer) → offers_of (as_a_terminal f offers) ≡ offers }
{}
