//! The laws of the choice among exchanges, each the contract of a function that does nothing.

ghost use Rattle.std.specs.Prelude.{◌≡◌, ℕ, List, map, option_map};
ghost use Rattle.offset_track.specs.InForce.{InForce};
ghost use Rattle.pingpong.specs.Exchange.{Stamps};

/// What is chosen among elements that know more than their stamps is chosen among the stamps alone.
pub fn a_choice_goes_by_the_stamps<A, B>()
    ensures { (f : A → B) (stamps : B → Stamps) (slow age now : ℕ) (offered : List A)
        → option_map f (InForce (λ x. stamps (f x)) slow age now offered) ≡ InForce stamps slow age now (map f offered) }
{}
