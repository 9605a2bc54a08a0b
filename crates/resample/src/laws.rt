//! The laws of mixing, each the contract of a function that does nothing.

ghost use Rattle.std.specs.Prelude.{◌≡◌, ℕ, ◌*◌, ◌<◌, ◌≤◌, ℤ, pos, ◌+ℤ◌, ◌-ℤ◌, List, Some, None};
ghost use Rattle.std.specs.List.{last_or};
ghost use Rattle.std.specs.Option.{ForSome};
ghost use Rattle.ld_base.specs.declared.fields.Fields.{Fields};
ghost use Rattle.pingpong.specs.Bounded.{Passage, asymmetry, stamps};
ghost use Rattle.pingpong.specs.Exchange.{estimate2};
ghost use Rattle.pingpong.specs.Reading.{Reading};
ghost use Rattle.resample.specs.Between.{IsBetween, own_number, weight};
ghost use Rattle.resample.specs.Instants.{AreMixed, age_of_mixed, mixed_bound, mixed_error};
ghost use Rattle.resample.specs.Mixed.{Heard, MixedOf};
ghost use Rattle.resample.specs.Quotient.{IsRoundedDown};
ghost use Rattle.resample.specs.Values.{LieBetween, LiesBetween, mixed_value, weighed};
ghost use Rattle.resample.specs.declared.mixed.Mixed.{Mixed};

/// The own number is the one whole number n with `2*first*T - e <= 2*n*T < 2*(first + 1)*T - e`: it is one, and no other is.
pub fn the_own_number_is_the_one()
    ensures is { (spacing first : ℕ) (e : ℤ) → 0 < spacing → IsBetween spacing first e (own_number spacing first e) }
    ensures alone { (spacing first : ℕ) (e n : ℤ) → 0 < spacing → IsBetween spacing first e n → n ≡ own_number spacing first e }
{}

/// The weight of an own number is `2*n*T - 2*first*T + e`, which is never negative and less than twice the spacing.
pub fn the_weight_is_the_distance()
    ensures is { (spacing first : ℕ) (e : ℤ) (n : ℕ) → IsBetween spacing first e (pos n)
        → pos (weight spacing first e n) ≡ (pos (2 * n * spacing) -ℤ pos (2 * first * spacing)) +ℤ e }
    ensures size { (spacing first : ℕ) (e : ℤ) (n : ℕ) → IsBetween spacing first e (pos n) → weight spacing first e n < 2 * spacing }
{}

/// A mixed value is the greatest whole number that isn't above the weighed sum by twice the spacing, whatever its sign. It lies
/// between the two values, its ends included, and is the first where the weight is 0.
pub fn a_mixed_value_lies_between()
    ensures rounded { (spacing w : ℕ) (x y : ℤ) → 0 < spacing → IsRoundedDown (weighed spacing w x y) (2 * spacing) (mixed_value spacing w x y) }
    ensures between { (spacing w : ℕ) (x y : ℤ) → 0 < spacing → w ≤ 2 * spacing → LiesBetween x y (mixed_value spacing w x y) }
    ensures first { (spacing : ℕ) (x y : ℤ) → 0 < spacing → mixed_value spacing 0 x y ≡ x }
{}

/// Whatever messages were heard, the values that are mixed lie between those that the last two sent, and are the first ones where
/// the weight is 0. The own number lies between theirs by the exchange that is named.
pub fn what_is_mixed_lies_between()
    ensures values { (f : Fields) (before : List Heard) (h earlier : Heard) (mixed : Mixed) → 0 < f.spacing
        → last_or None before ≡ Some earlier → MixedOf f before h ≡ Some mixed
        → LieBetween earlier.message.phases h.message.phases mixed.values }
    ensures first { (f : Fields) (before : List Heard) (h earlier : Heard) (mixed : Mixed) → 0 < f.spacing
        → last_or None before ≡ Some earlier → MixedOf f before h ≡ Some mixed → mixed.weight ≡ 0
        → mixed.values ≡ earlier.message.phases }
    ensures number { (f : Fields) (before : List Heard) (h : Heard) (mixed : Mixed) → 0 < f.spacing → MixedOf f before h ≡ Some mixed
        → IsBetween f.spacing mixed.first (estimate2 mixed.exchange) (pos mixed.own) }
{}

/// The law of mixed instants: an own sample was taken at nearly the time to which its weight puts it, between the two samples of
/// the peer. The spacing is no part of what may lie between.
pub fn mixed_instants_are_near()
    ensures { (spacing drift : ℕ) (p : Passage) (own one other : Reading) (n first now : ℕ) → AreMixed spacing drift p own one other n first now
        → mixed_error spacing (weight spacing first (estimate2 (stamps p)) n) own.time one.time other.time
        ≤ mixed_bound spacing drift (asymmetry p) (age_of_mixed p.sent.time own.time one.time now) }
{}
