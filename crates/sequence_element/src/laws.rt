//! The laws of the sequences and of their element, each the contract of a function that does nothing.

ghost use Rattle.std.specs.Prelude.{◌≡◌, ℕ, ◌<◌, List, [], ◌∷◌, false, pos, negsuc};
ghost use Rattle.ld_base.specs.declared.fields.Fields.{Fields};
ghost use Rattle.ld_base.specs.declared.phases.SampleSet.{SampleSet};
ghost use Rattle.phasor.specs.Point.{Point, minus, origin, plus, scaled};
ghost use Rattle.alpha_plane.specs.Product.{product};
ghost use Rattle.trip_logic.specs.Through.{IsThrough};
ghost use Rattle.trip_logic.specs.TripAt.{OutBy};
ghost use Rattle.sequence_element.specs.SequenceOut.{is_negative_outside, is_zero_outside};
ghost use Rattle.sequence_element.specs.Sequences.{backwards, forwards, negative_sequence, positive_sequence, zero_sequence};

/// Three equal phasors have no negative sequence, and as zero sequence their triple.
pub fn equal_phasors_have_no_negative_sequence()
    ensures negative { (p : Point) → negative_sequence (p ∷ p ∷ p ∷ []) ≡ origin }
    ensures zero { (p : Point) → zero_sequence (p ∷ p ∷ p ∷ []) ≡ scaled (pos 3) p }
{}

/// With b and c exchanged the negative sequence is the positive one of before, and the zero sequence stays.
pub fn exchanged_phases_turn_negative_into_positive()
    ensures negative { (a b c : Point) → negative_sequence (a ∷ c ∷ b ∷ []) ≡ positive_sequence (a ∷ b ∷ c ∷ []) }
    ensures zero { (a b c : Point) → zero_sequence (a ∷ c ∷ b ∷ []) ≡ zero_sequence (a ∷ b ∷ c ∷ []) }
{}

/// Where b is a turned forwards by a third and c is a turned backwards, as with a balanced load, there is no zero sequence: none
/// at all where they are so in whole numbers, and in general 1024 times it is what 1024 times b and 1024 times c differ from a
/// as it is turned. The negative sequence isn't quite none even then, since the turn itself is rounded: it is -674 where a is
/// 1024 * 1024, in its scale.
pub fn rotated_phasors_have_no_zero_sequence()
    ensures none { (p : Point) → zero_sequence (scaled (pos 1024) p ∷ product forwards p ∷ product backwards p ∷ []) ≡ origin }
    ensures rounded { (a b c : Point) → scaled (pos 1024) (zero_sequence (a ∷ b ∷ c ∷ []))
        ≡ plus (minus (scaled (pos 1024) b) (product forwards a)) (minus (scaled (pos 1024) c) (product backwards a)) }
    ensures negative { (p : Point) → negative_sequence (scaled (pos 1024) p ∷ product forwards p ∷ product backwards p ∷ [])
        ≡ scaled (negsuc 673) p }
    ensures positive { (p : Point) → positive_sequence (scaled (pos 1024) p ∷ product forwards p ∷ product backwards p ∷ [])
        ≡ scaled (pos 3146402) p }
{}

/// Current through the line is outside in neither: where the values of each phase add up to zero over the stations in each of
/// the last cycle of sets, whatever the pickups and the region.
pub fn through_current_is_not_outside()
    ensures zero { (f : Fields) (pickup : ℕ) (judged : List SampleSet) (n : ℕ)
        → ((phase : ℕ) → phase < 3 → IsThrough f judged phase n) → OutBy (is_zero_outside f pickup) f.cycle judged n ≡ false }
    ensures negative { (f : Fields) (pickup : ℕ) (judged : List SampleSet) (n : ℕ)
        → ((phase : ℕ) → phase < 3 → IsThrough f judged phase n) → OutBy (is_negative_outside f pickup) f.cycle judged n ≡ false }
{}
