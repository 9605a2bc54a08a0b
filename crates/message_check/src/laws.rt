//! The laws of the check, each the contract of a function that does nothing.

ghost use Rattle.std.specs.Prelude.{◌≡◌, ◌≢◌, ◌≤◌, ◌<◌, ◌^◌, ◌++◌, ◌↔◌, ℕ, List, length};
ghost use Rattle.message_check.specs.Check.{AreBytes, EndsInCheck, IsCheck, check_of, divisor};
ghost use Rattle.message_check.specs.Polynomials.{IsRemainder};

/// Each polynomial has a remainder by the divisor.
pub fn a_remainder_exists()
    ensures { (dividend : ℕ) → (r : ℕ) × IsRemainder 32 divisor dividend r }
{}

/// And no other.
pub fn a_remainder_is_unique()
    ensures { (dividend r s : ℕ) → IsRemainder 32 divisor dividend r → IsRemainder 32 divisor dividend s → r ≡ s }
{}

/// The check of some bytes is what `check_of` calculates, and nothing else is.
pub fn the_check_is_calculated()
    ensures { (bytes : List ℕ) (check : ℕ) → AreBytes bytes → IsCheck bytes check ↔ (check ≡ check_of bytes) }
{}

/// A check has 32 bits.
pub fn a_check_has_32_bits()
    ensures { (bytes : List ℕ) (check : ℕ) → IsCheck bytes check → check < 2 ^ 32 }
{}

/// Two lists of bytes of one length that differ, and only within four consecutive bytes, have different checks.
pub fn damage_within_four_bytes_is_seen()
    ensures { (front damaged sent back : List ℕ) (check other : ℕ)
        → AreBytes damaged → AreBytes sent → AreBytes back
        → length damaged ≡ length sent → length sent ≤ 4 → damaged ≢ sent
        → IsCheck (front ++ (sent ++ back)) check → IsCheck (front ++ (damaged ++ back)) other → check ≢ other }
{}

/// Two lists of bytes of one length that each end in their check, and differ only within four consecutive bytes, are the
/// same: the damage may lie in the check too.
pub fn damage_of_checked_bytes_is_seen()
    ensures { (front damaged sent back : List ℕ) → AreBytes damaged → AreBytes sent → AreBytes back
        → length damaged ≡ length sent → length sent ≤ 4
        → EndsInCheck (front ++ (sent ++ back)) → EndsInCheck (front ++ (damaged ++ back)) → damaged ≡ sent }
{}
