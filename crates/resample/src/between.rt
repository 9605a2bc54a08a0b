//! Which own sample lies between two samples of a peer.

ghost use Rattle.std.specs.Prelude.{◌≡◌, ◌+◌, ◌*◌, ◌^◌, ◌<◌, ◌≤◌, ◌-ℤ◌, pos, unsigned_abs};
ghost use Rattle.std.specs.Option.{ForSome};
ghost use Rattle.resample.specs.Between.{IsBetween, own_number, sample_number, weight};

/// The number of the own sample that lies at a peer's sample `first` or behind it, and before the peer's next one, by twice the
/// offset of the peer's clock. None exactly where it is negative or above 4294967295.
pub(crate) fn own_sample(spacing: u32, first: u32, estimate2: i64) -> Option<u32>
    requires spacing { (500 ≤ spacing) × (spacing ≤ 10000) }
    requires estimate2 { unsigned_abs estimate2 < 2 ^ 49 }
    ensures number { result ≡ sample_number (own_number spacing first estimate2) }
    ensures between { ForSome result (λ n. IsBetween spacing first estimate2 (pos n)) }
{
    u32::try_from(own_number(spacing, first, estimate2)).ok()
}

// The one whole number n with `2*first*T - estimate2 <= 2*n*T < 2*(first + 1)*T - estimate2`, T being the spacing.
fn own_number(spacing: u32, first: u32, estimate2: i64) -> i64
    requires spacing { (500 ≤ spacing) × (spacing ≤ 10000) }
    requires estimate2 { unsigned_abs estimate2 < 2 ^ 49 }
    ensures number { result ≡ own_number spacing first estimate2 }
    ensures between { IsBetween spacing first estimate2 result }
{
    let last = before_next(spacing, first, estimate2);
    last.div_euclid(2 * i64::from(spacing))
}

// The last half tick of the own clock before the peer's sample behind `first`.
fn before_next(spacing: u32, first: u32, estimate2: i64) -> i64
    requires spacing { spacing ≤ 10000 }
    requires estimate2 { unsigned_abs estimate2 < 2 ^ 49 }
    ensures { result ≡ (pos (2 * (first + 1) * spacing) -ℤ estimate2) -ℤ pos 1 }
{
    let next = 2 * (u64::from(first) + 1) * u64::from(spacing);
    next as i64 - estimate2 - 1
}

/// How far the own sample n lies behind a peer's sample `first`, in half ticks: `2*n*T - 2*first*T + estimate2`, for the n that
/// `own_sample` gives.
pub(crate) fn weight(spacing: u32, first: u32, estimate2: i64, n: u32) -> u32
    requires spacing { (500 ≤ spacing) × (spacing ≤ 10000) }
    requires estimate2 { unsigned_abs estimate2 < 2 ^ 49 }
    requires between { IsBetween spacing first estimate2 (pos n) }
    ensures weight { result ≡ weight spacing first estimate2 n }
    ensures size { result < 2 * spacing }
{
    (half_ticks(spacing, n) as i64 - half_ticks(spacing, first) as i64 + estimate2) as u32
}

// A sample's instant in half ticks of its clock.
fn half_ticks(spacing: u32, number: u32) -> u64
    requires spacing { spacing ≤ 10000 }
    ensures instant { result ≡ 2 * number * spacing }
    ensures size { result < 2 ^ 47 }
{
    2 * u64::from(number) * u64::from(spacing)
}
