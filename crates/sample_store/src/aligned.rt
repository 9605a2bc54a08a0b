ghost use Rattle.std.specs.Prelude.{◌≡◌, ◌+◌, ◌*◌, ◌<◌, ◌≤◌, ◌^◌, ◌-ℤ◌, pos, unsigned_abs};
ghost use Rattle.sample_store.specs.Aligned.{Aligned};

/// The own number under which a peer's sample belongs, by twice the offset of the peer's clock: of the whole numbers n the one
/// with `-T < 2*n*T - 2*number*T + estimate2 <= T`, T being the spacing.
pub(crate) fn aligned(spacing: u32, number: u32, estimate2: i64) -> i64
    requires spacing { (500 ≤ spacing) × (spacing ≤ 10000) }
    requires estimate2 { unsigned_abs estimate2 < 2 ^ 49 }
    ensures { result ≡ Aligned spacing number estimate2 }
{
    let over = raised(spacing, number, estimate2);
    over.div_euclid(2 * i64::from(spacing))
}

// The dividend: a spacing, and twice the peer's number in ticks less the estimate.
fn raised(spacing: u32, number: u32, estimate2: i64) -> i64
    requires spacing { spacing ≤ 10000 }
    requires estimate2 { unsigned_abs estimate2 < 2 ^ 49 }
    ensures { result ≡ pos (spacing + 2 * number * spacing) -ℤ estimate2 }
{
    let spacing = i64::from(spacing);
    spacing + 2 * i64::from(number) * spacing - estimate2
}
