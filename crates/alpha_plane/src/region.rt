ghost use Rattle.std.specs.Prelude.{◌≡◌, ◌⊎◌, ◌≤◌, ◌*◌, ◌^◌, ◌&&◌, [], None, Some, length, All, MatchResult, nat_le, nat_lt, pos, ◌*ℤ◌, neg_ℤ, int_le, unsigned_abs};
ghost use Rattle.alpha_plane.specs.Inside.{Inside, sector, square, norm, norm_bits, dot, cross};
ghost use Rattle.alpha_plane.specs.Outside.{OutsideAll, OutsideBeyond, each_outside, station_bits};
ghost use Rattle.alpha_plane.specs.Region.{region_fault};
ghost use Rattle.phasor.specs.Point.{IsWithin, total};
ghost use Rattle.phasor.specs.Sizes.{sum_bits};

use crate::Current;
use ld_base::Wide;
use phasor::Phasor;
use std::marker::Model;

// The largest number of a region's radius and direction.
const LARGEST: u32 = 10_000;

// The bits of those numbers, of a current's parts, of their products, and of a norm, a dot or a cross product.
const SIDE_BITS: u32 = 14;

const PART_BITS: u32 = 48;

const PRODUCT_BITS: u32 = 96;

const NORM_BITS: u32 = 97;

// The scale of the phasor tables.
const SCALE: u64 = 16_384;

/// Why a region is refused: the first of these that holds.
#[derive(Clone, Copy, Debug, PartialEq, Eq)]
pub enum BadRegion {
    /// `1 <= rd <= rn <= 10000` fails.
    Radius,
    /// `p` isn't from -10000 to 10000, or `q` isn't from 1 to 10000.
    Direction,
}

/// A restraint region of the alpha plane: the annular sector with the radii `rd / rn` and `rn / rd`, centred on 180 degrees,
/// whose upper edge has the direction `(p, q)`.
#[derive(Clone, Copy, Debug, PartialEq, Eq)]
pub struct Region {
    rn: u32,
    rd: u32,
    p: i32,
    q: i32,
}

impl Model for Region {
    ghost use Rattle.std.specs.Prelude.{◌≡◌, None};
    ghost use Rattle.alpha_plane.specs.Inside.{Sector};

    ghost Value = { Sector };

    ghost use Rattle.alpha_plane.specs.Region.{region_fault};

    ghost view = { λ r. record { rn = r.rn; rd = r.rd; p = r.p; q = r.q } };

    ghost invariant = { λ r. region_fault (record { rn = r.rn; rd = r.rd; p = r.p; q = r.q }) ≡ None };

    ghost inverse = { λ s. record { rn = s.rn; rd = s.rd; p = s.p; q = s.q } };
}

impl Region {
    /// The region of that radius `rn / rd` and that direction, or the first fault.
    #[tactic(auto, unfolding(crate::specs::Region::region_fault))]
    pub fn new(rn: u32, rd: u32, p: i32, q: i32) -> Result<Region, BadRegion>
        ensures { MatchResult result
            (λ r. (r ≡ sector rn rd p q) × (region_fault (sector rn rd p q) ≡ None))
            (λ fault. region_fault (sector rn rd p q) ≡ Some fault) }
    {
        if rd < 1 || rn < rd || LARGEST < rn {
            return Err(BadRegion::Radius);
        }
        if p.unsigned_abs() > LARGEST || q < 1 || q.unsigned_abs() > LARGEST {
            return Err(BadRegion::Direction);
        }
        Ok(Region { rn, rd, p, q })
    }

    /// Whether the local current `l` and the remote current `r` lie in the region. The border is inside.
    pub fn inside(&self, l: Phasor, r: Phasor) -> bool
        ensures { result ≡ Inside self.now l r }
    {
        self.contains(Current::from(l), Current::from(r))
    }

    // The same of currents of any scale.
    fn contains(&self, l: Current, r: Current) -> bool
        ensures { result ≡ Inside self.now l r }
    {
        self.is_within_radius(norm(l), norm(r)) && self.is_at_most_angle(dot(l, r), cross(l, r))
    }

    // Whether neither of two currents of these norms is above `rn / rd` times the other. The greater one decides.
    fn is_within_radius(&self, local: u128, remote: u128) -> bool
        requires local { local ≤ 2 ^ norm_bits }
        requires remote { remote ≤ 2 ^ norm_bits }
        ensures { result ≡ (nat_le (square self.now.rd * remote) (square self.now.rn * local)
            && nat_le (square self.now.rd * local) (square self.now.rn * remote)) }
    {
        let (rn, rd) = (u64::from(self.rn), u64::from(self.rd));
        u128::from(rd * rd) * local.max(remote) <= u128::from(rn * rn) * local.min(remote)
    }

    // Whether two currents of this dot and cross product are turned from opposition by at most the angle of `(p, q)`.
    fn is_at_most_angle(&self, dot: Wide, cross: Wide) -> bool
        requires dot { unsigned_abs dot ≤ 2 ^ norm_bits }
        requires cross { unsigned_abs cross ≤ 2 ^ norm_bits }
        ensures { result ≡ int_le (self.now.p *ℤ pos (unsigned_abs cross)) (self.now.q *ℤ neg_ℤ dot) }
    {
        let sideways = Wide::from(i64::from(self.p)).times::<SIDE_BITS, NORM_BITS>(
            cross.absolute(),
        );
        let opposite = Wide::from(i64::from(self.q)).times::<SIDE_BITS, NORM_BITS>(dot.negated());
        sideways.is_at_most(opposite)
    }

    /// Whether the sums of one phase, one for each station, lie outside the region: their total passes the pickup, and
    /// each of them lies outside against the sum of the others. `pickup` is in counts of the converter, `cycle` in
    /// samples.
    pub fn outside_all(&self, sums: &[Phasor], pickup: u16, cycle: u8) -> bool
        requires stations { (length sums.now ≡ 2) ⊎ (length sums.now ≡ 3) }
        requires size { All (IsWithin sum_bits) sums.now }
        requires cycle { (4 ≤ cycle) × (cycle ≤ 20) }
        ensures { result ≡ OutsideAll self.now pickup cycle sums.now }
    {
        let limit = u64::from(pickup) * u64::from(cycle) * SCALE;
        if sums.len() == 2 {
            return self.outside_beyond(&two_currents(sums), limit);
        }
        self.outside_beyond(&three_currents(sums), limit)
    }

    /// Whether the currents of the stations lie outside the region: the amplitude of their total is more than half the
    /// limit, and each of them lies outside against the sum of the others. They may be of any scale, and `limit` is of the
    /// same.
    pub fn outside_beyond(&self, currents: &[Current], limit: u64) -> bool
        requires stations { (length currents.now ≡ 2) ⊎ (length currents.now ≡ 3) }
        requires size { All (IsWithin station_bits) currents.now }
        ensures { result ≡ OutsideBeyond self.now limit currents.now }
    {
        let total = total(currents);
        passes(total, limit) && self.each_outside(currents, total)
    }

    // Whether each of two or three currents lies outside against the others, which are their total without it. Of two, one
    // lies outside as the other does.
    #[inline(never)]
    #[tactic(auto, using(crate::proofs::Outsides::stations))]
    fn each_outside(&self, currents: &[Current], differential: Current) -> bool
        requires stations { (length currents.now ≡ 2) ⊎ (length currents.now ≡ 3) }
        requires size { All (IsWithin station_bits) currents.now }
        requires total { differential ≡ total currents.now }
        requires total_size { (unsigned_abs differential.re ≤ 3 * 2 ^ station_bits)
            × (unsigned_abs differential.im ≤ 3 * 2 ^ station_bits) }
        ensures { result ≡ each_outside self.now [] currents.now }
    {
        if currents.len() == 2 {
            return !self.contains(currents[0], currents[1]);
        }
        for current in currents {
            if self.contains(*current, differential.minus(*current)) {
                return false;
            }
        }
        true
    }
}

// Two sums as currents.
fn two_currents(sums: &[Phasor]) -> [Current; 2]
    requires { length sums.now ≡ 2 }
    ensures { result ≡ sums.now }
{
    [Current::from(sums[0]), Current::from(sums[1])]
}

// Three sums as currents.
fn three_currents(sums: &[Phasor]) -> [Current; 3]
    requires { length sums.now ≡ 3 }
    ensures { result ≡ sums.now }
{
    [
        Current::from(sums[0]),
        Current::from(sums[1]),
        Current::from(sums[2]),
    ]
}

// The sum of two or three currents.
#[tactic(auto, using(crate::proofs::Totals::steps))]
fn total(currents: &[Current]) -> Current
    requires few { length currents.now ≤ 3 }
    requires size { All (IsWithin station_bits) currents.now }
    ensures total { result ≡ total currents.now }
    ensures size { (unsigned_abs result.re ≤ 3 * 2 ^ station_bits) × (unsigned_abs result.im ≤ 3 * 2 ^ station_bits) }
{
    let mut total = Current::zero();
    for current in currents {
        total = total.plus(*current);
    }
    total
}

// Whether a differential current is more than half the limit. Most currents lie so far below it that the sum of their parts
// does.
fn passes(total: Current, limit: u64) -> bool
    ensures { result ≡ nat_lt (square limit) (4 * norm total) }
{
    if 2 * (total.re.unsigned_abs() + total.im.unsigned_abs()) <= limit {
        return false;
    }
    u128::from(limit) * u128::from(limit) < 4 * norm(total)
}

// The square of a current's amplitude.
fn norm(z: Current) -> u128
    ensures norm { result ≡ norm z }
    ensures size { result ≤ 2 ^ norm_bits }
{
    let (re, im) = (
        u128::from(z.re.unsigned_abs()),
        u128::from(z.im.unsigned_abs()),
    );
    re * re + im * im
}

// The real part of `l` times the conjugate of `r`.
fn dot(l: Current, r: Current) -> Wide
    ensures dot { result ≡ dot l r }
    ensures size { unsigned_abs result ≤ 2 ^ norm_bits }
{
    let re = Wide::from(l.re).times::<PART_BITS, PART_BITS>(Wide::from(r.re));
    let im = Wide::from(l.im).times::<PART_BITS, PART_BITS>(Wide::from(r.im));
    re.plus::<PRODUCT_BITS>(im)
}

// The imaginary part of `r` times the conjugate of `l`.
fn cross(l: Current, r: Current) -> Wide
    ensures cross { result ≡ cross l r }
    ensures size { unsigned_abs result ≤ 2 ^ norm_bits }
{
    let ahead = Wide::from(l.re).times::<PART_BITS, PART_BITS>(Wide::from(r.im));
    let behind = Wide::from(l.im).times::<PART_BITS, PART_BITS>(Wide::from(r.re));
    ahead.minus::<PRODUCT_BITS>(behind)
}

#[cfg(test)]
mod tests;
