//! The laws of the restraint region, each the contract of a function that does nothing.

ghost use Rattle.std.specs.Prelude.{◌≡◌, ◌≢◌, None, true, false};
ghost use Rattle.alpha_plane.specs.Inside.{Inside, Sector};
ghost use Rattle.alpha_plane.specs.Product.{product};
ghost use Rattle.alpha_plane.specs.Region.{region_fault};
ghost use Rattle.phasor.specs.Point.{Point, origin};

/// It doesn't matter which current is the local one.
pub fn inside_is_symmetric()
    ensures { (sector : Sector) (l r : Point) → Inside sector l r ≡ Inside sector r l }
{}

/// Only the ratio of the currents counts: both may be multiplied by one complex whole number other than zero.
pub fn inside_goes_by_the_ratio()
    ensures { (sector : Sector) (z l r : Point) → z ≢ origin → Inside sector (product z l) (product z r) ≡ Inside sector l r }
{}

/// No current at either end is inside.
pub fn both_zero_is_inside()
    ensures { (sector : Sector) → Inside sector origin origin ≡ true }
{}

/// Current at one end alone is outside every region.
pub fn one_zero_is_outside()
    ensures { (sector : Sector) (z : Point) → region_fault sector ≡ None → z ≢ origin
        → (Inside sector z origin ≡ false) × (Inside sector origin z ≡ false) }
{}
