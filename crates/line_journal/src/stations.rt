//! The stations of a line, and the directed lines between them.

ghost use Rattle.std.specs.Prelude.{◌≡◌, ◌≤◌, None, map};
ghost use Rattle.ld_base.specs.Settings.{setting_fault};
ghost use Rattle.line_journal.specs.Stations.{stations, way_between, ways};

use arrayvec::ArrayVec;
use ld_base::{Settings, Station};

/// The station of that number.
pub fn station(number: u8) -> Station
    requires { (1 ≤ number) × (number ≤ 3) }
    ensures { result ≡ number }
{
    match Station::new(number) {
        Some(station) => station,
        None => unreachable!(),
    }
}

/// The stations of a line, in order.
pub fn stations_of(s: &Settings) -> ArrayVec<Station, 3>
    requires { setting_fault s.now ≡ None }
    ensures { result.items ≡ stations s.now }
{
    let mut all = ArrayVec::new();
    all.push(station(1));
    all.push(station(2));
    if s.fields().stations > 2 {
        all.push(station(3));
    }
    all
}

/// The directed lines between the stations, sender and receiver, in the order of the receiver and then of the sender.
pub fn directed_lines(s: &Settings) -> ArrayVec<(Station, Station), 6>
    ensures { map way_between result.items ≡ ways s.now }
{
    let (first, second, third) = (station(1), station(2), station(3));
    let mut lines = ArrayVec::new();
    if s.fields().stations == 2 {
        lines.push((second, first));
        lines.push((first, second));
    } else {
        lines.push((second, first));
        lines.push((third, first));
        lines.push((first, second));
        lines.push((third, second));
        lines.push((first, third));
        lines.push((second, third));
    }
    lines
}
