//! The lines between stations.

ghost use Rattle.std.specs.Prelude.{◌≡◌, ◌≤◌};
ghost use Rattle.scenario_generator.specs.Lines.{lines_of};

/// The sender and the receiver of each directed line between two or three stations, by sender and then by receiver.
pub(crate) fn lines_of(stations: usize) -> &'static [(u8, u8)]
    requires { (2 ≤ stations) × (stations ≤ 3) }
    ensures { result.now ≡ lines_of stations }
{
    match stations {
        2 => &[(1, 2), (2, 1)],
        _ => &[(1, 2), (1, 3), (2, 1), (2, 3), (3, 1), (3, 2)],
    }
}
