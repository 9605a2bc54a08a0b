ghost use Rattle.phasor.specs.Point.{IsWithin};

use super::*;
use std::test::Fail;

// A row: the region, the two currents, and whether they are inside.
#[derive(Clone, Copy)]
struct Case {
    region: (u32, u32, i32, i32),
    local: (i32, i32),
    remote: (i32, i32),
    inside: bool,
}

#[test]
fn the_border_is_inside(rt: HostRuntime) -> Result<(), Fail> {
    let corner = (6, 1, -1305, 9914);
    let right_angle = (6, 1, 0, 1);
    let cases = [
        Case {
            region: corner,
            local: (6, 0),
            remote: (-1, 0),
            inside: true,
        },
        Case {
            region: corner,
            local: (7, 0),
            remote: (-1, 0),
            inside: false,
        },
        Case {
            region: right_angle,
            local: (1, 0),
            remote: (0, 1),
            inside: true,
        },
        Case {
            region: right_angle,
            local: (0, 0),
            remote: (0, 0),
            inside: true,
        },
        Case {
            region: right_angle,
            local: (0, 0),
            remote: (1, 0),
            inside: false,
        },
    ];
    for case in cases.iter() {
        let (rn, rd, p, q) = case.region;
        let region = Region::new(rn, rd, p, q)?;
        assert_eq!(rt;
            region.inside(phasor(case.local), phasor(case.remote)),
            case.inside
        );
    }
    Ok(())
}

#[test]
fn one_station_inside_restrains_three(rt: HostRuntime) -> Result<(), Fail> {
    let region = Region::new(6, 1, -1305, 9914)?;
    let sums = [
        phasor((1_000_000, 0)),
        phasor((1_000_000, 0)),
        phasor((-500_000, 0)),
    ];
    assert!(rt; !region.outside_all(&sums, 1, 4));
    Ok(())
}

fn phasor(parts: (i32, i32)) -> Phasor
    ensures { IsWithin 34 result }
{
    Phasor {
        re: i64::from(parts.0),
        im: i64::from(parts.1),
    }
}
