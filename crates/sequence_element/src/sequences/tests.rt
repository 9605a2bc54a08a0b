ghost use Rattle.phasor.specs.Point.{IsWithin};

use super::*;
use std::test::Fail;

// A row: the phases a, b and c, and their zero and negative sequence, calculated by hand.
#[derive(Clone, Copy)]
struct Case {
    phases: [(i32, i32); 3],
    zero: (i64, i64),
    negative: (i64, i64),
}

#[test]
fn the_sequences_of_phases_are_those_calculated_by_hand(rt: HostRuntime) -> Result<(), Fail> {
    let cases = [
        // Each phase alone, which the turns place at a third of a circle from one another.
        Case {
            phases: [(1, 0), (0, 0), (0, 0)],
            zero: (1, 0),
            negative: (1024, 0),
        },
        Case {
            phases: [(0, 0), (1, 0), (0, 0)],
            zero: (1, 0),
            negative: (-512, 887),
        },
        Case {
            phases: [(0, 0), (0, 0), (0, 1)],
            zero: (0, 1),
            negative: (887, -512),
        },
        // Three equal ones.
        Case {
            phases: [(7, -3), (7, -3), (7, -3)],
            zero: (21, -9),
            negative: (0, 0),
        },
        // A balanced load, and the same with b and c exchanged.
        Case {
            phases: [(1000, 0), (-500, 866), (-500, -866)],
            zero: (0, 0),
            negative: (-284, 0),
        },
        Case {
            phases: [(1000, 0), (-500, -866), (-500, 866)],
            zero: (0, 0),
            negative: (3_072_284, 0),
        },
    ];
    for case in cases.iter() {
        let phases = case.phases;
        let p = [phasor(phases[0]), phasor(phases[1]), phasor(phases[2])];
        assert_eq!(rt; zero_of(&p), wide(case.zero));
        assert_eq!(rt; negative_of(&p), wide(case.negative));
    }
    Ok(())
}

#[test]
fn the_largest_sums_have_sequences(rt: HostRuntime) {
    let most = 1 << 34;
    let p = [
        Phasor {
            re: -most,
            im: most,
        },
        Phasor { re: most, im: most },
        Phasor {
            re: most,
            im: -most,
        },
    ];
    assert_eq!(rt; zero_of(&p), wide((17_179_869_184, 17_179_869_184)));
    assert_eq!(rt;
        negative_of(&p),
        wide((-65_661_460_021_248, 17_592_186_044_416))
    );
}

fn phasor(parts: (i32, i32)) -> Phasor
    ensures { IsWithin 34 result }
{
    Phasor {
        re: i64::from(parts.0),
        im: i64::from(parts.1),
    }
}

fn wide(parts: (i64, i64)) -> Wide {
    let (re, im) = parts;
    Wide {
        re: re.clamp(-(1 << 46), 1 << 46),
        im: im.clamp(-(1 << 46), 1 << 46),
    }
}
