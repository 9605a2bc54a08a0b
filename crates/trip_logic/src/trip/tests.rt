ghost use Rattle.std.specs.Prelude.{◌≡◌};

use super::*;
use ld_base::Phases;
use std::test::Fail;

// Some sets of a line: phase b of each station in the four samples of a cycle, which come again and again, while the other
// phases have no current; the set that is left out; and the verdicts of phase b, from set 0 to set 8.
#[derive(Clone, Copy)]
struct Case {
    stations: u8,
    count: u8,
    currents: [[i16; 4]; 3],
    missing: u32,
    verdicts: &'static [u8],
}

const NONE: [i16; 4] = [0; 4];

// The usual trip by four sets, two stations, and no set left out.
const USUAL: Case = Case {
    stations: 2,
    count: 4,
    currents: [NONE; 3],
    missing: 99,
    verdicts: b"WWWRRRRRR",
};

#[test]
fn two_stations_are_judged_as_a_relay_engineer_expects(rt: HostRuntime) -> Result<(), Fail> {
    let trips = b"WWWOOOTTT";
    let restrains = b"WWWRRRRRR";
    let cases: [([i16; 4], [i16; 4], &[u8]); 10] = [
        // Load through the line, and a fault beyond it.
        ([1000, 0, -1000, 0], [-1000, 0, 1000, 0], restrains),
        ([30_000, 0, -30_000, 0], [-30_000, 0, 30_000, 0], restrains),
        // A fault on the line, fed from both ends, and from one.
        ([1000, 0, -1000, 0], [1000, 0, -1000, 0], trips),
        ([1000, 0, -1000, 0], NONE, trips),
        // The differential current at the pickup of 500, and above it.
        ([500, 0, -500, 0], NONE, restrains),
        ([501, 0, -501, 0], NONE, trips),
        // One end's current six times the other's, as under saturation, and more.
        ([1200, 0, -1200, 0], [-200, 0, 200, 0], restrains),
        ([1206, 0, -1206, 0], [-200, 0, 200, 0], trips),
        // A quarter of a cycle between the ends, as after a step of a delay.
        ([1000, 0, -1000, 0], [0, 1000, 0, -1000], restrains),
        // A constant alone, as after a step of a transformer's core.
        ([9000; 4], NONE, restrains),
    ];
    for (local, remote, verdicts) in cases {
        let mut case = USUAL;
        case.currents = [local, remote, NONE];
        assert_eq!(rt; judged(rt.alloc(), &case)?.as_slice(), verdicts);
    }
    Ok(())
}

#[test]
fn three_stations_and_gaps_are_judged_as_a_relay_engineer_expects(
    rt: HostRuntime,
) -> Result<(), Fail> {
    let in_phase = [1000, 0, -1000, 0];
    let fed_by_three = Case {
        stations: 3,
        count: 2,
        currents: [in_phase; 3],
        verdicts: b"WWWOTTTTT",
        ..USUAL
    };
    let cases = [
        fed_by_three,
        // The third station alone restrains: half a current flows out there.
        Case {
            currents: [in_phase, in_phase, [-500, 0, 500, 0]],
            verdicts: b"WWWRRRRRR",
            ..fed_by_three
        },
        // What flows in at two stations flows out at the third.
        Case {
            currents: [in_phase, in_phase, [-2000, 0, 2000, 0]],
            verdicts: b"WWWRRRRRR",
            ..fed_by_three
        },
        // Without set 4 the cycle begins anew, and the count with it.
        Case {
            missing: 4,
            verdicts: b"WWWOWWWO",
            ..fed_by_three
        },
        // A count of one trips at once.
        Case {
            stations: 2,
            count: 1,
            currents: [in_phase, in_phase, NONE],
            verdicts: b"WWWTTTTTT",
            ..USUAL
        },
    ];
    for case in cases {
        assert_eq!(rt; judged(rt.alloc(), &case)?.as_slice(), case.verdicts);
    }
    Ok(())
}

// The verdicts of phase b, where the other phases wait and restrain with it.
fn judged(alloc: Global, case: &Case) -> Result<Vec<u8>, Fail> {
    let mut fields = Fields::usual(case.stations, 5);
    fields.cycle = 4;
    fields.count = case.count;
    let mut trip = Trip::new(alloc, &Settings::new(fields)?)?;
    let mut letters = Vec::new(alloc);
    for number in 0..9 {
        if number == case.missing {
            continue;
        }
        letters.push(letter(&trip.judge(&set(case, number))))?;
    }
    Ok(letters)
}

fn set(case: &Case, number: u32) -> SampleSet
    ensures { result.number ≡ number }
{
    let place = (number % 4) as usize;
    SampleSet {
        number,
        values: [
            sample_of(case.currents[0][place]),
            sample_of(case.currents[1][place]),
            sample_of(case.currents[2][place]),
        ],
    }
}

fn sample_of(b: i16) -> Phases {
    Phases { a: 0, b, c: 0 }
}

fn letter(verdicts: &[Verdict; 3]) -> u8 {
    let quiet = [verdicts[0], verdicts[2]];
    match verdicts[1] {
        Verdict::Waiting if quiet == [Verdict::Waiting; 2] => b'W',
        Verdict::Restrain if quiet == [Verdict::Restrain; 2] => b'R',
        Verdict::Outside if quiet == [Verdict::Restrain; 2] => b'O',
        Verdict::Trip if quiet == [Verdict::Restrain; 2] => b'T',
        _ => b'?',
    }
}

#[test]
fn the_cause_of_a_trip_is_kept(rt: HostRuntime) -> Result<(), Fail> {
    let mut fields = Fields::usual(2, 5);
    fields.cycle = 4;
    fields.count = 2;
    let mut trip = Trip::new(rt.alloc(), &Settings::new(fields)?)?;
    assert!(rt; trip.cause(0).is_none());
    for number in 10..30 {
        trip.judge(&set(&USUAL, number));
    }
    // Four sets of a cycle and a count of two: those of the numbers 29 to 24.
    assert_eq!(rt; trip.cause(0).map(|set| set.number), Some(29));
    assert_eq!(rt; trip.cause(5).map(|set| set.number), Some(24));
    assert!(rt; trip.cause(6).is_none());
    Ok(())
}
