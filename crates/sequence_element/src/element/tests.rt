ghost use Rattle.std.specs.Prelude.{◌≡◌};

use super::*;
use ld_base::Phases;
use std::alloc::Global;
use std::test::Fail;

// The amplitude's values of a load of 1000 at each twentieth of a cycle, rounded toward zero.
const LOAD: [i16; 20] = [
    1000, 951, 809, 587, 309, 0, -309, -587, -809, -951, -1000, -951, -809, -587, -309, 0, 309,
    587, 809, 951,
];

#[test]
fn a_fault_on_one_phase_trips_both_sequences(rt: HostRuntime) -> Result<(), Fail> {
    // Both ends feed phase a from number 101 on, as it rises from zero.
    let mut element = Sequence::new(&Settings::new(Fields::usual(2, 5))?, 500, 500);
    let rising = [-5063, -9630, -13_255, -15_582];
    for number in 81..105 {
        let a = if number > 100 {
            rising[(number - 101) as usize % 4]
        } else {
            0
        };
        let both = Phases { a, b: 0, c: 0 };
        let set = set_of(number, [both, both, Phases::default()]);
        let letters = letters_of(element.judge(&set));
        let due = match number {
            0..100 => b"WW",
            100 => b"RR",
            101..104 => b"OO",
            _ => b"TT",
        };
        assert_eq!(rt; letters, *due);
    }
    Ok(())
}

#[test]
fn load_restrains_both_sequences(rt: HostRuntime) -> Result<(), Fail> {
    // The far end's values are a twentieth of a cycle old.
    let mut element = Sequence::new(&Settings::new(Fields::usual(2, 5))?, 500, 500);
    for number in 5..195 {
        let set = set_of(
            number,
            [load_at(number), load_at(number + 9), Phases::default()],
        );
        let letters = letters_of(element.judge(&set));
        assert_eq!(rt; letters, if number < 24 { *b"WW" } else { *b"RR" });
    }
    Ok(())
}

// Some sets of a line: the phases of each station in the four samples of a cycle, which come again and again; the set that is
// left out; and the verdicts of the zero and of the negative sequence, from set 0 to set 8.
#[derive(Clone, Copy)]
struct Case {
    stations: u8,
    currents: [[i16; 3]; 3],
    missing: u32,
    zero: &'static [u8],
    negative: &'static [u8],
}

const NONE: [i16; 3] = [0; 3];

// Two stations, and no set left out.
const USUAL: Case = Case {
    stations: 2,
    currents: [NONE; 3],
    missing: 99,
    zero: b"WWWRRRRRR",
    negative: b"WWWRRRRRR",
};

#[test]
fn the_sequences_are_judged_as_a_relay_engineer_expects(rt: HostRuntime) -> Result<(), Fail> {
    let trips = b"WWWOOOTTT";
    let cases = [
        // The same current enters all phases: zero sequence alone.
        Case {
            currents: [[1000; 3], NONE, NONE],
            zero: trips,
            ..USUAL
        },
        // What enters phase b leaves phase c: negative sequence alone.
        Case {
            currents: [[0, 1000, -1000], NONE, NONE],
            negative: trips,
            ..USUAL
        },
        // What is missing at the other end is above the pickup, and little against what flows through.
        Case {
            currents: [[2600, 0, 0], [-2000, 0, 0], NONE],
            ..USUAL
        },
        // Of three stations one restrains: half of what enters leaves there.
        Case {
            stations: 3,
            currents: [[1000, 0, 0], [1000, 0, 0], [-500, 0, 0]],
            ..USUAL
        },
        Case {
            stations: 3,
            currents: [[1000, 0, 0], [1000, 0, 0], [500, 0, 0]],
            zero: trips,
            negative: trips,
            ..USUAL
        },
        // The pickup of 500 in zero is reached, and passed.
        Case {
            currents: [[500, 0, 0], NONE, NONE],
            ..USUAL
        },
        Case {
            currents: [[501, 0, 0], NONE, NONE],
            zero: trips,
            negative: trips,
            ..USUAL
        },
        // Without set 4 the cycle begins anew, and the count with it.
        Case {
            currents: [[1000, 0, 0], NONE, NONE],
            missing: 4,
            zero: b"WWWOWWWO",
            negative: b"WWWOWWWO",
            ..USUAL
        },
    ];
    for case in cases.iter() {
        let letters = judged(rt.alloc(), case)?;
        assert_eq!(rt; letters.0.as_slice(), case.zero);
        assert_eq!(rt; letters.1.as_slice(), case.negative);
    }
    Ok(())
}

// The verdicts of both sequences, each with a pickup of 500.
fn judged(alloc: Global, case: &Case) -> Result<(Vec<u8>, Vec<u8>), Fail> {
    let mut fields = Fields::usual(case.stations, 5);
    fields.cycle = 4;
    let mut element = Sequence::new(&Settings::new(fields)?, 500, 500);
    let mut letters = (Vec::new(alloc), Vec::new(alloc));
    for number in 0..9 {
        if number == case.missing {
            continue;
        }
        let [zero, negative] = letters_of(element.judge(&wave(case, number)));
        letters.0.push(zero)?;
        letters.1.push(negative)?;
    }
    Ok(letters)
}

// A cycle of four samples: the crest, nothing, the trough, nothing.
fn wave(case: &Case, number: u32) -> SampleSet
    ensures { result.number ≡ number }
{
    let currents = case.currents;
    set_of(
        number,
        [
            sample(currents[0], number),
            sample(currents[1], number),
            sample(currents[2], number),
        ],
    )
}

fn sample(crest: [i16; 3], number: u32) -> Phases {
    Phases {
        a: at_place(crest[0], number),
        b: at_place(crest[1], number),
        c: at_place(crest[2], number),
    }
}

fn at_place(crest: i16, number: u32) -> i16 {
    match number % 4 {
        0 => crest,
        2 => crest.saturating_neg(),
        _ => 0,
    }
}

fn load_at(number: u32) -> Phases {
    Phases {
        a: LOAD[number as usize % 20],
        b: LOAD[number.wrapping_add(13) as usize % 20],
        c: LOAD[number.wrapping_add(7) as usize % 20],
    }
}

fn set_of(number: u32, values: [Phases; 3]) -> SampleSet
    ensures { result.number ≡ number }
{
    SampleSet { number, values }
}

fn letters_of(verdicts: [Verdict; 2]) -> [u8; 2] {
    [letter_of(verdicts[0]), letter_of(verdicts[1])]
}

fn letter_of(verdict: Verdict) -> u8 {
    match verdict {
        Verdict::Waiting => b'W',
        Verdict::Restrain => b'R',
        Verdict::Outside => b'O',
        Verdict::Trip => b'T',
    }
}
