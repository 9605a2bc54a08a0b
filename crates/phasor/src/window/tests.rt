ghost use Rattle.std.specs.Prelude.{◌≡◌, ◌<◌, true};
ghost use Rattle.ld_base.specs.Settings.{is_cycle};

use super::*;
use std::marker::Brand;
use std::sync::ledger::Blank;
use std::test::Fail;

#[test]
fn a_step_is_summed_with_its_factors(rt: HostRuntime) -> Result<(), Fail> {
    let (short, whole) = around_a_step::<Brand>(Blank::new(1));
    assert!(rt; short.is_none());
    let Some(sums) = whole else {
        assert!(rt; false);
        return Ok(());
    };
    // Place 101 mod 20 of the table: -5063 * 15582 and -5063 * 5063.
    let stepped = Phasor {
        re: -78_891_666,
        im: -25_633_969,
    };
    assert_eq!(rt; phase_a(&sums, 0), stepped);
    assert_eq!(rt; phase_a(&sums, 1), Phasor::zero());
    Ok(())
}

// Sums by station and phase, where they are defined.
type Sums = Option<[[Phasor; 3]; 3]>;

// The sums one set before a cycle is full, and those with a step in its last set.
fn around_a_step<L: Ledger>(blank: Blank) -> (Sums, Sums)
    requires name { blank.name ≡ L.name }
    requires parts { blank.parts ≡ L.parts }
    requires some { 0 < blank.parts }
{
    let mut steps = Steps::<L>::new(blank);
    let mut window = Window::new(20);
    for number in 82..101 {
        window.push(number, &[Phases::default(); 3], &mut steps);
    }
    let short = window.sums();
    let step = Phases {
        a: -5063,
        b: 0,
        c: 0,
    };
    window.push(
        101,
        &[step, Phases::default(), Phases::default()],
        &mut steps,
    );
    (short, window.sums())
}

// A station's sum of phase a.
fn phase_a(sums: &[[Phasor; 3]; 3], station: usize) -> Phasor
    requires { station < 3 }
{
    sums[station][0]
}

#[test]
fn running_sums_are_the_plain_ones(rt: HostRuntime) -> Result<(), Fail> {
    for same in all_cycles::<Brand>(Blank::new(1)) {
        assert!(rt; same);
    }
    Ok(())
}

fn all_cycles<L: Ledger>(blank: Blank) -> [bool; 5]
    requires name { blank.name ≡ L.name }
    requires parts { blank.parts ≡ L.parts }
    requires some { 0 < blank.parts }
{
    let mut steps = Steps::<L>::new(blank);
    [
        runs_plainly(4, &mut steps),
        runs_plainly(8, &mut steps),
        runs_plainly(12, &mut steps),
        runs_plainly(16, &mut steps),
        runs_plainly(20, &mut steps),
    ]
}

// Whether each answer of a window is the plain sums, over random values with the extremes among them, and gaps.
fn runs_plainly<L: Ledger>(cycle: u8, steps: &mut Steps<L>) -> bool
    requires { is_cycle cycle ≡ true }
{
    let mut window = Window::new(cycle);
    for number in 0..1500 {
        if is_left_out(number) {
            continue;
        }
        window.push(number, &values(number), steps);
        if !are_plain(window.sums(), cycle, number) {
            return false;
        }
    }
    true
}

// Whether the set of a number is missing: now and then one, and now and then some.
fn is_left_out(number: u32) -> bool {
    number % 101 == 57 || number % 331 < 3
}

// The value of a phase in a set, each phase of each station counted from 0 to 8: of eight, one is the least there is, and
// one the greatest.
fn value(number: u32, phase: u32) -> i16 {
    let mixed = number
        .wrapping_mul(9)
        .wrapping_add(phase)
        .wrapping_mul(2_654_435_761);
    let mixed = (mixed ^ (mixed >> 15)).wrapping_mul(2_246_822_519);
    match mixed >> 29 {
        0 => -32768,
        1 => 32767,
        _ => ((mixed >> 8 & 0xFFFF) as u16).cast_signed(),
    }
}

fn values(number: u32) -> [Phases; 3] {
    [sample(number, 0), sample(number, 3), sample(number, 6)]
}

fn sample(number: u32, first: u32) -> Phases {
    Phases {
        a: value(number, first),
        b: value(number, first.wrapping_add(1)),
        c: value(number, first.wrapping_add(2)),
    }
}

// Whether these are the sums of a window at that number.
fn are_plain(sums: Sums, cycle: u8, number: u32) -> bool {
    match sums {
        None => !is_whole(cycle, number),
        Some(sums) => is_whole(cycle, number) && nine_are_plain(&sums, cycle, number),
    }
}

// Whether a full cycle of sets up to that number is there.
fn is_whole(cycle: u8, number: u32) -> bool {
    (0..u32::from(cycle)).all(|back| back <= number && !is_left_out(number.wrapping_sub(back)))
}

fn nine_are_plain(sums: &[[Phasor; 3]; 3], cycle: u8, number: u32) -> bool {
    (0..9_u32).all(|phase| {
        let sum = &sums[(phase / 3) as usize][(phase % 3) as usize];
        sum.re == plain(cycle, number, phase, 0)
            && sum.im == plain(cycle, number, phase, cycle.wrapping_sub(cycle / 4))
    })
}

// One part of a sum from scratch, its factors read from a place of the table on.
fn plain(cycle: u8, number: u32, phase: u32, from: u8) -> i64 {
    let mut sum: i64 = 0;
    for back in 0..u32::from(cycle) {
        let number = number.wrapping_sub(back);
        let place = number.wrapping_add(u32::from(from)) % u32::from(cycle.max(1));
        let product = i64::from(value(number, phase)).wrapping_mul(cosine(cycle, place));
        sum = sum.wrapping_add(product);
    }
    sum
}

static QUARTER_4: [i64; 2] = [16384, 0];

static QUARTER_8: [i64; 3] = [16384, 11585, 0];

static QUARTER_12: [i64; 4] = [16384, 14189, 8192, 0];

static QUARTER_16: [i64; 5] = [16384, 15137, 11585, 6270, 0];

static QUARTER_20: [i64; 6] = [16384, 15582, 13255, 9630, 5063, 0];

// 16384 times the cosine of a place in a cycle, rounded, by its first quarter.
fn cosine(cycle: u8, place: u32) -> i64 {
    let half = u32::from(cycle / 2);
    let place = if place > half {
        u32::from(cycle).wrapping_sub(place)
    } else {
        place
    };
    if place <= half / 2 {
        quarter(cycle, place)
    } else {
        0_i64.wrapping_sub(quarter(cycle, half.wrapping_sub(place)))
    }
}

fn quarter(cycle: u8, place: u32) -> i64 {
    let quarter: &[i64] = match cycle {
        4 => &QUARTER_4,
        8 => &QUARTER_8,
        12 => &QUARTER_12,
        16 => &QUARTER_16,
        _ => &QUARTER_20,
    };
    quarter.get(place as usize).copied().unwrap_or(0)
}
