use crate::{Clock, Exchange, Hand, RateFrom, exchange_of};
use ld_base::{Echo, Message, Phases, Station, Ticks};
use std::test::Fail;

#[test]
fn unequal_delays_shift_the_estimate_by_half_their_difference(rt: HostRuntime) {
    let exchange = Exchange {
        a1: 1000,
        b2: 5600,
        b3: 5900,
        a4: 1900,
    };
    assert_eq!(rt; exchange.estimate2(), 8600);
    assert_eq!(rt; exchange.round_trip(), 600);
}

#[test]
fn a_message_with_an_echo_completes_an_exchange(rt: HostRuntime) -> Result<(), Fail> {
    let from = Station::new(2).ok_or("a station")?;
    let to = Station::new(1).ok_or("a station")?;
    let now = Ticks::new(1900).ok_or("a stamp")?;
    let alone = Message {
        from,
        to,
        number: 5,
        sent: 5900,
        echo: None,
        phases: Phases::default(),
    };
    assert_eq!(rt; exchange_of(&alone, now), None);
    let answer = Message {
        from,
        to,
        number: 5,
        sent: 5900,
        echo: Some(Echo {
            sent: 1000,
            came: 5600,
        }),
        phases: Phases::default(),
    };
    let exchange = Exchange {
        a1: 1000,
        b2: 5600,
        b3: 5900,
        a4: 1900,
    };
    assert_eq!(rt; exchange_of(&answer, now), Some(exchange));
    Ok(())
}

// A true time, and the phase of a clock then.
#[derive(Clone, Copy)]
struct Shown {
    time: u64,
    phase: u64,
}

// Of the two rates from tick 3 on the later counts.
const RATES: [RateFrom; 3] = [
    RateFrom { from: 3, rate: 5 },
    RateFrom { from: 3, rate: -7 },
    RateFrom { from: 5, rate: 20 },
];

const PHASES: [Shown; 6] = [
    Shown {
        time: 0,
        phase: 10_000_000,
    },
    Shown {
        time: 3,
        phase: 13_000_000,
    },
    Shown {
        time: 4,
        phase: 13_999_993,
    },
    Shown {
        time: 5,
        phase: 14_999_986,
    },
    Shown {
        time: 6,
        phase: 16_000_006,
    },
    Shown {
        time: 60_000_000,
        phase: 60_001_209_999_886,
    },
];

#[test]
fn the_last_rate_that_has_begun_holds(rt: HostRuntime) -> Result<(), Fail> {
    let clock = Clock::new(10, &RATES).ok_or("a clock")?;
    for shown in PHASES {
        assert!(rt; shown.time <= 60_000_000);
        assert_eq!(rt; clock.phase(shown.time), shown.phase);
    }
    let mut hand = Hand::new(clock);
    for shown in &PHASES[..5] {
        for _ in hand.time()..shown.time {
            assert!(rt; hand.time() < 60_000_000);
            hand.advance();
        }
        assert_eq!(rt; hand.phase(), shown.phase);
    }
    Ok(())
}

// What a clock is made of, and whether it is accepted.
#[derive(Drop)]
struct Made<'a> {
    start: u64,
    rates: &'a [RateFrom],
    accepted: bool,
}

#[test]
fn a_clock_keeps_its_limits(rt: HostRuntime) {
    let last = 1_000_000_000_000;
    let cases = [
        Made {
            start: last,
            rates: &[RateFrom { from: 0, rate: 200 }; 16],
            accepted: true,
        },
        Made {
            start: last + 1,
            rates: &[],
            accepted: false,
        },
        Made {
            start: 0,
            rates: &[RateFrom { from: 0, rate: 200 }; 17],
            accepted: false,
        },
        Made {
            start: 0,
            rates: &[RateFrom {
                from: 0,
                rate: -200,
            }],
            accepted: true,
        },
        Made {
            start: 0,
            rates: &[RateFrom {
                from: 0,
                rate: -201,
            }],
            accepted: false,
        },
        Made {
            start: 0,
            rates: &[RateFrom { from: 5, rate: 0 }, RateFrom { from: 4, rate: 0 }],
            accepted: false,
        },
    ];
    for case in &cases {
        assert_eq!(rt; Clock::new(case.start, case.rates).is_some(), case.accepted);
    }
}
