use crate::{Mixed, Mixer};
use ld_base::{Echo, Fields, Message, Phases, Settings, Station, Ticks};
use pingpong::Exchange;
use std::test::Fail;

fn phases(a: i16, b: i16, c: i16) -> Phases {
    Phases { a, b, c }
}

// A mixer with a spacing of 1000, a `slow` of 60000 and an `age` of 1000000.
fn usual_mixer() -> Result<Mixer, Fail> {
    let settings = Settings::new(Fields::usual(2, 5))
        .ok()
        .ok_or("no settings")?;
    Ok(Mixer::new(&settings))
}

// A message from station 2 to station 1, with the stamps of its echo, where they are given.
fn message(
    number: u32,
    sent: u64,
    echo: Option<(u64, u64)>,
    phases: Phases,
) -> Result<Message, Fail> {
    let from = Station::new(2).ok_or("no station")?;
    let to = Station::new(1).ok_or("no station")?;
    if from == to || sent >= 1 << 48 {
        return Err(Fail::from("no message"));
    }
    let echo = match echo {
        None => None,
        Some((sent, came)) if sent < 1 << 48 && came < 1 << 48 => Some(Echo { sent, came }),
        Some(_) => return Err(Fail::from("no echo")),
    };
    Ok(Message {
        from,
        to,
        number,
        sent,
        echo,
        phases,
    })
}

// What is mixed of a message, as it is heard at that stamp.
fn heard(mixer: &mut Mixer, now: u64, m: Message) -> Result<Option<Mixed>, Fail> {
    let now = Ticks::new(now).ok_or("no stamp")?;
    Ok(mixer.hear(now, &m))
}

// What is mixed of messages `first` and `first + 1`, the second of which completes at the stamp `now` an exchange that began at
// 1000, the peer having answered at once at its stamp `there`.
fn mixed(
    first: u32,
    there: u64,
    now: u64,
    one: Phases,
    other: Phases,
) -> Result<Option<Mixed>, Fail> {
    let mut mixer = usual_mixer()?;
    let before = heard(&mut mixer, 900, message(first, 0, None, one)?)?;
    if before.is_some() {
        return Err(Fail::from("mixed of one message"));
    }
    let next = first.checked_add(1).ok_or("no number")?;
    let m = message(next, there, Some((1000, there)), other)?;
    heard(&mut mixer, now, m)
}

#[test]
fn the_peers_current_is_mixed_at_the_own_instant(rt: HostRuntime) -> Result<(), Fail> {
    // The first messages of station 2 in a run with load: only the fifth has an echo.
    let mut mixer = usual_mixer()?;
    for k in 0..4u64 {
        let values = match k {
            3 => phases(-587, -309, 1000),
            _ => phases(0, 0, 0),
        };
        let m = message(5 + k as u32, 5075 + 1000 * k, None, values)?;
        assert_eq!(rt; heard(&mut mixer, 4750 + 1000 * k, m)?, None);
    }
    let m = message(9, 9075, Some((1000, 9075)), phases(-309, -587, 951))?;
    let exchange = Exchange {
        a1: 1000,
        b2: 9075,
        b3: 9075,
        a4: 8750,
    };
    let wanted = Mixed {
        own: 4,
        first: 8,
        weight: 400,
        exchange,
        values: phases(-532, -365, 990),
    };
    assert_eq!(rt; heard(&mut mixer, 8750, m)?, Some(wanted));
    Ok(())
}

// The own number, the weight and the values, where something is mixed.
fn parts(mixed: Option<Mixed>) -> Option<(u32, u32, Phases)> {
    let mixed = mixed?;
    Some((mixed.own, mixed.weight, mixed.values))
}

#[test]
fn each_weight_rounds_down(rt: HostRuntime) -> Result<(), Fail> {
    let one = phases(-3, 5, 100);
    let other = phases(-4, -5, 101);
    // Twice the offset is 8000, 9999 and 9000.
    let rows = [
        (5000, 1000, 0, phases(-3, 5, 100)),
        (6000, 1001, 1999, phases(-4, -5, 100)),
        (5500, 1000, 1000, phases(-4, 0, 100)),
    ];
    for (there, now, weight, values) in rows {
        assert_eq!(rt;
            parts(mixed(8, there, now, one, other)?),
            Some((4, weight, values))
        );
    }
    let one = phases(-32768, 32767, -32768);
    let other = phases(32767, -32768, -32768);
    let rows = [
        (5000, 1000, 0, one),
        (6000, 1001, 1999, phases(32734, -32736, -32768)),
        (5500, 1000, 1000, phases(-1, -1, -32768)),
    ];
    for (there, now, weight, values) in rows {
        assert_eq!(rt;
            parts(mixed(8, there, now, one, other)?),
            Some((4, weight, values))
        );
    }
    Ok(())
}

#[test]
fn own_numbers_end_where_those_of_samples_do(rt: HostRuntime) -> Result<(), Fail> {
    // Twice the offset is 1999 and 2000 in the first two rows, 0, -1, -2000 and -2001 in the others.
    let rows = [
        (0, 2000, 1001, Some((0, 1999))),
        (0, 2000, 1000, None),
        (4_294_967_294, 1000, 1000, Some((4_294_967_294, 0))),
        (4_294_967_294, 1000, 1001, Some((4_294_967_295, 1999))),
        (4_294_967_294, 0, 1000, Some((4_294_967_295, 0))),
        (4_294_967_294, 0, 1001, None),
    ];
    let same = phases(7, -7, 0);
    for (first, there, now, wanted) in rows {
        let got = parts(mixed(first, there, now, same, same)?);
        assert_eq!(rt; got, wanted.map(|(own, weight)| (own, weight, same)));
    }
    Ok(())
}

#[test]
fn nothing_is_mixed_over_a_gap(rt: HostRuntime) -> Result<(), Fail> {
    let mut mixer = usual_mixer()?;
    let same = phases(1, 2, 3);
    // Twice the offset is 0.
    let rows = [
        (8, None),
        (9, Some((8, 0, same))),
        (11, None),
        (12, Some((11, 0, same))),
        (15, None),
    ];
    for (number, wanted) in rows {
        let m = message(number, 1000, Some((1000, 1000)), same)?;
        assert_eq!(rt; parts(heard(&mut mixer, 1000, m)?), wanted);
    }
    Ok(())
}

#[test]
fn nothing_is_mixed_where_nothing_is_in_force(rt: HostRuntime) -> Result<(), Fail> {
    let mut mixer = usual_mixer()?;
    let same = phases(1, 2, 3);
    // No echo; a round trip of 60001 and one of 60000; the same exchange at its greatest age, and a tick later.
    let rows = [
        (8, 1000, 1000, None, None),
        (9, 2000, 2000, None, None),
        (10, 31_000, 61_001, Some(1000), None),
        (11, 32_000, 62_000, Some(2000), Some(10)),
        (12, 33_000, 1_002_000, None, Some(11)),
        (13, 34_000, 1_002_001, None, None),
    ];
    for (number, sent, now, echo, wanted) in rows {
        let m = message(number, sent, echo.map(|a1| (a1, sent)), same)?;
        assert_eq!(rt; heard(&mut mixer, now, m)?.map(|mixed| mixed.own), wanted);
    }
    Ok(())
}

#[test]
fn the_own_exchange_counts_where_it_is_no_slower(rt: HostRuntime) -> Result<(), Fail> {
    let mut mixer = usual_mixer()?;
    let same = phases(1, 2, 3);
    // The stamps at which an exchange began and ended, and the beginning of the one in force.
    let rows = [
        (8, 1000, 1600, None),
        (9, 2000, 2700, Some(1000)),
        (10, 3000, 3600, Some(3000)),
    ];
    for (number, a1, a4, wanted) in rows {
        let m = message(number, a1, Some((a1, a1)), same)?;
        assert_eq!(rt;
            heard(&mut mixer, a4, m)?.map(|mixed| mixed.exchange.a1),
            wanted
        );
    }
    Ok(())
}
