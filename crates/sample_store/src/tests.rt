ghost use Rattle.std.specs.Prelude.{◌≡◌, ◌≤◌, Some};
ghost use Rattle.offset_track.specs.Track.{Chosen};
ghost use Rattle.sample_store.specs.Stock.{IsPeer};

use crate::{OwnTaken, Placed, Store};
use ld_base::{Fields, Phases, Settings, Station, Ticks};
use offset_track::{Fresh, Track};
use pingpong::Exchange;
use std::test::Fail;

// A stamp at which a sample is handed in, and what becomes of it.
#[derive(Clone, Copy)]
struct Handed {
    at: u64,
    taken: OwnTaken,
}

// Values with that current in phase a.
fn values(a: i16) -> Phases {
    Phases { a, b: 0, c: 0 }
}

// What is in force at a stamp where that exchange alone was accepted.
fn in_force(exchange: Exchange, now: u64) -> Option<Fresh>
    ensures { (fresh : Chosen) → result ≡ Some fresh → fresh.at ≡ now }
{
    let settings = Settings::new(Fields::usual(2, 5)).ok()?;
    let mut track = Track::new(&settings);
    track.accept(exchange);
    let fresh = track.in_force(Ticks::new(now)?)?;
    if fresh.now().get() == now {
        Some(fresh)
    } else {
        None
    }
}

// Hands in a peer's value of a number at a stamp where that exchange is in force.
fn place(
    store: &mut Store,
    peer: Station,
    exchange: Exchange,
    now: u64,
    number: u32,
    v: Phases,
) -> Option<Placed>
    requires peer { IsPeer store.old peer }
    requires now { store.old.now ≤ now }
    ensures same { (store.new.fields ≡ store.old.fields) × (store.new.me ≡ store.old.me) }
    ensures now { store.new.now ≤ now }
{
    let fresh = in_force(exchange, now)?;
    Some(store.place(fresh, peer, number, v))
}

// An exchange by which both clocks are alike.
fn alike() -> Exchange {
    Exchange {
        a1: 1000,
        b2: 1000,
        b3: 1000,
        a4: 1000,
    }
}

#[test]
fn a_sample_is_taken_once_at_its_multiple_of_the_spacing(rt: HostRuntime) -> Result<(), Fail> {
    let settings = Settings::new(Fields::usual(2, 5)).ok().ok_or("settings")?;
    let me = Station::new(1).ok_or("a station")?;
    assert!(rt; me.get() <= settings.fields().stations);
    let mut store = Store::new(&settings, me);
    let handed = [
        Handed {
            at: 5000,
            taken: OwnTaken::Took(5),
        },
        Handed {
            at: 5001,
            taken: OwnTaken::Again(5),
        },
        Handed {
            at: 6001,
            taken: OwnTaken::Took(6),
        },
        Handed {
            at: 7002,
            taken: OwnTaken::OffGrid,
        },
    ];
    let mut last = 0;
    for sample in handed {
        assert!(rt; last <= sample.at);
        let now = Ticks::new(sample.at).ok_or("a stamp")?;
        assert_eq!(rt; store.own(now, Phases::default()), sample.taken);
        last = sample.at;
    }
    Ok(())
}

#[test]
fn a_value_goes_to_the_nearest_number_and_of_two_to_the_later(rt: HostRuntime) -> Result<(), Fail> {
    let settings = Settings::new(Fields::usual(2, 5)).ok().ok_or("settings")?;
    let me = Station::new(1).ok_or("a station")?;
    let peer = Station::new(2).ok_or("a station")?;
    assert!(rt; me.get() < peer.get());
    assert!(rt; peer.get() <= settings.fields().stations);
    let mut store = Store::new(&settings, me);
    // Twice the offset is 8600, 9000 and 15001.
    let near = Exchange {
        a1: 1000,
        b2: 5600,
        b3: 5900,
        a4: 1900,
    };
    let half = Exchange {
        a1: 1000,
        b2: 5800,
        b3: 6100,
        a4: 1900,
    };
    let negative = Exchange {
        a1: 1000,
        b2: 8501,
        b3: 9400,
        a4: 1900,
    };
    assert_eq!(rt;
        place(&mut store, peer, near, 5000, 7, values(1)),
        Some(Placed::Stored(3))
    );
    assert_eq!(rt;
        place(&mut store, peer, half, 5000, 7, values(2)),
        Some(Placed::Double(3))
    );
    assert_eq!(rt;
        place(&mut store, peer, negative, 5000, 7, values(3)),
        Some(Placed::Stale(-1))
    );
    Ok(())
}

#[test]
fn a_value_is_kept_once_and_neither_too_old_nor_too_early(rt: HostRuntime) -> Result<(), Fail> {
    let settings = Settings::new(Fields::usual(2, 5)).ok().ok_or("settings")?;
    let me = Station::new(1).ok_or("a station")?;
    let peer = Station::new(2).ok_or("a station")?;
    assert!(rt; me.get() < peer.get());
    assert!(rt; peer.get() <= settings.fields().stations);
    let mut store = Store::new(&settings, me);
    assert_eq!(rt;
        place(&mut store, peer, alike(), 25_000, 5, values(1)),
        Some(Placed::Stale(5))
    );
    assert_eq!(rt;
        place(&mut store, peer, alike(), 25_000, 6, values(1)),
        Some(Placed::Stored(6))
    );
    assert_eq!(rt;
        place(&mut store, peer, alike(), 25_000, 6, values(2)),
        Some(Placed::Double(6))
    );
    assert_eq!(rt;
        place(&mut store, peer, alike(), 25_000, 26, values(1)),
        Some(Placed::Stored(26))
    );
    assert_eq!(rt;
        place(&mut store, peer, alike(), 25_000, 27, values(1)),
        Some(Placed::Ahead(27))
    );
    Ok(())
}
