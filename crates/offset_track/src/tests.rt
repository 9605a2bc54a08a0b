ghost use Rattle.std.specs.Prelude.{◌≤◌};

use crate::{Taken, Track};
use ld_base::{Fields, Settings, Ticks};
use pingpong::Exchange;
use std::test::Fail;

// An exchange of that round trip, the peer having answered at once.
fn exchange(a1: u64, there: u64, round_trip: u64) -> Exchange
    requires first { a1 ≤ 100000 }
    requires second { there ≤ 100000 }
    requires trip { round_trip ≤ 100000 }
{
    Exchange {
        a1,
        b2: there,
        b3: there,
        a4: a1 + round_trip,
    }
}

// A track with a `slow` of 60000 and an `age` of 1000000.
fn usual_track() -> Option<Track> {
    let settings = Settings::new(Fields::usual(2, 5)).ok()?;
    Some(Track::new(&settings))
}

// The `a1` of the exchange in force.
fn begun(track: &Track, now: u64) -> Option<u64> {
    Some(track.in_force(Ticks::new(now)?)?.exchange().a1)
}

// The last stamp up to which the newest candidate stays one.
fn until(track: &Track, now: u64) -> Option<u64> {
    track.aligned_until(Ticks::new(now)?)
}

#[test]
fn the_least_of_eight_is_in_force_and_of_equals_the_newest(rt: HostRuntime) -> Result<(), Fail> {
    let mut track = usual_track().ok_or("a track")?;
    assert_eq!(rt; begun(&track, 10_000), None);
    assert_eq!(rt; track.accept(exchange(1000, 5000, 600)), Taken::Kept);
    for k in 1..8u64 {
        assert_eq!(rt;
            track.accept(exchange(1000 + 1000 * k, 5000 + 1000 * k, 700)),
            Taken::Kept
        );
    }
    assert_eq!(rt; begun(&track, 10_000), Some(1000));
    assert_eq!(rt; track.accept(exchange(9000, 13_000, 700)), Taken::Kept);
    assert_eq!(rt; begun(&track, 10_000), Some(9000));
    Ok(())
}

#[test]
fn a_slow_exchange_is_not_kept_and_an_old_one_not_in_force(rt: HostRuntime) -> Result<(), Fail> {
    let mut track = usual_track().ok_or("a track")?;
    assert_eq!(rt; track.accept(exchange(2000, 5000, 60_001)), Taken::Slow);
    assert_eq!(rt; begun(&track, 1_001_000), None);
    assert_eq!(rt; track.accept(exchange(1000, 5000, 60_000)), Taken::Kept);
    assert_eq!(rt; begun(&track, 999), None);
    assert_eq!(rt; begun(&track, 1_001_000), Some(1000));
    assert_eq!(rt; begun(&track, 1_001_001), None);
    Ok(())
}

#[test]
fn a_fresh_exchange_tells_its_stamp_and_its_estimate(rt: HostRuntime) -> Result<(), Fail> {
    let mut track = usual_track().ok_or("a track")?;
    assert_eq!(rt; track.accept(exchange(1000, 5500, 600)), Taken::Kept);
    let now = Ticks::new(2000).ok_or("a stamp")?;
    let fresh = track.in_force(now).ok_or("an exchange in force")?;
    assert_eq!(rt; fresh.now(), now);
    assert_eq!(rt; fresh.exchange(), exchange(1000, 5500, 600));
    assert_eq!(rt; fresh.estimate2(), 8400);
    Ok(())
}

#[test]
fn the_newest_candidate_stays_one_up_to_its_age(rt: HostRuntime) -> Result<(), Fail> {
    let mut track = usual_track().ok_or("a track")?;
    assert_eq!(rt; until(&track, 10_000), None);
    assert_eq!(rt; track.accept(exchange(1000, 5000, 600)), Taken::Kept);
    assert_eq!(rt; until(&track, 999), None);
    assert_eq!(rt; until(&track, 1000), Some(1_001_000));
    assert_eq!(rt; until(&track, 1_001_000), Some(1_001_000));
    assert_eq!(rt; until(&track, 1_001_001), None);
    let last = Ticks::new(1_001_000).ok_or("a stamp")?;
    assert!(rt; track.is_aligned(last));
    let later = Ticks::new(1_001_001).ok_or("a stamp")?;
    assert!(rt; !track.is_aligned(later));
    Ok(())
}

#[test]
fn the_newest_lasts_once_it_has_begun(rt: HostRuntime) -> Result<(), Fail> {
    let mut track = usual_track().ok_or("a track")?;
    assert_eq!(rt; track.accept(exchange(1000, 5000, 600)), Taken::Kept);
    assert_eq!(rt; track.accept(exchange(9000, 13_000, 700)), Taken::Kept);
    assert_eq!(rt; until(&track, 8999), Some(1_001_000));
    assert_eq!(rt; until(&track, 9000), Some(1_009_000));
    assert_eq!(rt; begun(&track, 9000), Some(1000));
    assert_eq!(rt; until(&track, 1_009_001), None);
    Ok(())
}
