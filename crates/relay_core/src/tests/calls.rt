ghost use Rattle.std.specs.Prelude.{◌≡◌, ◌≤◌};

use super::{Post, station, ticks};
use crate::{Answer, Call};
use ld_base::{Chunk, Phases, Station};
use pingpong::{Entry, What};
use sample_store::OwnTaken;
use std::test::Fail;

// The call of a station by what happened when the three clocks showed the stamps 1, 2 and 3.
fn call_of(what: What, me: u8) -> Result<Option<Call>, Fail> {
    let entry = Entry {
        time: 7,
        phases: [1_999_999, 2_000_000, 3_500_000],
        what,
    };
    Ok(match me {
        1 => Call::of(&entry, number(1)),
        2 => Call::of(&entry, number(2)),
        _ => Call::of(&entry, number(3)),
    })
}

fn number(of: u8) -> Station
    requires { (1 ≤ of) × (of ≤ 3) }
    ensures { result ≡ of }
{
    let Some(station) = Station::new(of) else {
        unreachable!()
    };
    station
}

#[test]
fn an_entry_is_the_call_of_its_station_alone(rt: HostRuntime) -> Result<(), Fail> {
    let (one, two) = (station(1)?, station(2)?);
    let values = Phases { a: 5, b: -6, c: 7 };
    let bits = Chunk::new(9, [0xA5; 32]).ok_or("no chunk")?;
    let took = What::Took {
        station: one,
        values,
    };
    let slot = What::Slot {
        station: two,
        first: [1; 32],
        second: None,
    };
    let came = What::Came {
        station: two,
        peer: one,
        bits,
    };
    let not_sent = What::SendFailed {
        station: one,
        peer: two,
    };
    let not_taken = What::TakeFailed {
        station: station(3)?,
        peer: one,
    };
    let now = ticks(1)?;
    assert_eq!(rt; call_of(took, 1)?, Some(Call::Sample { now, values }));
    assert_eq!(rt; call_of(took, 2)?, None);
    assert_eq!(rt; call_of(slot, 2)?, Some(Call::Slot { now: ticks(2)? }));
    assert_eq!(rt; call_of(slot, 3)?, None);
    let heard = Call::Bits {
        now: ticks(2)?,
        peer: one,
        chunk: bits,
    };
    assert_eq!(rt; call_of(came, 2)?, Some(heard));
    assert_eq!(rt; call_of(came, 1)?, None);
    assert_eq!(rt; call_of(not_sent, 1)?, Some(Call::Fault { now, peer: two }));
    assert_eq!(rt; call_of(not_sent, 2)?, None);
    let failed = Call::Fault {
        now: ticks(3)?,
        peer: one,
    };
    assert_eq!(rt; call_of(not_taken, 3)?, Some(failed));
    assert_eq!(rt; call_of(not_taken, 1)?, None);
    Ok(())
}

#[test]
fn a_call_as_a_value_is_answered_as_the_call(rt: HostRuntime) -> Result<(), Fail> {
    let mut post = Post::new(rt.alloc(), 2, 1)?;
    let values = Phases { a: 5, b: -6, c: 7 };
    let now = ticks(3000)?;
    let Answer::Sampled(sampled) = post.terminal.apply(&Call::Sample { now, values }) else {
        return Err("no sample")?;
    };
    assert_eq!(rt; sampled.own, OwnTaken::Took(3));
    let Answer::Slotted(slotted) = post.terminal.apply(&Call::Slot { now }) else {
        return Err("no slot")?;
    };
    for frame in &slotted.frames {
        let begun = frame.begun.ok_or("no message")?;
        assert_eq!(rt; begun.phases, values);
    }
    assert_eq!(rt; slotted.frames.len(), 1);
    assert_eq!(rt; post.terminal.last_set().copied(), None);
    Ok(())
}
