//! The text of a recording, by a journal that is made by hand.

ghost use Rattle.std.specs.Prelude.{ℕ, ◌≤◌};
ghost use Rattle.ld_base.specs.Ticks.{last_stamp};
ghost use Rattle.relay_core.specs.StationLog.{stamp_at};

use crate::recording_text;
use ld_base::{Chunk, Fields, Phases, Settings, Station};
use pingpong::{Entry, What};
use std::test::Fail;

// What happened when the clock of station 2 showed this stamp, in a tick that had begun, and the others 9 and 5.
fn entry(stamp: u32, what: What) -> Entry
    ensures { (me : ℕ) → stamp_at me result ≤ last_stamp }
{
    Entry {
        time: 7,
        phases: [9_999_999, 1_000_000 * u64::from(stamp) + 999_999, 5_000_000],
        what,
    }
}

#[test]
fn a_recording_has_the_calls_of_one_station(rt: HostRuntime) -> Result<(), Fail> {
    let me = Station::new(2).ok_or("no station")?;
    let other = Station::new(1).ok_or("no station")?;
    let settings = Settings::new(Fields::usual(2, 5)).or(Err("no settings"))?;
    let mut spelled = [0xFF; 32];
    spelled[0] = 0x9B;
    let cut = Chunk::new(12, spelled).ok_or("no chunk")?;
    let whole = Chunk::new(256, spelled).ok_or("no chunk")?;
    let slot = |station| What::Slot {
        station,
        first: [0; 32],
        second: None,
    };
    let came = |station, peer, bits| What::Came {
        station,
        peer,
        bits,
    };
    let values = Phases {
        a: 951,
        b: -309,
        c: -32_768,
    };
    let journal = [
        entry(0, slot(me)),
        entry(0, slot(other)),
        entry(4_000_000_000, came(me, other, cut)),
        entry(125, came(me, other, whole)),
        entry(126, came(me, other, Chunk::default())),
        entry(127, came(other, me, cut)),
        entry(
            1000,
            What::Took {
                station: me,
                values,
            },
        ),
        entry(
            1001,
            What::SendFailed {
                station: me,
                peer: other,
            },
        ),
        entry(
            1002,
            What::TakeFailed {
                station: me,
                peer: other,
            },
        ),
        entry(
            1003,
            What::TakeFailed {
                station: other,
                peer: me,
            },
        ),
    ];
    let text = recording_text(rt.alloc(), &settings, me, &journal)?;
    assert_eq!(rt;
        text.as_slice(),
        b"set,stations,2\nset,channels,5\nset,spacing,1000\nset,cycle,20\nset,drift,50\nset,slow,60000\n\
set,age,1000000\nset,limit,20000\nset,silent,20000\nset,count,4\nset,pickup,500\nset,rn,6\nset,rd,1\n\
set,p,-1305\nset,q,9914\nset,worda,155\nset,wordb,223\nset,misses,3\nme,2\nslot,0\n\
bits,4000000000,1,12,9bf0\n\
bits,125,1,256,9bffffffffffffffffffffffffffffffffffffffffffffffffffffffffffffff\n\
bits,126,1,0,\nsample,1000,951,-309,-32768\nfault,1001,1\nfault,1002,1\n"
            .as_slice()
    );
    Ok(())
}
