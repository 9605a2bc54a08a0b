//! Worlds over wires that do what a script says, and over wires that give nothing.

ghost use Rattle.std.specs.Prelude.{◌≡◌, OnOk};

use super::{scenario, station, wires_of};
use channel_alarm::{Alarm, Turn};
use ld_base::{HandWire, NoMemory, Wire};
use line_world::{Line, Stepped, Total, World, directed_lines};
use std::alloc::Global;
use std::test::Fail;
use waveform_reader::Scenario;

// Load current between two stations, without the end of the run.
const LOAD: &str =
    "set,stations,2\nset,channels,5\nset,drift,20\nclock,2,4200\ndelay,0,1,2,3000\ndelay,0,2,1,3000\nwave,0,1,1000,0,1000,13,1000,7\nwave,0,2,1000,10,1000,3,1000,17\n";

// Load current until a tick.
fn load(alloc: Global, end: u32) -> Result<Scenario, Fail> {
    let text = format!(in alloc; "set,end,{end}\n{LOAD}")?;
    scenario(alloc, text.as_bytes())
}

// How many steps a world makes, of at most so many.
fn steps<W: Wire>(world: &mut World<W>, most: u32) -> Result<u32, NoMemory>
    ensures { OnOk result (world.new.setup ≡ world.old.setup) }
{
    let mut went = 0u32;
    for _ in 0..most {
        if let Stepped::Went(_) = world.step()? {
            went = went.saturating_add(1);
        }
    }
    Ok(went)
}

#[test]
fn a_run_goes_from_one_tick_that_is_due_to_the_next(rt: HostRuntime) -> Result<(), Fail> {
    let alloc = rt.alloc();
    let scenario = load(alloc, 200_000)?;
    let wires = wires_of(alloc, &scenario)?;
    let mut world = World::new(alloc, scenario, wires)?;
    for tick in [0, 125, 250, 375, 500, 625, 750, 800, 875] {
        assert_eq!(rt; world.step()?, Stepped::Went(tick));
    }
    // A slot at each multiple of 125, and the samples of station 2, which no slot meets.
    assert_eq!(rt; steps(&mut world, 2000)?, 1600 + 200 - 9);
    assert_eq!(rt; world.step()?, Stepped::Ended);
    Ok(())
}

#[test]
fn silent_wires_raise_alarms_alone(rt: HostRuntime) -> Result<(), Fail> {
    let alloc = rt.alloc();
    let scenario = load(alloc, 50_000)?;
    assert_eq!(rt; scenario.settings().fields().stations, 2);
    // The wire from station 2 to station 1, whose first take fails, and the one back.
    let mut failing = Vec::new(alloc);
    failing.push(0)?;
    let mut wires = Vec::new(alloc);
    wires.push(HandWire::new(Vec::new(alloc), Vec::new(alloc), failing))?;
    wires.push(HandWire::new(Vec::new(alloc), Vec::new(alloc), Vec::new(alloc)))?;
    assert_eq!(rt; wires.len(), directed_lines(scenario.settings()).len());
    let mut world = World::new(alloc, scenario, wires)?;
    // Such a wire may give something at any tick, so each tick is gone to.
    assert_eq!(rt; steps(&mut world, 50_001)?, 50_000);
    let told = [
        (0, 1, 2, Alarm::Unlocked),
        (0, 1, 2, Alarm::Unaligned),
        (0, 1, 2, Alarm::Fault),
        (0, 2, 1, Alarm::Unlocked),
        (0, 2, 1, Alarm::Unaligned),
        (20_125, 1, 2, Alarm::Silent),
        (20_125, 2, 1, Alarm::Silent),
    ];
    assert_eq!(rt; world.lines().len(), told.len());
    for (time, me, peer, alarm) in told {
        let line = Line::Alarm {
            time,
            station: station(me)?,
            peer: station(peer)?,
            turn: Turn { alarm, on: true },
        };
        assert!(rt; world.lines().contains(&line), "{line:?}");
    }
    assert_eq!(rt; world.total(station(1)?), Total::default());
    assert_eq!(rt; world.total(station(2)?), Total::default());
    assert_eq!(rt; world.forged(), 0);
    Ok(())
}
