//! A run of a scenario, from its first tick to its end.

ghost use Rattle.std.specs.Prelude.{◌≡◌, ◌≤◌, ◌++◌, ◌∷◌, List, [], Some, IfOk, OnOk, filter, length, map, nat_le, zip};
ghost use Rattle.bench_cmd.specs.ReportText.{report_of, totals_of};
ghost use Rattle.bench_cmd.specs.TrueRuns.{KeepsCalm};
ghost use Rattle.calm_channel.specs.Calm.{IsCalm};
ghost use Rattle.line_journal.specs.Stations.{stations as stations_of, ways};
ghost use Rattle.line_world.specs.Passes.{counted, counted_after};
ghost use Rattle.line_world.specs.Run.{Run, lines_of};
ghost use Rattle.line_world.specs.Worlds.{FollowsScript, Grows, HasEnded, IsOver, IsWorld};
ghost use Rattle.true_time.specs.TrueTime.{KeepsTrueTime};

use crate::report_text::report_text;
use crate::script_wires::script_wires;
use calm_channel::laws::{
    a_calm_run_is_honest, an_exchange_is_in_force_from_a_tick_on, every_message_comes_at_its_tick,
    no_alarm_unaligned_turns_on_from_a_tick_on,
};
use ld_base::{NoMemory, Station, Wire};
use line_world::{ScriptWire, Stepped, Total, World};
use std::alloc::Global;
use true_time::laws::a_journal_keeps_true_time;
use waveform_reader::Scenario;

/// The most stations.
const MOST: usize = 3;

/// Runs a scenario to its end over these wires, one for each directed line, in the order of the receiver and then of the sender. It
/// gives back the world, whose next step answers `Ended`, with the text of the report of its journal. On `NoMemory` the scenario
/// and the wires are dropped.
pub fn report<W: Wire>(
    alloc: Global,
    scenario: Scenario,
    wires: Vec<W>,
) -> Result<(World<W>, Vec<u8>), NoMemory>
    requires { length wires.items ≡ length (ways scenario.settings) }
    ensures setup { IfOk result (λ made. made.0.setup ≡ scenario) }
    ensures ended { IfOk result (λ made. HasEnded made.0) }

    // Each line has its wire, whose count of faults rose by the calls on it that failed.
    ensures wires { IfOk result (λ made. map counted made.0.wires
        ≡ map (counted_after W.faults made.0.journal) (zip (ways scenario.settings) wires.items)) }
    ensures over { IfOk result (λ made. (held : List W) × IsOver W.faults W.script W.next_tick held made.0) }
    ensures world { IfOk result (λ made. IsWorld made.0) }
    ensures text { IfOk result (λ made. made.1.items ≡ report_of scenario made.0.journal) }

    // Over the script wires of the scenario it is the report of its run.
    ensures run { map W.script wires.items ≡ map (λ line. Some line.script) (lines_of scenario.settings scenario.rules)
        → IfOk result (λ made. made.0.journal ≡ Run scenario) }
    ensures follows { map W.script wires.items ≡ map (λ line. Some line.script) (lines_of scenario.settings scenario.rules)
        → IfOk result (λ made. FollowsScript made.0) }

    // Whatever its wires did, the journal keeps true time.
    ensures time { IfOk result (λ made. KeepsTrueTime scenario.settings made.0.journal) }

    // Over the script wires of a calm scenario it keeps calm.
    ensures calm { map W.script wires.items ≡ map (λ line. Some line.script) (lines_of scenario.settings scenario.rules) → IsCalm scenario
        → IfOk result (λ made. KeepsCalm scenario made.0.journal) }
{
    let stations = scenario.settings().fields().stations;
    let end = scenario.end();
    let mut world = World::new(alloc, scenario, wires)?;
    run_to_end(&mut world)?;
    let totals = totals_of(alloc, &world, stations)?;
    let text = report_text(alloc, world.lines(), &totals, world.forged(), end)?;
    // The law is one of the world's journal.
    let _ = world.journal();
    a_journal_keeps_true_time();
    a_calm_run_is_honest();
    every_message_comes_at_its_tick();
    an_exchange_is_in_force_from_a_tick_on();
    no_alarm_unaligned_turns_on_from_a_tick_on();
    Ok((world, text))
}

/// A scenario's world at the end of its run.
pub(crate) fn run_of(alloc: Global, scenario: Scenario) -> Result<World<ScriptWire>, NoMemory>
    ensures setup { IfOk result (λ world. world.setup ≡ scenario) }
    ensures run { IfOk result (λ world. world.journal ≡ Run scenario) }
{
    let wires = script_wires(alloc, &scenario)?;
    let mut world = World::new(alloc, scenario, wires)?;
    run_to_end(&mut world)?;
    Ok(world)
}

/// Steps a world until it ends.
pub(crate) fn run_to_end<W: Wire>(world: &mut World<W>) -> Result<(), NoMemory>
    ensures setup { world.new.setup ≡ world.old.setup }
    ensures ended { OnOk result (HasEnded world.new) }
    ensures world { IsWorld world.new }
    ensures run { OnOk result (FollowsScript world.old → world.new.journal ≡ Run world.old.setup) }
    ensures follows { OnOk result (FollowsScript world.old → FollowsScript world.new) }
    ensures grows { OnOk result (Grows world.old world.new) }
    ensures over { OnOk result ((wires : List W) × IsOver W.faults W.script W.next_tick wires world.new) }
{
    'running: while let Stepped::Went(_) = world.step()? {}
    Ok(())
}

/// What each station of so many counted, in order.
pub(crate) fn totals_of<W: Wire>(
    alloc: Global,
    world: &World<W>,
    stations: u8,
) -> Result<Vec<Total>, NoMemory>
    requires { stations ≡ world.now.setup.settings.stations }
    ensures { IfOk result (λ totals. totals.items ≡ totals_of world.now.setup.settings world.now.journal (stations_of world.now.setup.settings)) }
{
    let mut totals = Vec::with_capacity(alloc, MOST)?;
    add_total(&mut totals, world, stations, 1)?;
    add_total(&mut totals, world, stations, 2)?;
    add_total(&mut totals, world, stations, 3)?;
    Ok(totals)
}

// Adds what a station counted, where the line has a station of that number.
fn add_total<W: Wire>(
    totals: &mut Vec<Total>,
    world: &World<W>,
    stations: u8,
    number: u8,
) -> Result<(), NoMemory>
    requires stations { stations ≡ world.now.setup.settings.stations }
    requires number { (1 ≤ number) × (number ≤ 3) }
    ensures { OnOk result (totals.new.items ≡ totals.old.items
        ++ totals_of world.now.setup.settings world.now.journal (filter (λ station. nat_le station stations) (number ∷ []))) }
{
    if number > stations {
        return Ok(());
    }
    let Some(station) = Station::new(number) else {
        unreachable!()
    };
    totals.push(world.total(station))?;
    Ok(())
}
