//! What happens in a tick, line by line and station by station.

ghost use Rattle.std.specs.Prelude.{◌≡◌, ◌+◌, ◌≤◌, ℕ, ◌∷◌, [], All, OnErr, OnOk, Some, find, length, map, option_map, suc, slice_index, true, ◌==◌};
ghost use Rattle.std.specs.List.{flat_map, list_any};
ghost use Rattle.c3794_frame.specs.Numbers.{bits_of};
ghost use Rattle.line_world.specs.Terminals.{IsNow};
ghost use Rattle.line_world.specs.Occasions.{arrivals, at_tick, moments_at, samplings, slot_of};
ghost use Rattle.line_journal.specs.Stations.{stations};
ghost use Rattle.line_world.specs.Occasions.Occasion.{departure, sampling};
ghost use Rattle.line_world.specs.Passes.{Passes, scene_of};
ghost use Rattle.line_world.specs.Run.{newest_frame};
ghost use Rattle.line_world.specs.Tick.{AreLines, CutShort, IsNextSample};
ghost use Rattle.line_world.specs.World.{Leads};
ghost use Rattle.relay_core.specs.Log.{peers};
ghost use Rattle.waveform_reader.specs.Sound.{IsStation};

use crate::cable::Cable;
use crate::sampler::next_sample;
use crate::terminals::Terminals;
use ld_base::{NoMemory, Station, Wire};
use line_journal::{Now, stations_of};
use relay_core::Outgoing;

/// A slot comes every 125 ticks.
pub(crate) const SLOT_TICKS: u64 = 125;

/// Carries out a tick: every line is asked, stations take their samples, and at a slot their frames go out. `samples` has for
/// each station the tick of its next sample. On `NoMemory` what wasn't carried out begins with a frame that goes out.
pub(crate) fn carry_out<W: Wire>(
    terminals: &mut Terminals,
    cables: &mut [Cable<W>],
    now: &Now,
    samples: &mut [u64; 3],
) -> Result<(), NoMemory>
    requires room { 18 ≤ terminals.old.room }
    requires now { IsNow terminals.old.setup now.now }
    requires early { now.now.tick ≤ 20000000 }
    requires lines { AreLines terminals.old.setup.settings cables.old }
    requires samples { (k : ℕ) → suc k ≤ terminals.old.setup.settings.stations → IsNextSample terminals.old.setup (suc k) now.now.tick (slice_index samples.old k) }
    ensures setup { terminals.new.setup ≡ terminals.old.setup }
    ensures lines { AreLines terminals.old.setup.settings cables.new }
    ensures next { OnOk result ((k : ℕ) → suc k ≤ terminals.old.setup.settings.stations → IsNextSample terminals.old.setup (suc k) (suc now.now.tick) (slice_index samples.new k)) }
    ensures passes { OnOk result (Passes terminals.old.setup (moments_at terminals.old.setup.settings now.now.tick)
        (scene_of W.faults W.script terminals.old cables.old) (scene_of W.faults W.script terminals.new cables.new)) }
    ensures cut { OnErr result (CutShort terminals.old.setup (moments_at terminals.old.setup.settings now.now.tick)
        (scene_of W.faults W.script terminals.old cables.old) (scene_of W.faults W.script terminals.new cables.new)) }
{
    receive(terminals, cables, now);
    sample(terminals, now, samples);
    if now.tick % SLOT_TICKS != 0 {
        return Ok(());
    }
    speak(terminals, cables, now)
}

// Asks every line.
fn receive<W: Wire>(terminals: &mut Terminals, cables: &mut [Cable<W>], now: &Now)
    requires room { length cables.old ≤ terminals.old.room }
    requires now { IsNow terminals.old.setup now.now }
    requires lines { AreLines terminals.old.setup.settings cables.old }
    ensures setup { terminals.new.setup ≡ terminals.old.setup }
    ensures room { terminals.old.room ≤ terminals.new.room + length cables.old }
    ensures lines { AreLines terminals.old.setup.settings cables.new }
    ensures passes { Passes terminals.old.setup (at_tick now.now.tick (arrivals terminals.old.setup.settings))
        (scene_of W.faults W.script terminals.old cables.old) (scene_of W.faults W.script terminals.new cables.new) }
{
    for cable in cables.iter_mut() {
        cable.receive(terminals, now);
    }
}

// Takes the samples of a tick.
fn sample(terminals: &mut Terminals, now: &Now, samples: &mut [u64; 3])
    requires room { 3 ≤ terminals.old.room }
    requires now { IsNow terminals.old.setup now.now }
    requires early { now.now.tick ≤ 20000000 }
    requires samples { (k : ℕ) → suc k ≤ terminals.old.setup.settings.stations → IsNextSample terminals.old.setup (suc k) now.now.tick (slice_index samples.old k) }
    ensures setup { terminals.new.setup ≡ terminals.old.setup }
    ensures room { terminals.old.room ≤ terminals.new.room + 3 }
    ensures next { (k : ℕ) → suc k ≤ terminals.old.setup.settings.stations → IsNextSample terminals.old.setup (suc k) (suc now.now.tick) (slice_index samples.new k) }
    ensures leads { Leads terminals.old.setup (at_tick now.now.tick (samplings terminals.old.setup.settings)) terminals.old.journal terminals.new.journal }
{
    let stations = stations_of(terminals.scenario().settings());
    for station in stations.iter() {
        let place = usize::from(station.get()) - 1;
        samples[place] = sample_one(terminals, now, *station, samples[place]);
    }
}

// Takes a station's sample where it is due at this tick, and tells the tick of the one that is due after it.
fn sample_one(terminals: &mut Terminals, now: &Now, station: Station, next: u64) -> u64
    requires room { 1 ≤ terminals.old.room }
    requires now { IsNow terminals.old.setup now.now }
    requires early { now.now.tick ≤ 20000000 }
    requires there { IsStation terminals.old.setup.settings.stations station }
    requires next { IsNextSample terminals.old.setup station now.now.tick next }
    ensures setup { terminals.new.setup ≡ terminals.old.setup }
    ensures room { terminals.old.room ≤ terminals.new.room + 1 }
    ensures next { IsNextSample terminals.old.setup station (suc now.now.tick) result }
    ensures leads { Leads terminals.old.setup (at_tick now.now.tick (sampling station ∷ [])) terminals.old.journal terminals.new.journal }
{
    if next != now.tick {
        return next;
    }
    terminals.sample(now, station);
    next_sample(terminals.scenario(), station, now.tick + 1)
}

// Gives each station its slot, and sends its frames.
fn speak<W: Wire>(
    terminals: &mut Terminals,
    cables: &mut [Cable<W>],
    now: &Now,
) -> Result<(), NoMemory>
    requires room { 9 ≤ terminals.old.room }
    requires now { IsNow terminals.old.setup now.now }
    requires lines { AreLines terminals.old.setup.settings cables.old }
    ensures setup { terminals.new.setup ≡ terminals.old.setup }
    ensures lines { AreLines terminals.old.setup.settings cables.new }
    ensures passes { OnOk result (Passes terminals.old.setup (at_tick now.now.tick (flat_map (slot_of terminals.old.setup.settings) (stations terminals.old.setup.settings)))
        (scene_of W.faults W.script terminals.old cables.old) (scene_of W.faults W.script terminals.new cables.new)) }
    ensures cut { OnErr result (CutShort terminals.old.setup (at_tick now.now.tick (flat_map (slot_of terminals.old.setup.settings) (stations terminals.old.setup.settings)))
        (scene_of W.faults W.script terminals.old cables.old) (scene_of W.faults W.script terminals.new cables.new)) }
{
    let stations = stations_of(terminals.scenario().settings());
    for station in stations.iter() {
        let frames = terminals.slot(now, *station);
        send(terminals, cables, now, *station, &frames)?;
    }
    Ok(())
}

// Sends a station's frames on its lines.
fn send<W: Wire>(
    terminals: &mut Terminals,
    cables: &mut [Cable<W>],
    now: &Now,
    sender: Station,
    frames: &[Outgoing],
) -> Result<(), NoMemory>
    requires room { 2 ≤ terminals.old.room }
    requires now { IsNow terminals.old.setup now.now }
    requires lines { AreLines terminals.old.setup.settings cables.old }
    requires there { IsStation terminals.old.setup.settings.stations sender }
    requires peers { map (λ o. o.to) frames.now ≡ peers terminals.old.setup.settings sender }
    requires frames { All (λ o. newest_frame terminals.old.setup.settings sender o.to terminals.old.journal ≡ bits_of o.bytes) frames.now }
    ensures setup { terminals.new.setup ≡ terminals.old.setup }
    ensures room { OnOk result (terminals.old.room ≤ terminals.new.room + 2) }
    ensures lines { AreLines terminals.old.setup.settings cables.new }
    ensures passes { OnOk result (Passes terminals.old.setup (at_tick now.now.tick (map (departure sender) (peers terminals.old.setup.settings sender)))
        (scene_of W.faults W.script terminals.old cables.old) (scene_of W.faults W.script terminals.new cables.new)) }
    ensures cut { OnErr result (CutShort terminals.old.setup (at_tick now.now.tick (map (departure sender) (peers terminals.old.setup.settings sender)))
        (scene_of W.faults W.script terminals.old cables.old) (scene_of W.faults W.script terminals.new cables.new)) }
{
    for cable in cables.iter_mut() {
        if cable.from != sender {
            continue;
        }
        cable.send(terminals, now, frame_to(frames, cable.to))?;
    }
    Ok(())
}

// The first frame to a station that has one.
fn frame_to<'a>(frames: &'a [Outgoing], to: Station) -> &'a [u8; 32]
    requires { list_any (λ o. o.to == to) frames.now ≡ true }
    ensures { Some result.now ≡ option_map (λ o. o.bytes) (find (λ o. o.to == to) frames.now) }
{
    match frames.iter().find(|frame| frame.to == to) {
        Some(frame) => &frame.bytes,
        None => unreachable!(),
    }
}
