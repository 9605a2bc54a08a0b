//! The terminals of a line, and the journal of what happened to them.

ghost use Rattle.std.specs.Prelude.{◌≡◌, ℕ, ◌-◌, ◌≤◌, [], All, IfOk, None, OnOk, length, map};
ghost use Rattle.c3794_frame.specs.Numbers.{bits_of};
ghost use Rattle.ld_base.specs.Bits.{line_bytes};
ghost use Rattle.ld_base.specs.Settings.{setting_fault};
ghost use Rattle.ld_base.specs.declared.fields.Fields.{Fields};
ghost use Rattle.pingpong.specs.declared.journal.What.TheVariants as what;
ghost use Rattle.relay_core.specs.Log.{peers};
ghost use Rattle.waveform_reader.specs.Shapes.{value_at};
ghost use Rattle.waveform_reader.specs.Sound.{IsSetup, IsStation};
ghost use Rattle.line_journal.specs.Stations.{ArePair};
ghost use Rattle.line_world.specs.Terminals.{HasEntry, IsNow};
ghost use Rattle.line_journal.specs.Crossings.{Forged};
ghost use Rattle.line_journal.specs.Report.{Lines};
ghost use Rattle.line_world.specs.Run.{newest_frame};
ghost use Rattle.line_journal.specs.Totals.{TotalOf};
ghost use Rattle.line_world.specs.Stationed.{AreTerminals};
ghost use Rattle.relay_core.specs.StationLog.{StationLog};
ghost use Rattle.line_world.specs.World.{entry_of, frames_at, slot_with};
ghost use Rattle.relay_core.specs.StandsFor.{StandsFor};

use arrayvec::ArrayVec;
use ld_base::{Chunk, NoMemory, Settings, Station};
use line_journal::{Account, Line, Now, Total, stations_of};
use pingpong::{Entry, What};
use relay_core::{Outgoing, Terminal};
use std::alloc::Global;
use std::marker::Model;
use waveform_reader::Scenario;

/// The most entries of a tick: six lines are asked, three stations take samples and have slots, and six frames go out.
const MOST_ENTRIES: usize = 18;

/// The terminals of a scenario and its journal. Each terminal stands for its station's log.
#[derive(Drop)]
pub(crate) struct Terminals {
    scenario: Scenario,
    terminals: Vec<Terminal>,
    journal: Vec<Entry>,
    account: Account,
}

impl Model for Terminals {
    ghost use Rattle.line_world.specs.Terminals.{Terminals};

    ghost Value = { Terminals };

    ghost use Rattle.line_world.specs.Stationed.{AreKept, seen_of};

    ghost view = { seen_of };

    ghost invariant = { AreKept };
}

impl Terminals {
    /// The terminals of a scenario before the first call, and an empty journal.
    pub(crate) fn new(alloc: Global, scenario: Scenario) -> Result<Terminals, NoMemory>
        ensures setup { IfOk result (λ terminals. terminals.setup ≡ scenario) }
        ensures journal { IfOk result (λ terminals. terminals.journal ≡ []) }
    {
        let terminals = terminals_of(alloc, scenario.settings())?;
        let account = Account::new(alloc, scenario.settings())?;
        Ok(Terminals {
            scenario,
            terminals,
            journal: Vec::new(alloc),
            account,
        })
    }

    /// The scenario.
    pub(crate) fn scenario(&self) -> &Scenario
        ensures setup { result.now ≡ self.now.setup }
        ensures kept { IsSetup self.now.setup }
    {
        let _ = self.scenario.settings();
        &self.scenario
    }

    /// The journal.
    pub(crate) fn journal(&self) -> &[Entry]
        ensures { result.now ≡ self.now.journal }
    {
        &self.journal
    }

    /// The lines of the report.
    pub(crate) fn lines(&self) -> &[Line]
        ensures { result.now ≡ Lines self.now.setup.settings self.now.journal }
    {
        self.account.lines()
    }

    /// What a station counted.
    pub(crate) fn total(&self, station: Station) -> Total
        requires { IsStation self.now.setup.settings.stations station }
        ensures { result ≡ TotalOf self.now.setup.settings station (StationLog station self.now.journal) }
    {
        self.account.total(station)
    }

    /// How many accepted messages don't equal one that began earlier on their line.
    pub(crate) fn forged(&self) -> u64
        ensures { result ≡ Forged self.now.setup.settings self.now.journal }
    {
        self.account.forged()
    }

    /// The terminal of a station.
    pub(crate) fn terminal(&self, station: Station) -> &Terminal
        requires { IsStation self.now.setup.settings.stations station }
        ensures settings { result.now.settings ≡ self.now.setup.settings }
        ensures station { result.now.me ≡ station }
        ensures stands { StandsFor result.now (StationLog station self.now.journal) }
    {
        &self.terminals[place_of(station)]
    }

    /// Makes room for all that a tick can add to the journal.
    pub(crate) fn make_room(&mut self) -> Result<(), NoMemory>
        ensures setup { self.new.setup ≡ self.old.setup }
        ensures journal { self.new.journal ≡ self.old.journal }
        ensures room { OnOk result (18 ≤ self.new.room) }
    {
        self.journal.reserve(MOST_ENTRIES)?;
        self.account.make_room(MOST_ENTRIES)
    }

    /// Bits came to a station on its line from a peer.
    pub(crate) fn came(&mut self, now: &Now, receiver: Station, sender: Station, bits: Chunk)
        requires room { 1 ≤ self.old.room }
        requires now { IsNow self.old.setup now.now }
        requires two { ArePair self.old.setup.settings.stations receiver sender }
        ensures { HasEntry self.old self.new (entry_of self.old.setup now.now.tick (what.Came receiver sender bits)) }
    {
        let stamp = now.stamp(receiver);
        let terminal = &mut self.terminals[place_of(receiver)];
        let heard = terminal.bits(stamp, sender, &bits);
        let at = terminal.clock().unwrap_or(stamp);
        self.account.heard(now, receiver, sender, at, &heard);
        let what = What::Came {
            station: receiver,
            peer: sender,
            bits,
        };
        self.journal.push_reserved(entry(now, what));
    }

    /// The line from a peer couldn't be read at a station.
    pub(crate) fn take_failed(&mut self, now: &Now, receiver: Station, sender: Station)
        requires room { 1 ≤ self.old.room }
        requires now { IsNow self.old.setup now.now }
        requires two { ArePair self.old.setup.settings.stations receiver sender }
        ensures { HasEntry self.old self.new (entry_of self.old.setup now.now.tick (what.TakeFailed receiver sender)) }
    {
        let stamp = now.stamp(receiver);
        let terminal = &mut self.terminals[place_of(receiver)];
        let changes = terminal.fault(stamp, sender);
        self.account.faulted(now, receiver, &changes);
        let what = What::TakeFailed {
            station: receiver,
            peer: sender,
        };
        self.journal.push_reserved(entry(now, what));
    }

    /// A frame of a station to a peer couldn't be sent.
    pub(crate) fn send_failed(&mut self, now: &Now, sender: Station, receiver: Station)
        requires room { 1 ≤ self.old.room }
        requires now { IsNow self.old.setup now.now }
        requires two { ArePair self.old.setup.settings.stations sender receiver }
        ensures entry { HasEntry self.old self.new (entry_of self.old.setup now.now.tick (what.SendFailed sender receiver)) }
        ensures frames { (f : Fields) (from to : ℕ) → newest_frame f from to self.new.journal ≡ newest_frame f from to self.old.journal }
    {
        let stamp = now.stamp(sender);
        let terminal = &mut self.terminals[place_of(sender)];
        let changes = terminal.fault(stamp, receiver);
        self.account.faulted(now, sender, &changes);
        let what = What::SendFailed {
            station: sender,
            peer: receiver,
        };
        self.journal.push_reserved(entry(now, what));
    }

    /// A station takes the sample of a true tick.
    pub(crate) fn sample(&mut self, now: &Now, station: Station)
        requires room { 1 ≤ self.old.room }
        requires now { IsNow self.old.setup now.now }
        requires there { IsStation self.old.setup.settings.stations station }
        ensures { HasEntry self.old self.new
            (entry_of self.old.setup now.now.tick (what.Took station (value_at self.old.setup.settings self.old.setup.shapes station now.now.tick))) }
    {
        let stamp = now.stamp(station);
        let values = self.scenario.value(station, now.tick);
        let terminal = &mut self.terminals[place_of(station)];
        let sampled = terminal.sample(stamp, values);
        self.account.sampled(now, station, &sampled);
        let what = What::Took { station, values };
        self.journal.push_reserved(entry(now, what));
    }

    /// A station has its slot: its frames, one to each peer in order.
    pub(crate) fn slot(&mut self, now: &Now, station: Station) -> ArrayVec<Outgoing, 2>
        requires room { 1 ≤ self.old.room }
        requires now { IsNow self.old.setup now.now }
        requires there { IsStation self.old.setup.settings.stations station }
        ensures entry { HasEntry self.old self.new
            (entry_of self.old.setup now.now.tick (slot_with station (frames_at self.old.setup self.old.journal now.now.tick station))) }
        ensures peers { map (λ o. o.to) result.items ≡ peers self.old.setup.settings station }
        ensures frames { All (λ o. newest_frame self.old.setup.settings station o.to self.new.journal ≡ bits_of o.bytes) result.items }
    {
        let stamp = now.stamp(station);
        let terminal = &mut self.terminals[place_of(station)];
        let slotted = terminal.slot(stamp);
        self.account.slotted(now, station, &slotted);
        // Accepted settings have two stations at least, so there is a frame.
        let _ = self.scenario.settings();
        self.journal
            .push_reserved(entry(now, slot_of(station, &slotted.frames)));
        slotted.frames
    }
}

// An entry of the journal.
fn entry(now: &Now, what: What) -> Entry
    ensures { result ≡ record { time = now.now.tick; phases = now.now.phases; what = what } }
{
    Entry {
        time: now.tick,
        phases: now.phases,
        what,
    }
}

// The slot of a station with these frames.
fn slot_of(station: Station, frames: &[Outgoing]) -> What
    requires { 1 ≤ length frames.now }
    ensures { result ≡ slot_with station (map (λ o. bits_of o.bytes) frames.now) }
{
    What::Slot {
        station,
        first: bytes_of(frames[0]),
        second: frames.get(1).copied().map(bytes_of),
    }
}

// The bytes of a frame, which its bits make.
fn bytes_of(frame: Outgoing) -> [u8; 32]
    ensures { result ≡ line_bytes 32 (bits_of frame.bytes) }
{
    frame.bytes
}

// The place of a station's terminal.
fn place_of(station: Station) -> usize
    ensures { result ≡ station - 1 }
{
    usize::from(station.get()) - 1
}

// The terminals of a line before the first call.
fn terminals_of(alloc: Global, s: &Settings) -> Result<Vec<Terminal>, NoMemory>
    requires { setting_fault s.now ≡ None }
    ensures { IfOk result (λ terminals. AreTerminals s.now [] terminals.items) }
{
    let mut terminals = Vec::with_capacity(alloc, 3)?;
    let stations = stations_of(s);
    for station in stations.iter() {
        terminals.push(Terminal::new(alloc, s, *station)?)?;
    }
    Ok(terminals)
}
