//! Terminals over wires in true time.

ghost use Rattle.std.specs.Prelude.{◌≡◌, ℕ, ◌-◌, ◌*◌, ◌%◌, ◌<◌, ◌≤◌, List, [], All, Err, IfOk, Ok, OnErr, OnOk, false, length, map, slice_index, suc, true};
ghost use Rattle.line_journal.specs.Crossings.{Forged};
ghost use Rattle.line_world.specs.Journals.{IsJournalOf};
ghost use Rattle.line_journal.specs.Stations.{ways};
ghost use Rattle.line_world.specs.Passes.{Tell};
ghost use Rattle.line_journal.specs.Report.{Lines};
ghost use Rattle.line_world.specs.Run.{Run, lines_of};
ghost use Rattle.line_world.specs.Tick.{AreLines, TellsNext};
ghost use Rattle.line_world.specs.Worlds.{FollowsScript, Grows, Halted, HasEnded, IsDueByScript, IsLeast, IsNextDue, IsOver, IsWorld, Went};
ghost use Rattle.relay_core.specs.StationLog.{StationLog};
ghost use Rattle.line_journal.specs.Totals.{TotalOf};
ghost use Rattle.relay_core.specs.StandsFor.{StandsFor};
ghost use Rattle.waveform_reader.specs.Sound.{IsStation};

use crate::cable::Cable;
use crate::clock_phases::now_at;
use crate::laws::a_world_keeps_a_journal;
use crate::sampler::first_samples;
use crate::terminals::Terminals;
use crate::tick::{SLOT_TICKS, carry_out};
use ld_base::{NoMemory, Settings, Station, Wire};
use line_journal::{Line, Total, directed_lines};
use pingpong::Entry;
use relay_core::Terminal;
use std::alloc::Global;
use std::marker::Model;
use waveform_reader::Scenario;

/// What a step did.
#[derive(Clone, Copy, Debug, PartialEq, Eq)]
pub enum Stepped {
    /// It carried out this tick.
    Went(u64),
    /// No tick that is due is left below the end of the scenario.
    Ended,
}

/// The terminals of a scenario over wires, in true time: what happened to them is in its journal. (This project's own.)
#[derive(Drop)]
pub struct World<W: Wire> {
    terminals: Terminals,
    cables: Vec<Cable<W>>,
    // For each station the tick of its next sample.
    samples: [u64; 3],
    // The least tick that wasn't carried out.
    next: u64,
    halted: bool,
}

impl<W: Wire> Model for World<W> {
    ghost use Rattle.line_world.specs.Worlds.{World};

    ghost Value = { World };

    ghost use Rattle.line_world.specs.Inside.{IsKept, world_of};

    ghost view = { world_of W.faults W.script W.next_tick };

    ghost invariant = { IsKept W.faults W.script W.next_tick };
}

impl<W: Wire> World<W> {
    /// A world before tick 0, with one wire for each directed line, in the order of the receiver and then of the sender. On
    /// `NoMemory` the scenario and the wires are dropped.
    pub fn new(alloc: Global, scenario: Scenario, wires: Vec<W>) -> Result<World<W>, NoMemory>
        requires { length wires.items ≡ length (ways scenario.settings) }
        ensures setup { IfOk result (λ w. w.setup ≡ scenario) }
        ensures start { IfOk result (λ w. (w.next ≡ 0) × (w.journal ≡ []) × (w.halted ≡ false)) }
        ensures wires { IfOk result (λ w. (map (λ wire. wire.faults) w.wires ≡ map W.faults wires.items) × (map (λ wire. wire.script) w.wires ≡ map W.script wires.items)) }
        ensures ways { IfOk result (λ w. map (λ wire. record { from = wire.from; to = wire.to }) w.wires ≡ ways scenario.settings) }
        ensures over { IfOk result (IsOver W.faults W.script W.next_tick wires.items) }
        ensures world { IfOk result IsWorld }
        ensures follows { IfOk result (λ w. Tell w.wires (lines_of scenario.settings scenario.rules) → FollowsScript w) }
    {
        let cables = cables_of(alloc, scenario.settings(), wires)?;
        let samples = first_samples(&scenario);
        let terminals = Terminals::new(alloc, scenario)?;
        Ok(World {
            terminals,
            cables,
            samples,
            next: 0,
            halted: false,
        })
    }

    /// Carries out the least tick that is due, above the last one that was carried out, and tells it: a slot, the sample of a
    /// station, or what `quiet_until` of a wire names. `Ended` comes exactly where there is no such tick below the end of the
    /// scenario, and changes nothing.
    ///
    /// A step first makes room for all that its tick can add, and on `NoMemory` nothing has changed, or a wire's `send` answered
    /// it: then all before that send stands, and the rest isn't carried out. Each later step answers `NoMemory` and changes
    /// nothing.
    pub fn step(&mut self) -> Result<Stepped, NoMemory>
        ensures went { (tick : ℕ) → result ≡ Ok (Stepped.Went tick) → Went self.old self.new tick }
        ensures ended { result ≡ Ok Stepped.Ended → (self.new ≡ self.old) × HasEnded self.old }
        ensures none_left { result ≡ Ok Stepped.Ended → All (λ entry. entry.time < self.old.next) self.old.journal }
        ensures again { HasEnded self.old → result ≡ Ok Stepped.Ended }
        ensures halted { OnErr result (Halted self.old self.new) }
        ensures stays_halted { self.old.halted ≡ true → (result ≡ Err record {}) × (self.new ≡ self.old) }
        ensures grows { Grows self.old self.new }
        ensures over { (wires : List W) × IsOver W.faults W.script W.next_tick wires self.new }
        ensures due { OnOk result (IsDueByScript self.old) }
        ensures world { IsWorld self.new }
        ensures follows { FollowsScript self.old → FollowsScript self.new }
        ensures run { FollowsScript self.old → result ≡ Ok Stepped.Ended → self.old.journal ≡ Run self.old.setup }
    {
        if self.halted {
            return Err(NoMemory);
        }
        let tick = next_due(
            &self.cables,
            self.terminals.scenario().settings(),
            &self.samples,
            self.next,
        );
        if tick >= self.terminals.scenario().end() {
            return Ok(Stepped::Ended);
        }
        if self.terminals.make_room().is_err() {
            self.halted = true;
            return Err(NoMemory);
        }
        let now = now_at(self.terminals.scenario(), tick);
        self.next = tick;
        if carry_out(
            &mut self.terminals,
            &mut self.cables,
            &now,
            &mut self.samples,
        )
        .is_err()
        {
            self.halted = true;
            return Err(NoMemory);
        }
        self.next = tick + 1;
        Ok(Stepped::Went(tick))
    }

    /// What happened so far, oldest first: a journal within the drift of the scenario.
    pub fn journal(&self) -> &[Entry]
        ensures journal { result.now ≡ self.now.journal }
        ensures world { IsWorld self.now }
        ensures law { IsJournalOf self.now.setup self.now.journal }
    {
        // The law is one of accepted scenarios.
        let _ = self.terminals.scenario();
        a_world_keeps_a_journal();
        self.terminals.journal()
    }

    /// The lines of the report of the journal.
    pub fn lines(&self) -> &[Line]
        ensures { result.now ≡ Lines self.now.setup.settings self.now.journal }
    {
        self.terminals.lines()
    }

    /// What a station counted, by the journal.
    pub fn total(&self, station: Station) -> Total
        requires { IsStation self.now.setup.settings.stations station }
        ensures { result ≡ TotalOf self.now.setup.settings station (StationLog station self.now.journal) }
    {
        self.terminals.total(station)
    }

    /// How many accepted messages don't equal one that began earlier on their line.
    pub fn forged(&self) -> u64
        ensures { result ≡ Forged self.now.setup.settings self.now.journal }
    {
        self.terminals.forged()
    }

    /// The terminal of a station. It stands for the log of its station in the journal.
    pub fn terminal(&self, station: Station) -> &Terminal
        requires { IsStation self.now.setup.settings.stations station }
        ensures settings { (result.now.settings ≡ self.now.setup.settings) × (result.now.me ≡ station) }
        ensures stands { StandsFor result.now (StationLog station self.now.journal) }
    {
        self.terminals.terminal(station)
    }
}

// The least tick from one on that is due: a slot, a sample, or the next tick of a wire.
fn next_due<W: Wire>(cables: &[Cable<W>], s: &Settings, samples: &[u64; 3], next: u64) -> u64
    requires early { next ≤ 20000000 }
    requires samples { (k : ℕ) → suc k ≤ s.now.stations → next ≤ slice_index samples.now k }
    ensures due { IsNextDue s.now.stations next samples.now (map (λ cable. W.next_tick cable.wire next) cables.now) result }
    ensures script { All (TellsNext W.script W.next_tick next) cables.now }
{
    let stations = usize::from(s.fields().stations);
    let due = with_samples(next_slot(next), &samples[..stations]);
    with_wires(due, cables, next)
}

// The least tick of a slot from one on.
fn next_slot(from: u64) -> u64
    requires { from ≤ 20000000 }
    ensures later { from ≤ result }
    ensures slot { result % 125 ≡ 0 }
    ensures least { (tick : ℕ) → from ≤ tick → tick % 125 ≡ 0 → result ≤ tick }
{
    from.div_ceil(SLOT_TICKS) * SLOT_TICKS
}

// The least of a tick and those of the next samples.
fn with_samples(due: u64, samples: &[u64]) -> u64
    ensures { IsLeast due samples.now result }
{
    let mut least = due;
    for sample in samples {
        least = least.min(*sample);
    }
    least
}

// The least of a tick and the next ticks of the wires.
fn with_wires<W: Wire>(due: u64, cables: &[Cable<W>], next: u64) -> u64
    requires { next ≤ 20000000 }
    ensures least { IsLeast due (map (λ cable. W.next_tick cable.wire next) cables.now) result }
    ensures later { next ≤ due → next ≤ result }
    ensures script { All (TellsNext W.script W.next_tick next) cables.now }
{
    let mut least = due;
    for cable in cables {
        least = least.min(cable.quiet_until(next));
    }
    least
}

// One cable for each line, with these wires in their order.
fn cables_of<W: Wire>(alloc: Global, s: &Settings, wires: Vec<W>) -> Result<Vec<Cable<W>>, NoMemory>
    requires { length wires.items ≡ length (ways s.now) }
    ensures lines { IfOk result (λ cables. AreLines s.now cables.items) }
    ensures wires { IfOk result (λ cables. map (λ cable. cable.wire) cables.items ≡ wires.items) }
{
    let mut cables = Vec::with_capacity(alloc, wires.len())?;
    let lines = directed_lines(s);
    for wire in wires {
        let (from, to) = lines[cables.len()];
        cables.push(Cable::new(from, to, wire))?;
    }
    Ok(cables)
}
