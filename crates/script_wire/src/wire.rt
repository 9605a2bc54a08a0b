//! A wire that does what a script says.

ghost use Rattle.std.specs.Prelude.{◌≡◌, ℕ, ◌+◌, ◌^◌, ◌<◌, ◌≤◌, [], None, Some, Ok, IfOk, is_ok, fold, if◌then◌else◌};
ghost use Rattle.ld_base.specs.Bits.{line_bits};
ghost use Rattle.ld_base.specs.Faults.{CountsFaults, CountsSendFaults};
ghost use Rattle.ld_base.specs.Script.{QuietBy, Script, SendsBy, TakesBy, acts_at, chunks_of, delay_at, next_tick, queued};
ghost use Rattle.script_wire.specs.Wires.{rules_of};

use crate::chunks::{chunks, whole};
use crate::queue::Queue;
use crate::timetable::{Timetable, earlier};
use ld_base::{Act, Chunk, Failed, NoMemory, Station, Wire, WireError};
use std::alloc::Global;
use std::marker::Model;
use waveform_reader::Scenario;

/// The last true tick of a scenario.
const LAST_TICK: u64 = 20_000_000;

/// A directed line that does to its frames what its rules say. A chunk is given at its due tick or later, the first by due
/// tick and then by the order of queueing, one for each `take`. (This project's own.)
#[derive(Drop)]
pub struct ScriptWire {
    alloc: Global,
    timetable: Timetable,
    queue: Queue,
    faults: u64,
}

impl Model for ScriptWire {
    ghost use Rattle.script_wire.specs.Wires.{Scripted};

    ghost Value = { Scripted };

    ghost view = { λ w. record { script = record { rules = w.timetable.rules; queue = w.queue }; faults = w.faults } };
}

impl ScriptWire {
    /// The wire from one station to another, with an empty queue. Of the scenario's rules it has those of its line, in their
    /// order.
    pub fn new(
        alloc: Global,
        scenario: &Scenario,
        from: Station,
        to: Station,
    ) -> Result<ScriptWire, NoMemory>
        ensures { IfOk result (λ wire. wire ≡ record { script = record { rules = rules_of from to scenario.now.rules; queue = [] }; faults = 0 }) }
    {
        Ok(ScriptWire {
            alloc,
            timetable: Timetable::new(alloc, scenario.rules(), from, to)?,
            queue: Queue::new(alloc),
            faults: 0,
        })
    }

    /// How many calls have failed. The count stays at the end of a `u64`.
    pub fn faults(&self) -> u64
        ensures { result ≡ self.now.faults }
    {
        self.faults
    }
}

impl Wire for ScriptWire {
    ghost faults = { λ w. w.faults };

    ghost next_tick = { λ w at. next_tick w.script at };

    ghost script = { λ w. Some w.script };

    fn send(&mut self, at: u64, frame: &[u8; 32]) -> Result<(), WireError>
        requires { at ≤ 60000000 }
        ensures faults { CountsSendFaults self.old.faults self.new.faults result }
        ensures script { (told : Script) → Some self.old.script ≡ Some told
            → SendsBy told (Some self.new.script) at (line_bits 256 frame.now) result }
    {
        self.timetable.go_to(at);
        if self.timetable.send_fails() {
            self.faults = self.faults.saturating_add(1);
            return Err(WireError::Failed);
        }
        match carry(self.alloc, &self.timetable, &mut self.queue, at, frame) {
            Ok(()) => Ok(()),
            Err(NoMemory) => Err(WireError::NoMemory),
        }
    }

    fn take(&mut self, at: u64) -> Result<Option<Chunk>, Failed>
        ensures faults { CountsFaults self.old.faults self.new.faults result }
        ensures quiet { (from : ℕ) → from ≤ at → at < next_tick self.old.script from
            → (result ≡ Ok None) × (self.new ≡ self.old) }
        ensures script { (told : Script) → Some self.old.script ≡ Some told
            → TakesBy told (Some self.new.script) at result }
    {
        self.timetable.go_to(at);
        if self.timetable.take_fails() {
            self.faults = self.faults.saturating_add(1);
            return Err(Failed);
        }
        Ok(self.queue.take(at))
    }

    fn quiet_until(&self, at: u64) -> u64
        ensures next { result ≡ next_tick self.now.script at }
        ensures script { (told : Script) → Some self.now.script ≡ Some told → QuietBy told at result }
        ensures later { at ≤ result }
    {
        earlier(self.timetable.next_failing(at), self.queue.next_due(at)).unwrap_or(at.max(
            LAST_TICK,
        ))
    }
}

// Queues what the rules leave of a frame that is sent at a tick, or nothing.
fn carry(
    alloc: Global,
    timetable: &Timetable,
    queue: &mut Queue,
    at: u64,
    frame: &[u8; 32],
) -> Result<(), NoMemory>
    requires tick { at ≤ 60000000 }
    requires from { timetable.now.from ≤ at }
    requires to { at ≤ timetable.now.to }
    ensures { queue.new ≡ (if is_ok result then fold queued queue.old (chunks_of (acts_at timetable.now.rules at) (at + delay_at timetable.now.rules at) (line_bits 256 frame.now)) else queue.old) }
{
    let due = at + u64::from(timetable.delay());
    queue_frame(alloc, timetable.acts(), queue, due, frame)
}

// Queues what these acts leave of a frame, or nothing. The first chunk is due at that tick.
fn queue_frame(
    alloc: Global,
    acts: &[Act],
    queue: &mut Queue,
    due: u64,
    frame: &[u8; 32],
) -> Result<(), NoMemory>
    requires { due < 2 ^ 63 }
    ensures { queue.new ≡ (if is_ok result then fold queued queue.old (chunks_of acts.now due (line_bits 256 frame.now)) else queue.old) }
{
    // Mostly nothing is done to a frame.
    if acts.is_empty() {
        return queue.add_all(&[(due, whole(frame))]);
    }
    let chunks = chunks(alloc, acts, due, frame)?;
    queue.add_all(&chunks)
}
