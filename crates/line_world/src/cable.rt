//! The directed lines between the stations.

ghost use Rattle.std.specs.Prelude.{◌≡◌, ℕ, ◌+◌, ◌≤◌, ◌∷◌, [], Some, is_ok, if◌then◌else◌};
ghost use Rattle.c3794_frame.specs.Numbers.{bits_of};
ghost use Rattle.ld_base.specs.Script.{QuietBy, Script};
ghost use Rattle.ld_base.specs.declared.fields.Fields.{Fields};
ghost use Rattle.line_journal.specs.Stations.{ArePair};
ghost use Rattle.line_world.specs.Terminals.{IsNow};
ghost use Rattle.line_world.specs.Occasions.Occasion.{arrival, departure};
ghost use Rattle.line_world.specs.Passes.{Passes, scene_of};
ghost use Rattle.line_world.specs.Run.{newest_frame};
ghost use Rattle.line_world.specs.Tick.{way_of};

use crate::terminals::Terminals;
use ld_base::{NoMemory, Station, Wire, WireError};
use line_journal::Now;

/// A directed line, and the wire on which it goes.
#[derive(Drop)]
pub(crate) struct Cable<W> {
    pub(crate) from: Station,
    pub(crate) to: Station,
    wire: W,
}

impl<W: Wire> Cable<W> {
    /// The line from one station to another.
    pub(crate) fn new(from: Station, to: Station, wire: W) -> Cable<W>
        ensures { (result.from ≡ from) × (result.to ≡ to) × (result.wire ≡ wire) }
    {
        Cable { from, to, wire }
    }

    /// The least tick from this one on at which something may come.
    pub(crate) fn quiet_until(&self, at: u64) -> u64
        requires { at ≤ 60000000 }
        ensures next { result ≡ W.next_tick self.now.wire at }
        ensures script { (told : Script) → W.script self.now.wire ≡ Some told → QuietBy told at result }
        ensures later { at ≤ result }
    {
        self.wire.quiet_until(at)
    }

    /// The receiver asks the line.
    pub(crate) fn receive(&mut self, terminals: &mut Terminals, now: &Now)
        requires room { 1 ≤ terminals.old.room }
        requires now { IsNow terminals.old.setup now.now }
        requires two { ArePair terminals.old.setup.settings.stations self.old.to self.old.from }
        ensures setup { terminals.new.setup ≡ terminals.old.setup }
        ensures room { terminals.old.room ≤ terminals.new.room + 1 }
        ensures line { way_of self.new ≡ way_of self.old }
        ensures passes { Passes terminals.old.setup (record { time = now.now.tick; occasion = arrival self.old.to self.old.from } ∷ [])
            (scene_of W.faults W.script terminals.old (self.old ∷ [])) (scene_of W.faults W.script terminals.new (self.new ∷ [])) }
    {
        match self.wire.take(now.tick) {
            Ok(None) => {}
            Ok(Some(bits)) => terminals.came(now, self.to, self.from, bits),
            Err(_) => terminals.take_failed(now, self.to, self.from),
        }
    }

    /// The sender's frame goes out.
    pub(crate) fn send(
        &mut self,
        terminals: &mut Terminals,
        now: &Now,
        frame: &[u8; 32],
    ) -> Result<(), NoMemory>
        requires room { 1 ≤ terminals.old.room }
        requires now { IsNow terminals.old.setup now.now }
        requires two { ArePair terminals.old.setup.settings.stations self.old.from self.old.to }
        requires newest { newest_frame terminals.old.setup.settings self.old.from self.old.to terminals.old.journal ≡ bits_of frame.now }
        ensures setup { terminals.new.setup ≡ terminals.old.setup }
        ensures room { terminals.old.room ≤ terminals.new.room + 1 }
        ensures line { way_of self.new ≡ way_of self.old }
        ensures frames { (f : Fields) (from to : ℕ) → newest_frame f from to terminals.new.journal ≡ newest_frame f from to terminals.old.journal }
        ensures passes { Passes terminals.old.setup
            (if is_ok result then record { time = now.now.tick; occasion = departure self.old.from self.old.to } ∷ [] else [])
            (scene_of W.faults W.script terminals.old (self.old ∷ [])) (scene_of W.faults W.script terminals.new (self.new ∷ [])) }
    {
        match self.wire.send(now.tick, frame) {
            Ok(()) => Ok(()),
            Err(WireError::Failed) => {
                terminals.send_failed(now, self.from, self.to);
                Ok(())
            }
            Err(WireError::NoMemory) => Err(NoMemory),
        }
    }
}
