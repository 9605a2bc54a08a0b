//! A call as a value, made.

ghost use Rattle.std.specs.Prelude.{◌≡◌, ◌++◌, [], ◌∷◌, List};
ghost use Rattle.relay_core.specs.IsAnswer.{IsAnswer, NamesPeer};
ghost use Rattle.relay_core.specs.StandsFor.{StandsFor};
ghost use Rattle.relay_core.specs.declared.call.Call.{Call};

use crate::{Answer, Call, Terminal};

impl Terminal {
    /// Makes the call: `sample`, `slot`, `bits` or `fault`.
    pub fn apply(&mut self, call: &Call) -> Answer
        requires { NamesPeer self.old call.now }
        ensures settings { (self.new.settings ≡ self.old.settings) × (self.new.me ≡ self.old.me) }
        ensures answer { (calls : List Call) → StandsFor self.old calls → IsAnswer self.old.settings self.old.me calls call.now result }
        ensures stands { (calls : List Call) → StandsFor self.old calls → StandsFor self.new (calls ++ call.now ∷ []) }
    {
        match call {
            Call::Sample { now, values } => Answer::Sampled(self.sample(*now, *values)),
            Call::Slot { now } => Answer::Slotted(self.slot(*now)),
            Call::Bits { now, peer, chunk } => Answer::Heard(self.bits(*now, *peer, chunk)),
            Call::Fault { now, peer } => Answer::Faulted(self.fault(*now, *peer)),
        }
    }
}
