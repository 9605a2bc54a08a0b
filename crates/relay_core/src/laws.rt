//! The laws of terminals.

ghost use Rattle.std.specs.Prelude.{◌≡◌, ◌≤◌, ◌*◌, ◌/◌, ◌++◌, ◌∷◌, [], ℕ, None, List, length, map, take, slice_get};
ghost use Rattle.std.specs.List.{flat_map};
ghost use Rattle.std.specs.Option.{ForSome};
ghost use Rattle.ld_base.specs.Settings.{setting_fault};
ghost use Rattle.ld_base.specs.declared.fields.Fields.{Fields};
ghost use Rattle.payload_map.specs.Sent.{whole};
ghost use Rattle.relay_core.specs.Accepted.{Accepted};
ghost use Rattle.relay_core.specs.Alike.{AreAlike};
ghost use Rattle.relay_core.specs.Answers.{changes_by, outgo_of};
ghost use Rattle.relay_core.specs.Calls.{AreCalls, AreStations};
ghost use Rattle.relay_core.specs.IsAnswer.{IsHeard, IsSampled, IsSlotted};
ghost use Rattle.relay_core.specs.Line.{Line};
ghost use Rattle.relay_core.specs.declared.call.Call.{Call};
ghost use Rattle.relay_core.specs.declared.call.Call.TheVariants as made;
ghost use Rattle.relay_core.specs.Sent.{Sent, Slots};
ghost use Rattle.relay_core.specs.StandsFor.{IsPeerOf, StandsFor};
ghost use Rattle.relay_message.specs.MessageOf.{spelled};

use crate::{Changes, Heard, Sampled, Slotted, Terminal};
use ld_base::{Chunk, Phases, Station, Ticks};

/// Two terminals that stand for one log answer an own sample alike, by that log alone, and stand for one log then, which has
/// the sample.
pub fn samples_are_answered_alike(
    one: &mut Terminal,
    other: &mut Terminal,
    now: Ticks,
    v: Phases,
) -> (Sampled, Sampled)
    requires { AreAlike one.old other.old }
    ensures own { result.0.own ≡ result.1.own }
    ensures judged { result.0.judged ≡ result.1.judged }
    ensures changes { result.0.changes.items ≡ result.1.changes.items }
    ensures alike { AreAlike one.new other.new }
    ensures by_log { (calls : List Call) → StandsFor one.old calls
        → IsSampled one.old.settings one.old.me calls (made.Sample now v) result.0 }
    ensures stands { (calls : List Call) → StandsFor one.old calls → StandsFor one.new (calls ++ made.Sample now v ∷ []) }
{
    (one.sample(now, v), other.sample(now, v))
}

/// And a slot.
pub fn slots_are_answered_alike(
    one: &mut Terminal,
    other: &mut Terminal,
    now: Ticks,
) -> (Slotted, Slotted)
    requires { AreAlike one.old other.old }
    ensures frames { map outgo_of result.0.frames.items ≡ map outgo_of result.1.frames.items }
    ensures changes { result.0.changes.items ≡ result.1.changes.items }
    ensures alike { AreAlike one.new other.new }
    ensures by_log { (calls : List Call) → StandsFor one.old calls
        → IsSlotted one.old.settings one.old.me calls (made.Slot now) result.0 }
    ensures stands { (calls : List Call) → StandsFor one.old calls → StandsFor one.new (calls ++ made.Slot now ∷ []) }
{
    (one.slot(now), other.slot(now))
}

/// And bits of a peer.
pub fn bits_are_answered_alike(
    one: &mut Terminal,
    other: &mut Terminal,
    now: Ticks,
    peer: Station,
    chunk: &Chunk,
) -> (Heard, Heard)
    requires alike { AreAlike one.old other.old }
    requires peer { IsPeerOf one.old peer }
    ensures frame { result.0.frame ≡ result.1.frame }
    ensures news { result.0.news ≡ result.1.news }
    ensures refused { result.0.refused ≡ result.1.refused }
    ensures taken { result.0.taken ≡ result.1.taken }
    ensures chosen { result.0.chosen ≡ result.1.chosen }
    ensures placed { result.0.placed ≡ result.1.placed }
    ensures judged { result.0.judged ≡ result.1.judged }
    ensures changes { result.0.changes.items ≡ result.1.changes.items }
    ensures alike { AreAlike one.new other.new }
    ensures by_log { (calls : List Call) → StandsFor one.old calls
        → IsHeard one.old.settings one.old.me peer calls (made.Bits now peer chunk.now) result.0 }
    ensures stands { (calls : List Call) → StandsFor one.old calls → StandsFor one.new (calls ++ made.Bits now peer chunk.now ∷ []) }
{
    (one.bits(now, peer, chunk), other.bits(now, peer, chunk))
}

/// And a failed call on a wire of a peer.
pub fn faults_are_answered_alike(
    one: &mut Terminal,
    other: &mut Terminal,
    now: Ticks,
    peer: Station,
) -> (Changes, Changes)
    requires alike { AreAlike one.old other.old }
    requires peer { IsPeerOf one.old peer }
    ensures changes { result.0.items ≡ result.1.items }
    ensures alike { AreAlike one.new other.new }
    ensures changes_by_log { (calls : List Call) → StandsFor one.old calls
        → result.0.items ≡ changes_by one.old.settings one.old.me calls (made.Fault now peer) }
    ensures stands { (calls : List Call) → StandsFor one.old calls → StandsFor one.new (calls ++ made.Fault now peer ∷ []) }
{
    (one.fault(now, peer), other.fault(now, peer))
}

/// Over an undamaged line, which has the first so many bits of the frames that a peer sent to a station, and whose first frame
/// carries no message, the station accepts exactly the messages of the peer whose last frame has come whole, in their order.
pub fn messages_come_over_an_undamaged_line()
    ensures { (f : Fields) (me peer n : ℕ) (own other : List Call) → setting_fault f ≡ None → AreStations f me peer → AreCalls other
        → ForSome (slice_get (Slots f peer me other) 0) (λ slot. slot.loaded ≡ None) → n ≤ 256 * length (Slots f peer me other)
        → Line peer own ≡ take n (flat_map (λ bits. bits) (Sent f peer me other))
        → map (λ r. r.message) (Accepted f me peer own) ≡ whole spelled f.channels (take (n / 256) (Slots f peer me other)) }
{
    payload_map::laws::messages_come_over_an_undamaged_line();
}
