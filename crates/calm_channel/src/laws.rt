//! The laws of a calm channel, each the contract of a function that does nothing but name the laws on which it rests.

ghost use Rattle.std.specs.Prelude.{◌≡◌, ℕ, List, false};
ghost use Rattle.line_journal.specs.Crossings.{Forged};
ghost use Rattle.line_world.specs.Journals.{AreFirst};
ghost use Rattle.line_journal.specs.Stations.{ArePair};
ghost use Rattle.line_world.specs.Occasions.{Moment};
ghost use Rattle.line_world.specs.Run.{Run, run_through};
ghost use Rattle.line_world.specs.Worlds.{FollowsScript, IsWorld, World};
ghost use Rattle.waveform_reader.specs.Scenario.{Setup};
ghost use Rattle.waveform_reader.specs.Sound.{IsSetup};
ghost use Rattle.calm_channel.specs.Aligned.{AlignedFrom, AllowsClosely, AllowsExchanges, InForceFrom, aligned_tick, first_aligned_tick};
ghost use Rattle.calm_channel.specs.Calm.{IsCalm};
ghost use Rattle.calm_channel.specs.Coming.{AcceptedAre, AcceptedBelow, AcceptedIn, LinesAre};

use relay_core::laws::messages_come_over_an_undamaged_line;
use waveform_reader::laws::values_are_of_the_converter;

/// What a station has got of a calm line is the first of the frames that were sent on it, whole: those whose delay is over.
pub fn frames_come_as_they_were_sent()
    ensures { (s : Setup) → IsSetup s → IsCalm s → LinesAre s }
{}

/// A message that begins at a tick on a line with delay x, and takes k slots, is accepted 125 * (k - 1) + x ticks later, when its
/// receiver's clock shows the stamp of its receipt, and no other message is. So it is after any first moments of a run, after
/// all ticks below one, and in every world over the script wires of a calm scenario whose memory was not refused.
pub fn every_message_comes_at_its_tick()
    ensures moments { (s : Setup) → IsSetup s → IsCalm s → AcceptedAre s }
    ensures ticks { (s : Setup) → IsSetup s → IsCalm s → AcceptedBelow s }
    ensures worlds { (w : World) → IsWorld w → FollowsScript w → IsSetup w.setup → IsCalm w.setup → w.halted ≡ false → AcceptedIn w }
{
    messages_come_over_an_undamaged_line();
    values_are_of_the_converter();
}

/// So a calm run is honest: no message is accepted that didn't begin.
pub fn a_calm_run_is_honest()
    ensures moments { (s : Setup) (these : List Moment) → IsSetup s → IsCalm s → AreFirst s these
        → Forged s.settings (run_through s these).journal ≡ 0 }
    ensures run { (s : Setup) → IsSetup s → IsCalm s → Forged s.settings (Run s) ≡ 0 }
    ensures worlds { (w : World) → IsWorld w → FollowsScript w → IsSetup w.setup → IsCalm w.setup → Forged w.setup.settings w.journal ≡ 0 }
{
    every_message_comes_at_its_tick();
}

/// From four spacings, the delays of both lines and 400 ticks on, an exchange with a peer is in force at every entry of a station, where
/// exchanges may take two spacings and both delays, and may grow as old as that tick. More closely it is so from two transits, two
/// spacings and 256 ticks on, which is no later.
pub fn an_exchange_is_in_force_from_a_tick_on()
    ensures moments { (s : Setup) (these : List Moment) (me peer : ℕ) → IsSetup s → IsCalm s → AreFirst s these
        → ArePair s.settings.stations me peer → AllowsExchanges s me peer
        → InForceFrom s.settings (run_through s these).journal me peer (aligned_tick s me peer) }
    ensures worlds { (w : World) (me peer : ℕ) → IsWorld w → FollowsScript w → IsSetup w.setup → IsCalm w.setup
        → ArePair w.setup.settings.stations me peer → AllowsExchanges w.setup me peer
        → InForceFrom w.setup.settings w.journal me peer (aligned_tick w.setup me peer) }
    ensures closely { (s : Setup) (these : List Moment) (me peer : ℕ) → IsSetup s → IsCalm s → AreFirst s these
        → ArePair s.settings.stations me peer → AllowsClosely s me peer
        → InForceFrom s.settings (run_through s these).journal me peer (first_aligned_tick s me peer) }
{
    every_message_comes_at_its_tick();
}

/// So no line of the report turns a peer's alarm Unaligned on at or after that tick.
pub fn no_alarm_unaligned_turns_on_from_a_tick_on()
    ensures moments { (s : Setup) (these : List Moment) (me peer : ℕ) → IsSetup s → IsCalm s → AreFirst s these
        → ArePair s.settings.stations me peer → AllowsExchanges s me peer
        → AlignedFrom s.settings (run_through s these).journal me peer (aligned_tick s me peer) }
    ensures run { (s : Setup) (me peer : ℕ) → IsSetup s → IsCalm s → ArePair s.settings.stations me peer → AllowsExchanges s me peer
        → AlignedFrom s.settings (Run s) me peer (aligned_tick s me peer) }
    ensures worlds { (w : World) (me peer : ℕ) → IsWorld w → FollowsScript w → IsSetup w.setup → IsCalm w.setup
        → ArePair w.setup.settings.stations me peer → AllowsExchanges w.setup me peer
        → AlignedFrom w.setup.settings w.journal me peer (aligned_tick w.setup me peer) }
    ensures closely { (s : Setup) (these : List Moment) (me peer : ℕ) → IsSetup s → IsCalm s → AreFirst s these
        → ArePair s.settings.stations me peer → AllowsClosely s me peer
        → AlignedFrom s.settings (run_through s these).journal me peer (first_aligned_tick s me peer) }
{
    an_exchange_is_in_force_from_a_tick_on();
}
