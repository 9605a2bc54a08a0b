//! The laws of worlds, each the contract of a function that does nothing but name the laws on which it rests.

ghost use Rattle.std.specs.Prelude.{◌≡◌, ℕ, [], List, None, slice_get};
ghost use Rattle.std.specs.Option.{ForSome};
ghost use Rattle.pingpong.specs.declared.journal.Entry.{Entry};
ghost use Rattle.relay_core.specs.Sent.{Slots};
ghost use Rattle.waveform_reader.specs.Scenario.{Setup};
ghost use Rattle.waveform_reader.specs.Sound.{IsSetup};
ghost use Rattle.line_journal.specs.Stations.{ArePair};
ghost use Rattle.line_world.specs.Journals.{AreFirst, IsJournalOf};
ghost use Rattle.line_world.specs.Occasions.{Moment};
ghost use Rattle.relay_core.specs.StationLog.{StationLog};
ghost use Rattle.line_world.specs.World.{Leads};

use waveform_reader::laws::clocks_keep_their_drift;

/// Whatever its wires do, what a world gives is a journal within its scenario's drift. Each entry has a time below the end and the
/// phases of the clocks then, and names stations of the line, none of them as its own peer.
pub fn a_world_keeps_a_journal()
    ensures { (s : Setup) (these : List Moment) (journal : List Entry) → IsSetup s → AreFirst s these → Leads s these [] journal
        → IsJournalOf s journal }
{
    clocks_keep_their_drift();
}

/// In a world no message begins in a station's first slot, since no sample is taken before tick 1.
pub fn no_message_begins_in_the_first_slot()
    ensures { (s : Setup) (these : List Moment) (journal : List Entry) (station peer : ℕ) → IsSetup s → AreFirst s these → Leads s these [] journal
        → ArePair s.settings.stations station peer
        → ForSome (slice_get (Slots s.settings station peer (StationLog station journal)) 0) (λ slot. slot.loaded ≡ None) }
{}
