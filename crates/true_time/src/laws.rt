//! The laws of true time, each the contract of a function that does nothing.

ghost use Rattle.std.specs.Prelude.{List};
ghost use Rattle.pingpong.specs.declared.journal.Entry.{Entry};
ghost use Rattle.waveform_reader.specs.Scenario.{Setup};
ghost use Rattle.waveform_reader.specs.Sound.{IsSetup};
ghost use Rattle.line_world.specs.Journals.{IsJournalOf};
ghost use Rattle.line_world.specs.Run.{Run};
ghost use Rattle.true_time.specs.Mixing.{MixesAreNear};
ghost use Rattle.true_time.specs.TrueTime.{KeepsTrueTime};

use line_world::laws::a_world_keeps_a_journal;

/// Whatever its wires do, a journal of a scenario keeps true time: its echoes are real, its estimates err by no more than they can,
/// what is in force and what is judged is young, and while no damaged message passes its check, each value that is judged is a
/// sample that its station took, at nearly one time with the others.
pub fn a_journal_keeps_true_time()
    ensures { (s : Setup) (journal : List Entry) → IsSetup s → IsJournalOf s journal → KeepsTrueTime s.settings journal }
{}

/// So does the run of a scenario.
pub fn a_run_keeps_true_time()
    ensures { (s : Setup) → IsSetup s → KeepsTrueTime s.settings (Run s) }
{
    a_world_keeps_a_journal();
    a_journal_keeps_true_time();
}

/// Whatever its wires do, in a journal of a scenario a value that is mixed by an exchange whose messages are honest belongs to
/// nearly the instant of the own sample. The spacing is no part of what may lie between.
pub fn mixes_are_near()
    ensures { (s : Setup) (journal : List Entry) → IsSetup s → IsJournalOf s journal → MixesAreNear s.settings journal }
{}
