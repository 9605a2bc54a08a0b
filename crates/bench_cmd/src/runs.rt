//! The top call.

ghost use Rattle.std.specs.Prelude.{◌≡◌, ◌↔◌, ◌⊎◌, ◌<◌, ◌≤◌, ◌^◌, ℕ, true, List, length, None, Some, Result, Ok, Err, IfOk, map};
ghost use Rattle.bench_cmd.specs.Answers.{Answers, Completes, Written, outcome};
ghost use Rattle.bench_cmd.specs.Commands.{IsFitting, command_of, reads_input};
ghost use Rattle.row_reader.specs.declared.fault.Fault.{Fault};
ghost use Rattle.bench_cmd.specs.GeneratorText.{generated_text};
ghost use Rattle.bench_cmd.specs.Outcomes.{IsOutcome};
ghost use Rattle.bench_cmd.specs.Transfers.{largest_input};
ghost use Rattle.bench_cmd.specs.TrueRuns.{ReportsTrueTime};
ghost use Rattle.bench_cmd.specs.declared.command.Command.{Command};
ghost use Rattle.ld_base.specs.Faults.{Rose};

use crate::bench::bench;
use crate::command::Command;
use crate::frames::frames;
use crate::generator::generated;
use crate::input::{Unread, read_input};
use crate::judge::judge;
use crate::output::{Outcome, bad_line, write_text};
use crate::record::record;
use crate::status::Status;
use calm_channel::laws::{
    a_calm_run_is_honest, an_exchange_is_in_force_from_a_tick_on, every_message_comes_at_its_tick,
    no_alarm_unaligned_turns_on_from_a_tick_on,
};
use ld_base::{NoMemory, Sink, Source};
use row_reader::Fault;
use std::alloc::Global;
use true_time::laws::a_run_keeps_true_time;
use waveform_reader::laws::accepted_rows_make_a_scenario;

/// Runs the command of these words, without the program's name, over an input and an output. The input is read to its end
/// before anything is made of it, where the command has one, and the whole text is made before its first byte is written.
pub fn run<S: Source, K: Sink>(
    alloc: Global,
    words: &[Vec<u8>],
    source: &mut S,
    sink: &mut K,
) -> Status
    ensures usage { (result ≡ Status.Usage) ↔ (command_of (map (λ word. word.items) words.now) ≡ None) }
    ensures untouched { result ≡ Status.Usage → (source.new ≡ source.old) × (sink.new ≡ sink.old) }
    ensures answer { (command : Command) → command_of (map (λ word. word.items) words.now) ≡ Some command → reads_input command ≡ true
        → Answers (outcome command) (S.end source.old) (S.end source.new) (K.end sink.old) (K.end sink.new) result }

    // Where neither end fails, an input that is small enough gets its whole answer, and a larger one is too large.
    ensures complete { (command : Command) (input : List ℕ)
        → command_of (map (λ word. word.items) words.now) ≡ Some command → reads_input command ≡ true
        → (S.end source.old).bytes ≡ Some input → length input ≤ largest_input
        → ¬ Rose (S.end source.old).faults (S.end source.new).faults
        → ¬ Rose (K.end sink.old).faults (K.end sink.new).faults
        → Completes (outcome command input) (K.end sink.old) (K.end sink.new) result }
    ensures too_large { (command : Command) (input : List ℕ)
        → command_of (map (λ word. word.items) words.now) ≡ Some command → reads_input command ≡ true
        → (S.end source.old).bytes ≡ Some input → largest_input < length input
        → ¬ Rose (S.end source.old).faults (S.end source.new).faults
        → (result ≡ Status.TooLarge) ⊎ (result ≡ Status.NoMemory) }

    // The report that `bench` has written is that of a run which keeps true time, and calm over calm lines.
    ensures true_time { command_of (map (λ word. word.items) words.now) ≡ Some Command.Bench → result ≡ Status.Done
        → ReportsTrueTime (S.end source.old) (S.end source.new) (K.end sink.old) (K.end sink.new) }

    // The generator reads nothing, and its text gets written.
    ensures generated { (number ticks : ℕ) → command_of (map (λ word. word.items) words.now) ≡ Some (Command.Generate number ticks)
        → (source.new ≡ source.old) × Written (Ok (generated_text number ticks)) (K.end sink.old) (K.end sink.new) result }
    ensures generated_whole { (number ticks : ℕ) → command_of (map (λ word. word.items) words.now) ≡ Some (Command.Generate number ticks)
        → ¬ Rose (K.end sink.old).faults (K.end sink.new).faults
        → Completes (Ok (generated_text number ticks)) (K.end sink.old) (K.end sink.new) result }
{
    let Some(command) = Command::of(words) else {
        return Status::Usage;
    };
    if let Command::Generate { number, ticks } = command {
        return finish_generated(alloc, number, ticks, sink);
    }
    let input = match read_input(alloc, source) {
        Ok(input) => input,
        Err(Unread::Failed) => return Status::ReadFault,
        Err(Unread::TooLarge) => return Status::TooLarge,
        Err(Unread::NoMemory) => return Status::NoMemory,
    };
    accepted_rows_make_a_scenario();
    a_run_keeps_true_time();
    a_calm_run_is_honest();
    every_message_comes_at_its_tick();
    an_exchange_is_in_force_from_a_tick_on();
    no_alarm_unaligned_turns_on_from_a_tick_on();
    match outcome_of(alloc, command, &input) {
        Ok(outcome) => finish(alloc, &outcome, sink),
        Err(NoMemory) => Status::NoMemory,
    }
}

// What the command makes of the input.
fn outcome_of(alloc: Global, command: Command, input: &[u8]) -> Result<Outcome, NoMemory>
    requires fits { IsFitting command }
    requires reads { reads_input command ≡ true }
    requires small { length input.now ≤ largest_input }
    ensures { IfOk result (λ made. IsOutcome made (outcome command input.now)) }
{
    match command {
        Command::Judge { count } => judge(alloc, count, input),
        Command::Frames { channels } => Ok(Outcome::Text(frames(alloc, channels, input)?)),
        Command::Bench => bench(alloc, input),
        Command::Record { station } => record(alloc, station, input),
        Command::Generate { .. } => unreachable!(),
    }
}

// Writes the scenario of a number and the sums of its run, and says how that went.
fn finish_generated<K: Sink>(alloc: Global, number: u64, ticks: u64, sink: &mut K) -> Status
    requires number { number < 10 ^ 18 }
    requires ticks { (1000 ≤ ticks) × (ticks ≤ 20000000) }
    ensures { Written (Ok (generated_text number ticks)) (K.end sink.old) (K.end sink.new) result }
{
    match generated(alloc, number, ticks) {
        Ok(text) => finish(alloc, &Outcome::Text(text), sink),
        Err(NoMemory) => Status::NoMemory,
    }
}

// Writes the outcome, and says how that went.
fn finish<K: Sink>(alloc: Global, outcome: &Outcome, sink: &mut K) -> Status
    ensures { (made : Result (List ℕ) Fault) → IsOutcome outcome.now made
        → Written made (K.end sink.old) (K.end sink.new) result }
{
    match outcome {
        Outcome::Text(text) => match write_text(sink, text) {
            Ok(()) => Status::Done,
            Err(_) => Status::WriteFault,
        },
        Outcome::Bad(fault) => finish_bad(alloc, *fault, sink),
    }
}

// Writes the line of a bad row. The answer stays the same where the line can't be written whole.
fn finish_bad<K: Sink>(alloc: Global, fault: Fault, sink: &mut K) -> Status
    ensures { Written (Err fault) (K.end sink.old) (K.end sink.new) result }
{
    let Ok(line) = bad_line(alloc, fault) else {
        return Status::NoMemory;
    };
    let _ = write_text(sink, &line);
    Status::BadInput {
        row: fault.row,
        reason: fault.reason,
    }
}
