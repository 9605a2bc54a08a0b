//! The shapes of the command line.

ghost use Rattle.std.specs.Prelude.{◌≡◌, ◌<◌, ◌^◌, Some, IfSome, map};
ghost use Rattle.bench_cmd.specs.Commands.{IsFitting, command_of, frames_of, gen_of, judge_of, of_count, of_two, of_word, record_of};

use row_reader::word_number;

/// What linediff is asked to do.
#[derive(Clone, Copy, Debug, PartialEq, Eq)]
pub enum Command {
    /// Judge aligned sample sets. A trip needs `count` consecutive sets, 1 to 32, outside the restraint region.
    Judge { count: u8 },
    /// Show the frames and messages in line bits, over so many channels, 1 to 12.
    Frames { channels: u8 },
    /// Run the terminals of a line over a scenario.
    Bench,
    /// Write the scenario of a number below 10^18 that lasts so many ticks, 1000 to 20000000, and what its run sums up to.
    Generate { number: u64, ticks: u64 },
    /// Write what the terminal of a station, 1 to 3, was handed in the run of a scenario.
    Record { station: u8 },
}

impl Command {
    /// The command of these words, without the program's name. None exactly where they have the shape of none.
    pub fn of(words: &[Vec<u8>]) -> Option<Command>
        ensures shape { result ≡ command_of (map (λ word. word.items) words.now) }
        ensures fits { IfSome result IsFitting }
    {
        match words {
            [name] => of_word(name),
            [name, word] => of_count(name, word),
            [name, first, second] => of_two(name, first, second),
            _ => None,
        }
    }
}

// The command that is a name alone.
fn of_word(name: &[u8]) -> Option<Command>
    ensures { result ≡ of_word name.now }
{
    if name == b"bench".as_slice() {
        Some(Command::Bench)
    } else {
        None
    }
}

// The command of a name and a word for a number.
fn of_count(name: &[u8], word: &[u8]) -> Option<Command>
    ensures shape { result ≡ of_count name.now word.now }
    ensures fits { IfSome result IsFitting }
{
    if name == b"judge".as_slice() {
        judge_of(word_number(word)?)
    } else if name == b"frames".as_slice() {
        frames_of(word_number(word)?)
    } else if name == b"record".as_slice() {
        record_of(word_number(word)?)
    } else {
        None
    }
}

// The command of a name and two words.
fn of_two(name: &[u8], first: &[u8], second: &[u8]) -> Option<Command>
    ensures shape { result ≡ of_two name.now first.now second.now }
    ensures fits { IfSome result IsFitting }
{
    if name == b"gen".as_slice() {
        gen_of(word_number(first)?, word_number(second)?)
    } else {
        None
    }
}

fn judge_of(count: u64) -> Option<Command>
    ensures { result ≡ judge_of (Some count) }
{
    if count < 1 || 32 < count {
        return None;
    }
    Some(Command::Judge { count: count as u8 })
}

fn frames_of(channels: u64) -> Option<Command>
    ensures { result ≡ frames_of (Some channels) }
{
    if channels < 1 || 12 < channels {
        return None;
    }
    Some(Command::Frames {
        channels: channels as u8,
    })
}

fn record_of(station: u64) -> Option<Command>
    ensures { result ≡ record_of (Some station) }
{
    if station < 1 || 3 < station {
        return None;
    }
    Some(Command::Record {
        station: station as u8,
    })
}

fn gen_of(number: u64, ticks: u64) -> Option<Command>
    requires { number < 10 ^ 18 }
    ensures shape { result ≡ gen_of (Some number) (Some ticks) }
    ensures fits { IfSome result IsFitting }
{
    if ticks < 1000 || 20_000_000 < ticks {
        return None;
    }
    Some(Command::Generate { number, ticks })
}
