//! The scenario of a number.

ghost use Rattle.std.specs.Prelude.{◌≡◌, ◌≤◌, ◌<◌, ◌^◌, ◌++◌, IfOk, OnOk};
ghost use Rattle.row_reader.specs.PlainRows.{line_of, text_of};
ghost use Rattle.scenario_generator.specs.Lines.{line_count};
ghost use Rattle.scenario_generator.specs.Rows.{all_clock_rows, clock_rows, delay_place, delay_row, delay_rows, flip_row, flip_rows, scenario_text, set_rows, stations_of, wave_place, wave_row, wave_rows};

use crate::lines::lines_of;
use crate::rows::{write_row, write_set};
use crate::words::{WORDS, words_of};
use ld_base::NoMemory;
use std::alloc::Global;

/// How many bits are flipped.
const FLIPS: usize = 10;

/// The ticks from one slot to the next.
const SLOT: u64 = 125;

/// The text of a number's scenario that lasts so many ticks: settings, a clock for each station, a delay for each line, load
/// current and from half of the ticks on a fault, and ten flipped bits. The words of `Lcg64Xsh32` decide them.
#[tactic(auto, unfolding(crate::specs::Rows::scenario_text))]
pub fn generate(alloc: Global, number: u64, ticks: u64) -> Result<Vec<u8>, NoMemory>
    requires number { number < 10 ^ 18 }
    requires ticks { (1000 ≤ ticks) × (ticks ≤ 20000000) }
    ensures { IfOk result (λ text. text.items ≡ scenario_text number ticks) }
{
    let words = words_of(number);
    let stations = stations_of(&words);
    let mut text = Vec::new(alloc);
    write_settings(&mut text, &words, stations, ticks)?;
    write_clocks(&mut text, &words, stations)?;
    write_delays(&mut text, &words, stations)?;
    write_waves(&mut text, &words, stations, ticks)?;
    write_flips(&mut text, &words, stations, ticks)?;
    Ok(text)
}

// How many stations there are.
fn stations_of(words: &[u32; WORDS]) -> usize
    ensures count { result ≡ stations_of words.now }
    ensures some { (2 ≤ result) × (result ≤ 3) }
{
    2 + (words[0] % 2) as usize
}

fn write_settings(
    text: &mut Vec<u8>,
    words: &[u32; WORDS],
    stations: usize,
    ticks: u64,
) -> Result<(), NoMemory>
    ensures { OnOk result (text.new.items ≡ text.old.items ++ text_of (set_rows words.now stations ticks)) }
{
    let channels = 5 + u64::from(words[1] % 8);
    write_set(text, b"stations", stations as u64)?;
    write_set(text, b"channels", channels)?;
    write_set(text, b"drift", 50)?;
    write_set(text, b"end", ticks)
}

// Appends the start and the rate of each clock.
fn write_clocks(text: &mut Vec<u8>, words: &[u32; WORDS], stations: usize) -> Result<(), NoMemory>
    requires { stations ≤ 3 }
    ensures { OnOk result (text.new.items ≡ text.old.items ++ text_of (all_clock_rows words.now stations)) }
{
    for station in 1..stations + 1 {
        write_clock(text, words, station)?;
    }
    Ok(())
}

fn write_clock(text: &mut Vec<u8>, words: &[u32; WORDS], station: usize) -> Result<(), NoMemory>
    requires { (1 ≤ station) × (station ≤ 3) }
    ensures { OnOk result (text.new.items ≡ text.old.items ++ text_of (clock_rows words.now station)) }
{
    let start = i64::from(words[2 * station] % 1_000_000);
    let rate = i64::from(words[2 * station + 1] % 101) - 50;
    write_row(text, b"clock", &[station as i64, start])?;
    write_row(text, b"rate", &[0, station as i64, rate])
}

// Appends the delay of each line.
fn write_delays(text: &mut Vec<u8>, words: &[u32; WORDS], stations: usize) -> Result<(), NoMemory>
    requires { (2 ≤ stations) × (stations ≤ 3) }
    ensures { OnOk result (text.new.items ≡ text.old.items ++ text_of (delay_rows words.now stations)) }
{
    for number in 0..lines_of(stations).len() {
        write_delay(text, words, stations, number)?;
    }
    Ok(())
}

fn write_delay(
    text: &mut Vec<u8>,
    words: &[u32; WORDS],
    stations: usize,
    number: usize,
) -> Result<(), NoMemory>
    requires stations { (2 ≤ stations) × (stations ≤ 3) }
    requires number { number < line_count stations }
    ensures { OnOk result (text.new.items ≡ text.old.items ++ line_of (delay_row words.now stations number)) }
{
    let (sender, receiver) = lines_of(stations)[number];
    let delay = 1 + i64::from(words[delay_place(stations) + number] % 8000);
    write_row(
        text,
        b"delay",
        &[0, i64::from(sender), i64::from(receiver), delay],
    )
}

// The place of the first word for a delay.
fn delay_place(stations: usize) -> usize
    requires { (2 ≤ stations) × (stations ≤ 3) }
    ensures place { result ≡ delay_place stations }
    ensures within { result ≤ 8 }
{
    2 + 2 * stations
}

// The place of the first word for a wave.
fn wave_place(stations: usize) -> usize
    requires { (2 ≤ stations) × (stations ≤ 3) }
    ensures place { result ≡ wave_place stations }
    ensures within { result ≤ 14 }
{
    delay_place(stations) + lines_of(stations).len()
}

// Appends load current of stations 1 and 2, and the fault that both feed.
fn write_waves(
    text: &mut Vec<u8>,
    words: &[u32; WORDS],
    stations: usize,
    ticks: u64,
) -> Result<(), NoMemory>
    requires stations { (2 ≤ stations) × (stations ≤ 3) }
    requires ticks { ticks ≤ 20000000 }
    ensures { OnOk result (text.new.items ≡ text.old.items ++ text_of (wave_rows words.now stations ticks)) }
{
    let place = wave_place(stations);
    let amplitude = 500 + words[place] % 4500;
    let step = words[place + 1] % 20;
    write_wave(text, 0, 1, amplitude, step)?;
    write_wave(text, 0, 2, amplitude, step + 10)?;
    write_wave(text, ticks / 2, 1, 3 * amplitude, step)?;
    write_wave(text, ticks / 2, 2, 3 * amplitude, step)
}

// Appends a wave of one amplitude, whose phases are 13 and 7 twentieths ahead.
fn write_wave(
    text: &mut Vec<u8>,
    from: u64,
    station: u8,
    amplitude: u32,
    step: u32,
) -> Result<(), NoMemory>
    requires from { from ≤ 20000000 }
    requires step { step ≤ 29 }
    ensures { OnOk result (text.new.items ≡ text.old.items ++ line_of (wave_row from station amplitude step)) }
{
    let amplitude = i64::from(amplitude);
    let numbers = [
        from as i64,
        i64::from(station),
        amplitude,
        i64::from(step % 20),
        amplitude,
        i64::from((step + 13) % 20),
        amplitude,
        i64::from((step + 7) % 20),
    ];
    write_row(text, b"wave", &numbers)
}

// Appends the flipped bits.
fn write_flips(
    text: &mut Vec<u8>,
    words: &[u32; WORDS],
    stations: usize,
    ticks: u64,
) -> Result<(), NoMemory>
    requires stations { (2 ≤ stations) × (stations ≤ 3) }
    requires ticks { (1000 ≤ ticks) × (ticks ≤ 20000000) }
    ensures { OnOk result (text.new.items ≡ text.old.items ++ text_of (flip_rows words.now stations ticks)) }
{
    for number in 0..FLIPS {
        write_flip(text, words, stations, ticks, number)?;
    }
    Ok(())
}

fn write_flip(
    text: &mut Vec<u8>,
    words: &[u32; WORDS],
    stations: usize,
    ticks: u64,
    number: usize,
) -> Result<(), NoMemory>
    requires stations { (2 ≤ stations) × (stations ≤ 3) }
    requires ticks { (1000 ≤ ticks) × (ticks ≤ 20000000) }
    requires number { number < 10 }
    ensures { OnOk result (text.new.items ≡ text.old.items ++ line_of (flip_row words.now stations ticks number)) }
{
    let place = wave_place(stations) + 2 + 3 * number;
    let tick = (SLOT * (u64::from(words[place]) % (ticks / SLOT))) as i64;
    let lines = lines_of(stations);
    let (sender, receiver) = lines[words[place + 1] as usize % lines.len()];
    let bit = i64::from(words[place + 2] % 256);
    write_row(
        text,
        b"flip",
        &[tick, tick, i64::from(sender), i64::from(receiver), bit],
    )
}
