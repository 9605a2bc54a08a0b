ghost use Rattle.std.specs.Prelude.{◌≡◌, IfOk, length};
ghost use Rattle.line_journal.specs.Stations.{ways};

use bench_cmd::{Status, run};
use ld_base::{MemorySink, MemorySource, Station};
use line_world::{ScriptWire, directed_lines};
use std::alloc::Global;
use std::test::Fail;
use waveform_reader::{Scenario, read};

mod ends;
mod judging;
mod reports;
mod words;
mod worlds;

// An answer and what was written.
#[derive(Drop)]
struct Told {
    status: Status,
    written: Vec<u8>,
}

// Runs these words over an input, with a source whose listed calls fail and a sink with that room whose listed calls fail.
fn answered(
    alloc: Global,
    words: &[&[u8]],
    input: &[u8],
    failing: (&[u64], &[u64]),
    room: usize,
) -> Result<Told, Fail> {
    let mut all = Vec::new(alloc);
    for word in words {
        all.push(Vec::from_slice(alloc, word)?)?;
    }
    let bytes = Vec::from_slice(alloc, input)?;
    let mut source = MemorySource::new(bytes, Vec::from_slice(alloc, failing.0)?);
    let mut sink = MemorySink::new(room, Vec::from_slice(alloc, failing.1)?)?;
    let status = run(alloc, &all, &mut source, &mut sink);
    let written = Vec::from_slice(alloc, sink.written())?;
    Ok(Told { status, written })
}

// The scenario of a text.
fn scenario(alloc: Global, text: &[u8]) -> Result<Scenario, Fail> {
    Ok(read(alloc, text).ok().ok_or("no scenario")?)
}

// The station of that number.
fn station(number: u8) -> Result<Station, Fail>
    ensures { IfOk result (λ station. station ≡ number) }
{
    Ok(Station::new(number).ok_or("no station")?)
}

// The script wires of a scenario, one for each directed line.
fn wires_of(alloc: Global, scenario: &Scenario) -> Result<Vec<ScriptWire>, Fail>
    ensures { IfOk result (λ wires. length wires.items ≡ length (ways scenario.now.settings)) }
{
    let lines = directed_lines(scenario.settings());
    let mut wires = Vec::new(alloc);
    for (from, to) in lines.iter() {
        wires.push(ScriptWire::new(alloc, scenario, *from, *to)?)?;
    }
    if wires.len() == lines.len() {
        Ok(wires)
    } else {
        Err(Fail::from("another number of wires"))
    }
}
