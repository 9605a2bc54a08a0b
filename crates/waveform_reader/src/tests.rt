use crate::{ReadScenario, Scenario, read};
use ld_base::{Reason, Station};
use std::alloc::Global;
use std::test::Fail;

mod limits;
mod records;
mod settings;
mod texts;
mod whole;

// The settings of load current through a line of two stations, six rows.
const HEAD: &str =
    "set,stations,2\nset,channels,5\nset,spacing,1000\nset,cycle,20\nset,drift,20\nset,end,200000\n";

// Its clocks, delays and waves, six rows more.
const BODY: &str =
    "clock,1,0\nclock,2,4200\ndelay,0,1,2,3000\ndelay,0,2,1,3000\nwave,0,1,1000,0,1000,13,1000,7\nwave,0,2,1000,10,1000,3,1000,17\n";

fn bad(row: u64, reason: Reason) -> Result<(), ReadScenario> {
    Err(ReadScenario::Bad { row, reason })
}

// What is wrong with a text.
fn verdict(alloc: Global, text: &[u8]) -> Result<(), ReadScenario> {
    match read(alloc, text) {
        Ok(_) => Ok(()),
        Err(answer) => Err(answer),
    }
}

// What is wrong with these rows behind those settings, the first of them row 7.
fn verdict_behind(alloc: Global, rows: &str) -> Result<Result<(), ReadScenario>, Fail> {
    let text = format!(in alloc; "{HEAD}{rows}")?;
    Ok(verdict(alloc, text.as_bytes()))
}

// The scenario of a text that has no fault.
fn scenario(alloc: Global, text: &str) -> Result<Scenario, Fail> {
    Ok(read(alloc, text.as_bytes()).ok().ok_or("a scenario")?)
}

fn station(number: u8) -> Result<Station, Fail> {
    Ok(Station::new(number).ok_or("a station")?)
}
