//! What `bench` tells of a scenario over its script wires.

use super::{answered, scenario, wires_of};
use bench_cmd::{Status, report};
use std::alloc::Global;
use std::test::Fail;

// Two terminals whose messages take 1,000 ticks to send and 3,000 to come.
const LINE: &[u8] =
    b"set,stations,2\nset,channels,5\nset,end,9000\nclock,2,4200\ndelay,0,1,2,3000\ndelay,0,2,1,3000\n";

const REPORT: &[u8] =
    b"alarm,0,1,2,Unlocked,on\nalarm,0,1,2,Unaligned,on\nalarm,0,2,1,Unlocked,on\n\
alarm,0,2,1,Unaligned,on\nalarm,3125,1,2,Unlocked,off\nalarm,3125,1,2,Yellow,on\nalarm,3125,2,1,Unlocked,off\n\
alarm,3125,2,1,Yellow,on\nalarm,6125,1,2,Yellow,off\nalarm,6125,2,1,Yellow,off\nest,8750,1,2,8400,7750,0,3550000\n\
set,8750,1,5,WWW\nalarm,8750,1,2,Unaligned,off\nest,8875,2,1,-8400,7750,0,3600000\nset,8875,2,9,WWW\n\
alarm,8875,2,1,Unaligned,off\ntotal,1,5,1,0,0,0,0,0,0\ntotal,2,5,1,0,0,0,0,0,0\nforged,0\nend,9000\n";

// The text of the report of an input over its script wires.
fn reported(alloc: Global, input: &[u8]) -> Result<Vec<u8>, Fail> {
    let scenario = scenario(alloc, input)?;
    let wires = wires_of(alloc, &scenario)?;
    let (_, text) = report(alloc, scenario, wires)?;
    Ok(text)
}

#[test]
fn what_bench_writes_is_the_report_over_the_script_wires(rt: HostRuntime) -> Result<(), Fail> {
    let alloc = rt.alloc();
    let told = answered(alloc, &[b"bench"], LINE, (&[], &[]), 4096)?;
    assert_eq!(rt; told.status, Status::Done);
    assert_eq!(rt; told.written.as_slice(), REPORT);
    assert_eq!(rt; reported(alloc, LINE)?.as_slice(), REPORT);
    Ok(())
}

#[test]
fn each_failing_call_of_a_bench_has_its_answer(rt: HostRuntime) -> Result<(), Fail> {
    let alloc = rt.alloc();
    let words: &[&[u8]] = &[b"bench"];
    let told = answered(alloc, words, LINE, (&[1], &[]), 4096)?;
    assert_eq!(rt; told.status, Status::ReadFault);
    assert!(rt; told.written.is_empty());
    let told = answered(alloc, words, LINE, (&[], &[]), 64)?;
    assert_eq!(rt; told.status, Status::WriteFault);
    assert!(rt; told.written.is_empty());

    // A run whose text takes two writes.
    let longer = b"set,stations,2\nset,channels,5\nset,end,45000\n";
    let text = reported(alloc, longer)?;
    assert!(rt; text.len() > 4096);
    let told = answered(alloc, words, longer, (&[], &[1]), 8192)?;
    assert_eq!(rt; told.status, Status::WriteFault);
    assert_eq!(rt; told.written.as_slice(), text.split_at(4096).0);
    Ok(())
}
