//! What `judge` tells of rows, good and bad, over ends whose calls may fail.

use super::answered;
use bench_cmd::Status;
use itoa::Buffer;
use ld_base::Reason;
use std::alloc::Global;
use std::test::Fail;

const STEP: &[u8] = b"81,0,0,0,0,0,0\n82,0,0,0,0,0,0\n83,0,0,0,0,0,0\n84,0,0,0,0,0,0\n\
85,0,0,0,0,0,0\n86,0,0,0,0,0,0\n87,0,0,0,0,0,0\n88,0,0,0,0,0,0\n89,0,0,0,0,0,0\n90,0,0,0,0,0,0\n\
91,0,0,0,0,0,0\n92,0,0,0,0,0,0\n93,0,0,0,0,0,0\n94,0,0,0,0,0,0\n95,0,0,0,0,0,0\n96,0,0,0,0,0,0\n\
97,0,0,0,0,0,0\n98,0,0,0,0,0,0\n99,0,0,0,0,0,0\n100,0,0,0,0,0,0\n\
101,-5063,0,0,-5063,0,0\n102,-9630,0,0,-9630,0,0\n";

const VERDICTS: &[u8] = b"81,WWW\n82,WWW\n83,WWW\n84,WWW\n85,WWW\n86,WWW\n87,WWW\n88,WWW\n89,WWW\n\
90,WWW\n91,WWW\n92,WWW\n93,WWW\n94,WWW\n95,WWW\n96,WWW\n97,WWW\n98,WWW\n99,WWW\n100,RRR\n101,ORR\n\
102,TRR\n";

#[test]
fn each_failing_call_has_its_answer(rt: HostRuntime) -> Result<(), Fail> {
    let alloc = rt.alloc();
    let words: &[&[u8]] = &[b"judge", b"2"];
    // The input takes one read, and a second one finds its end.
    for call in 0..2 {
        let told = answered(alloc, words, STEP, (&[call], &[]), 4096)?;
        assert_eq!(rt; told.status, Status::ReadFault);
        assert!(rt; told.written.is_empty());
    }
    let told = answered(alloc, words, STEP, (&[2], &[1]), 4096)?;
    assert_eq!(rt; told.status, Status::Done);
    assert_eq!(rt; told.written.as_slice(), VERDICTS);
    let told = answered(alloc, words, STEP, (&[], &[0]), 4096)?;
    assert_eq!(rt; told.status, Status::WriteFault);
    assert!(rt; told.written.is_empty());
    let told = answered(alloc, words, STEP, (&[], &[]), 100)?;
    assert_eq!(rt; told.status, Status::WriteFault);
    assert!(rt; told.written.is_empty());
    let bad = Status::BadInput {
        row: 1,
        reason: Reason::Fields,
    };
    let told = answered(alloc, words, b"1\n", (&[], &[0]), 64)?;
    assert_eq!(rt; told.status, bad);
    assert!(rt; told.written.is_empty());
    Ok(())
}

#[test]
fn a_text_is_written_in_pieces(rt: HostRuntime) -> Result<(), Fail> {
    let alloc = rt.alloc();
    let words: &[&[u8]] = &[b"judge", b"4"];
    // A thousand rows, each of which gives nine bytes.
    let mut input = Vec::new(alloc);
    for number in 1000..2000u32 {
        input.extend_from_slice(Buffer::new().format(number).as_bytes())?;
        input.extend_from_slice(b",0,0,0,0,0,0\n")?;
    }
    let whole = answered(alloc, words, &input, (&[], &[]), 9000)?;
    assert_eq!(rt; whole.status, Status::Done);
    assert_eq!(rt; whole.written.len(), 9000);
    let front = answered(alloc, words, &input, (&[], &[1]), 9000)?;
    assert_eq!(rt; front.status, Status::WriteFault);
    assert_eq!(rt; front.written.len(), 4096);
    assert!(rt; whole.written.starts_with(&front.written));
    Ok(())
}
