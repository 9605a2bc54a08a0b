//! Runs over readers and writers whose calls end in turn as a list says.

ghost use Rattle.std.specs.Prelude.{◌≤◌, IfOk};

use bench_cmd::{ReadSource, Status, WriteSink, run};
use ld_base::{Failed, MemorySink, MemorySource, Sink, Source};
use std::alloc::Global;
use std::io::{self, ErrorKind, Read, Write};
use std::test::Fail;

// How a call ends: with at most so many bytes, or with an error.
#[derive(Clone, Copy)]
enum Turn {
    Moves(usize),
    Fails(ErrorKind),
}

// How the next call ends, of one that moves so many bytes. Those behind the last turn move all.
fn take_turn(turns: &mut &[Turn], most: usize) -> io::Result<usize>
    ensures { IfOk result (λ count. count ≤ most) }
{
    let Some((turn, later)) = turns.split_first() else {
        return Ok(most);
    };
    *turns = later;
    match turn {
        Turn::Moves(count) => Ok(most.min(*count)),
        Turn::Fails(kind) => Err(io::Error::from(*kind)),
    }
}

// A reader of some bytes.
#[derive(Drop)]
struct Tape<'a> {
    turns: &'a [Turn],
    bytes: &'a [u8],
}

impl Read for Tape<'_> {
    fn read(&mut self, buf: &mut [u8]) -> io::Result<usize> {
        let count = take_turn(&mut self.turns, buf.len().min(self.bytes.len()))?;
        let (taken, left) = self.bytes.split_at(count);
        buf[..count].copy_from_slice(taken);
        self.bytes = left;
        Ok(count)
    }
}

// A writer that counts the bytes.
#[derive(Drop)]
struct Meter<'a> {
    turns: &'a [Turn],
    written: u64,
}

impl Write for Meter<'_> {
    fn write(&mut self, buf: &[u8]) -> io::Result<usize> {
        let count = take_turn(&mut self.turns, buf.len())?;
        self.written = self.written.saturating_add(count as u64);
        Ok(count)
    }

    fn flush(&mut self) -> io::Result<()> {
        Ok(())
    }
}

#[test]
fn each_read_is_one_call_of_the_reader(rt: HostRuntime) {
    let turns = [
        Turn::Moves(2),
        Turn::Fails(ErrorKind::Other),
        Turn::Moves(3),
        Turn::Fails(ErrorKind::Interrupted),
        Turn::Fails(ErrorKind::Interrupted),
    ];
    let mut source = ReadSource::new(Tape {
        turns: &turns,
        bytes: b"a tape of bytes",
    });
    let wants: [(Result<usize, Failed>, &[u8]); 7] = [
        (Ok(2), b"a -----------"),
        (Err(Failed), b"-------------"),
        (Ok(3), b"tap----------"),
        (Err(Failed), b"-------------"),
        (Err(Failed), b"-------------"),
        (Ok(10), b"e of bytes---"),
        (Ok(0), b"-------------"),
    ];
    for (want, bytes) in wants {
        let mut into = [b'-'; 13];
        assert_eq!(rt; source.read(&mut into), want);
        assert_eq!(rt; into.as_slice(), bytes);
    }
}

#[test]
fn each_write_is_one_call_of_the_writer(rt: HostRuntime) {
    let turns = [
        Turn::Moves(3),
        Turn::Moves(1),
        Turn::Moves(0),
        Turn::Moves(0),
        Turn::Fails(ErrorKind::Other),
        Turn::Moves(9),
        Turn::Fails(ErrorKind::Interrupted),
    ];
    let mut sink = WriteSink::new(Meter {
        turns: &turns,
        written: 0,
    });
    let long = [b'x'; 5000];
    let wants: [(&[u8], Result<usize, Failed>); 9] = [
        (b"abc", Ok(3)),
        (b"abc", Ok(1)),
        (b"abc", Err(Failed)),
        (b"", Ok(0)),
        (b"abc", Err(Failed)),
        (b"abc", Ok(3)),
        (b"abc", Err(Failed)),
        (&long, Ok(5000)),
        (b"", Ok(0)),
    ];
    for (piece, want) in wants {
        assert_eq!(rt; sink.write(piece), want);
    }
    let meter = sink.into_inner();
    assert_eq!(rt; meter.written, 5007);
}

const ROW: &[u8] = b"7,0,0,0,0,0,0\n";

const LINE: &[u8] = b"7,WWW\n";

fn words(alloc: Global) -> Result<Vec<Vec<u8>>, Fail> {
    let mut words = Vec::new(alloc);
    words.push(Vec::from_slice(alloc, b"judge")?)?;
    words.push(Vec::from_slice(alloc, b"4")?)?;
    Ok(words)
}

#[test]
fn an_error_of_the_reader_is_a_read_fault(rt: HostRuntime) -> Result<(), Fail> {
    let alloc = rt.alloc();
    let runs: [(&[Turn], Status); 5] = [
        (&[], Status::Done),
        (&[Turn::Moves(3), Turn::Moves(1)], Status::Done),
        (&[Turn::Fails(ErrorKind::Other)], Status::ReadFault),
        (
            &[Turn::Moves(3), Turn::Fails(ErrorKind::Interrupted)],
            Status::ReadFault,
        ),
        (
            &[Turn::Moves(14), Turn::Fails(ErrorKind::OutOfMemory)],
            Status::ReadFault,
        ),
    ];
    for (turns, status) in runs {
        let mut source = ReadSource::new(Tape { turns, bytes: ROW });
        let mut sink = MemorySink::new(64, Vec::new(alloc))?;
        assert_eq!(rt; run(alloc, &words(alloc)?, &mut source, &mut sink), status);
        let whole = if status == Status::Done { LINE } else { b"" };
        assert_eq!(rt; sink.written(), whole);
    }
    Ok(())
}

#[test]
fn an_error_of_the_writer_is_a_write_fault(rt: HostRuntime) -> Result<(), Fail> {
    let alloc = rt.alloc();
    let runs: [(&[Turn], Status, u64); 5] = [
        (&[], Status::Done, 6),
        (&[Turn::Moves(1), Turn::Moves(2)], Status::Done, 6),
        (&[Turn::Moves(1), Turn::Moves(0)], Status::WriteFault, 1),
        (&[Turn::Fails(ErrorKind::Other)], Status::WriteFault, 0),
        (
            &[Turn::Moves(4), Turn::Fails(ErrorKind::Interrupted)],
            Status::WriteFault,
            4,
        ),
    ];
    for (turns, status, written) in runs {
        let mut source = MemorySource::new(Vec::from_slice(alloc, ROW)?, Vec::new(alloc));
        let mut sink = WriteSink::new(Meter { turns, written: 0 });
        assert_eq!(rt; run(alloc, &words(alloc)?, &mut source, &mut sink), status);
        let meter = sink.into_inner();
        assert_eq!(rt; meter.written, written);
    }
    Ok(())
}
