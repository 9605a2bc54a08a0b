//! The real ends of a run: std's readers and writers as a source and a sink.

ghost use Rattle.std.specs.Prelude.{◌≡◌};

use ld_base::{Failed, Sink, Source};
use std::io::{Read, Write};

/// A source over a reader. It passes on what the reader gives, and counts each error as a fault.
#[derive(Drop)]
pub struct ReadSource<R> {
    reader: R,
    faults: u64,
}

impl<R: Read> ReadSource<R> {
    ghost use Rattle.bench_cmd.specs.Ends.{reader_of, read_faults};

    /// A source over this reader, without a fault so far.
    pub fn new(reader: R) -> ReadSource<R>
        ensures reader { reader_of result ≡ reader }
        ensures faults { read_faults result ≡ 0 }
    {
        ReadSource { reader, faults: 0 }
    }
}

impl<R: Read> Source for ReadSource<R> {
    ghost use Rattle.bench_cmd.specs.Ends.{reader_of, read_faults};

    ghost end = { λ s. record { bytes = R.remaining (reader_of s); faults = read_faults s } };

    fn read(&mut self, into: &mut [u8]) -> Result<usize, Failed> {
        match self.reader.read(into) {
            Ok(count) => Ok(count),
            Err(_) => {
                self.faults = self.faults.saturating_add(1);
                Err(Failed)
            }
        }
    }
}

/// A sink over a writer. It passes on what the writer takes, and counts as a fault each error and each piece, unless it is
/// empty, of which nothing was taken.
#[derive(Drop)]
pub struct WriteSink<W> {
    writer: W,
    faults: u64,
}

impl<W: Write> WriteSink<W> {
    ghost use Rattle.bench_cmd.specs.Ends.{writer_of, write_faults};

    /// A sink over this writer, without a fault so far.
    pub fn new(writer: W) -> WriteSink<W>
        ensures writer { writer_of result ≡ writer }
        ensures faults { write_faults result ≡ 0 }
    {
        WriteSink { writer, faults: 0 }
    }

    /// Gives the writer back.
    pub fn into_inner(self) -> W
        ensures { result ≡ writer_of self }
    {
        let WriteSink { writer, .. } = self;
        writer
    }
}

impl<W: Write> Sink for WriteSink<W> {
    ghost use Rattle.bench_cmd.specs.Ends.{writer_of, write_faults};

    ghost end = { λ s. record { bytes = W.contents (writer_of s); faults = write_faults s } };

    fn write(&mut self, piece: &[u8]) -> Result<usize, Failed> {
        match self.writer.write(piece) {
            Ok(count) if count > 0 || piece.is_empty() => Ok(count),
            _ => {
                self.faults = self.faults.saturating_add(1);
                Err(Failed)
            }
        }
    }
}
