//! Reading an input to its end.

ghost use Rattle.std.specs.Prelude.{IfOk, IfErr};
ghost use Rattle.bench_cmd.specs.Transfers.{GaveAll, StoppedBy};

use ld_base::{Failed, Source};
use std::alloc::Global;

/// The most bytes that an input has.
const LARGEST_INPUT: usize = 16_777_216;

/// Bytes that one call reads at most.
const CHUNK: usize = 2048;

/// Why an input was not read to its end.
#[derive(Clone, Copy, Debug, PartialEq, Eq)]
pub enum Unread {
    /// A call on the source failed.
    Failed,
    /// One byte more than the largest input was read.
    TooLarge,
    /// Memory was refused.
    NoMemory,
}

/// Reads the source to its end.
pub(crate) fn read_input<S: Source>(alloc: Global, source: &mut S) -> Result<Vec<u8>, Unread>
    ensures read { IfOk result (λ input. GaveAll (S.end source.old) (S.end source.new) input.items) }
    ensures stopped { IfErr result (λ unread. StoppedBy (S.end source.old) (S.end source.new) unread) }
{
    let mut chunk = [0u8; CHUNK];
    let mut input = Vec::new(alloc);
    'reading: while input.len() <= LARGEST_INPUT {
        let room = CHUNK.min(LARGEST_INPUT + 1 - input.len());
        let count = match source.read(&mut chunk[..room]) {
            Ok(0) => return Ok(input),
            Ok(count) => count,
            Err(Failed) => return Err(Unread::Failed),
        };
        if input.extend_from_slice(&chunk[..count]).is_err() {
            return Err(Unread::NoMemory);
        }
    }
    Err(Unread::TooLarge)
}
