//! Writing a text.

ghost use Rattle.std.specs.Prelude.{◌≡◌, IfOk, OnErr, OnOk};
ghost use Rattle.bench_cmd.specs.Faults.{bad_line};
ghost use Rattle.bench_cmd.specs.Transfers.{Took, TookFront};

use itoa::Buffer;
use ld_base::{Failed, NoMemory, Sink};
use row_reader::Fault;
use std::alloc::Global;

/// Bytes that one call writes at most.
const PIECE: usize = 4096;

/// What a command makes of its input.
#[derive(Debug, Drop)]
pub enum Outcome {
    /// The text to write.
    Text(Vec<u8>),
    /// What is wrong with the input.
    Bad(Fault),
}

/// Writes the whole text, in pieces, up to the first call that fails.
pub(crate) fn write_text<K: Sink>(sink: &mut K, text: &[u8]) -> Result<(), Failed>
    ensures whole { OnOk result (Took (K.end sink.old) (K.end sink.new) text.now) }
    ensures front { OnErr result (TookFront (K.end sink.old) (K.end sink.new) text.now) }
{
    let mut rest = text;
    'writing: while !rest.is_empty() {
        let count = sink.write(&rest[..rest.len().min(PIECE)])?;
        rest = rest.split_at(count).1;
    }
    Ok(())
}

/// The line that tells what is wrong with an input.
pub(crate) fn bad_line(alloc: Global, fault: Fault) -> Result<Vec<u8>, NoMemory>
    ensures { IfOk result (λ line. line.items ≡ bad_line fault) }
{
    let mut line = Vec::from_slice(alloc, b"bad,")?;
    line.extend_from_slice(Buffer::new().format(fault.row).as_bytes())?;
    line.extend_from_slice(b",")?;
    line.extend_from_slice(Buffer::new().format(fault.reason as u8).as_bytes())?;
    line.extend_from_slice(b"\n")?;
    Ok(line)
}
