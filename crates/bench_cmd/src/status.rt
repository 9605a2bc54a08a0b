//! How a run ended, and what the program makes of it.

ghost use Rattle.std.specs.Prelude.{◌≡◌, option_copied};
ghost use Rattle.bench_cmd.specs.Statuses.{after_flush, code_of, complaint_of, without_arguments};

use ld_base::Reason;
use std::io::ErrorKind;

/// How a run ended.
#[derive(Clone, Copy, Debug, PartialEq, Eq)]
pub enum Status {
    /// The whole text was written.
    Done,
    /// The words have the shape of no command. Nothing was read or written.
    Usage,
    /// This row of the input, counted from 1, breaks this rule and no lesser one; no row before it breaks one.
    BadInput { row: u64, reason: Reason },
    /// A call on the source failed. Nothing was written.
    ReadFault,
    /// A call on the sink failed. A front part of the text was written.
    WriteFault,
    /// Memory was refused. Nothing was written.
    NoMemory,
    /// The input has more than 16,777,216 bytes. Nothing was written.
    TooLarge,
}

impl Status {
    /// The exit status of the program.
    pub fn code(&self) -> u8
        ensures { result ≡ code_of self.now }
    {
        match self {
            Status::Done => 0,
            Status::Usage => 2,
            Status::BadInput { .. } => 3,
            Status::ReadFault => 4,
            Status::WriteFault => 5,
            Status::NoMemory => 6,
            Status::TooLarge => 7,
        }
    }

    /// The line for standard error, without its line feed. None where the whole text was written.
    pub fn complaint(&self) -> Option<&'static str>
        ensures { option_copied result ≡ complaint_of self.now }
    {
        match self {
            Status::Done => None,
            Status::Usage => Some(
                "usage: linediff judge COUNT | frames N | bench | gen NUMBER TICKS | record STATION",
            ),
            Status::BadInput { .. } => Some("bad input"),
            Status::ReadFault => Some("read fault"),
            Status::WriteFault => Some("write fault"),
            Status::NoMemory => Some("no memory"),
            Status::TooLarge => Some("input too large"),
        }
    }

    /// The status once standard output was flushed, or could not be. A text that can't be flushed is not written.
    pub fn after_flush(self, flushed: bool) -> Status
        ensures { result ≡ after_flush self flushed }
    {
        match self {
            Status::Done if !flushed => Status::WriteFault,
            status => status,
        }
    }

    /// The status where the program's arguments can't be had, for this error: want of memory, or an argument that is no
    /// text and so belongs to no command.
    pub fn without_arguments(error: ErrorKind) -> Status
        ensures { result ≡ without_arguments error }
    {
        match error {
            ErrorKind::OutOfMemory => Status::NoMemory,
            _ => Status::Usage,
        }
    }
}
