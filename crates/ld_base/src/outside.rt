ghost use Rattle.std.specs.Prelude.{◌<◌, ◌≤◌, length, IfOk};
ghost use Rattle.std.specs.Io.KnownBytes.{ReadConsumes, WriteAppends};
ghost use Rattle.ld_base.specs.Ends.{End};
ghost use Rattle.ld_base.specs.Faults.{CountsFaults};

use std::alloc::{AllocError, AllocFailed};

/// Memory was refused.
#[derive(Clone, Copy, Debug, PartialEq, Eq)]
pub struct NoMemory;

impl From<AllocError> for NoMemory {
    fn from(_: AllocError) -> NoMemory {
        NoMemory
    }
}

impl<T: Drop> From<AllocFailed<T>> for NoMemory {
    fn from(_: AllocFailed<T>) -> NoMemory {
        NoMemory
    }
}

/// A call on a source, a sink or a wire failed, and was counted.
#[derive(Clone, Copy, Debug, PartialEq, Eq)]
pub struct Failed;

/// Where input comes from.
pub trait Source {
    /// The bytes that are left, where the source tells them, and how many calls have failed. That count stays at the end
    /// of a `u64`.
    ghost end: { Self → End };

    /// Takes the next bytes into the front of `into`, and says how many. For a buffer that isn't empty 0 is the end of
    /// the input. After `Failed` nothing was taken.
    fn read(&mut self, into: &mut [u8]) -> Result<usize, Failed>
        ensures count { IfOk result (λ n. n ≤ length into.new) }
        ensures bytes { ReadConsumes (end self.old).bytes (end self.new).bytes result into.new }
        ensures faults { CountsFaults (end self.old).faults (end self.new).faults result };
}

/// Where output goes.
pub trait Sink {
    /// The bytes written so far, where the sink tells them, and how many calls have failed. That count stays at the end of
    /// a `u64`.
    ghost end: { Self → End };

    /// Appends the front of `piece`, and says how many bytes: at least one of a piece that isn't empty. After `Failed`
    /// nothing was appended.
    fn write(&mut self, piece: &[u8]) -> Result<usize, Failed>
        ensures count { IfOk result (λ n. n ≤ length piece.now) }
        ensures progress { IfOk result (λ n. 0 < length piece.now → 0 < n) }
        ensures bytes { WriteAppends (end self.old).bytes (end self.new).bytes result piece.now }
        ensures faults { CountsFaults (end self.old).faults (end self.new).faults result };
}
