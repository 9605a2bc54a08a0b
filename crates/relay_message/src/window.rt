//! The bytes that a hunter keeps.

ghost use Rattle.std.specs.Prelude.{◌≡◌, ◌≤◌, ◌+◌, ◌++◌, ◌==◌, [], drop, length};

use arrayvec::ArrayVec;
use std::marker::Model;

/// Some bytes, up to 48, that come at the end and go at the front. They are read where they lie, and only moved where there
/// is no room behind them.
#[derive(Drop)]
pub(crate) struct Window {
    bytes: ArrayVec<u8, 96>,
    first: usize,
}

impl Model for Window {
    ghost use Rattle.std.specs.Prelude.{ℕ, List, ◌≤◌, drop, length};

    ghost Value = { List ℕ };

    ghost view = { λ w. drop w.first w.bytes.items };

    ghost invariant = { λ w. (w.first ≤ length w.bytes.items) × (length w.bytes.items ≤ 96) };
}

impl Window {
    /// No bytes.
    pub(crate) fn new() -> Window
        ensures { result ≡ [] }
    {
        Window {
            bytes: ArrayVec::new(),
            first: 0,
        }
    }

    /// Whether there is no byte.
    pub(crate) fn is_empty(&self) -> bool
        ensures { result ≡ (length self.now == 0) }
    {
        self.first == self.bytes.len()
    }

    /// The bytes.
    pub(crate) fn bytes(&self) -> &[u8]
        ensures { result.now ≡ self.now }
    {
        &self.bytes[self.first..]
    }

    /// Puts some bytes at the end.
    pub(crate) fn push(&mut self, bytes: &[u8])
        requires { length self.old + length bytes.now ≤ 48 }
        ensures { self.new ≡ self.old ++ bytes.now }
    {
        if self.bytes.remaining_capacity() < bytes.len() {
            self.bytes.drain(..self.first);
            self.first = 0;
        }
        let _ = self.bytes.try_extend_from_slice(bytes);
    }

    /// Forgets the first bytes, that many.
    pub(crate) fn drop_first(&mut self, count: usize)
        requires { count ≤ length self.old }
        ensures { self.new ≡ drop count self.old }
    {
        self.first += count;
        if self.is_empty() {
            self.clear();
        }
    }

    /// Forgets all bytes.
    pub(crate) fn clear(&mut self)
        ensures { self.new ≡ [] }
    {
        self.bytes.clear();
        self.first = 0;
    }
}
