//! A terminal behind a pointer that C can keep.

ghost use Rattle.std.specs.Prelude.{◌≡◌, IsSome, None, Option, Some};
ghost use Rattle.relay_core.specs.StandsFor.{Kept};
ghost use Rattle.terminal_c.specs.Owned.{owned};

use crate::loose::Loose;
use relay_core::Terminal;
use std::alloc::Global;
use std::marker::Model;
use std::ptr::null_mut;

/// A terminal in memory of its own, or none. C sees the pointer alone.
#[repr(C)]
#[derive(Drop)]
pub struct Held {
    at: *mut u8,
    ghost terminal: { Option Kept },
}

impl Model for Held {
    ghost also_owns = { λ h. owned h.at h.terminal };
}

impl Held {
    /// No terminal.
    pub(crate) fn none() -> Held
        ensures { result.terminal ≡ None }
    {
        Held { at: null_mut() }
    }

    /// This terminal.
    pub(crate) fn some(terminal: Loose<Terminal, Global>) -> Held
        ensures { result.terminal ≡ Some terminal.value }
    {
        let Loose { at, alloc: _ } = terminal;
        Held { at: at as *mut u8 }
    }

    /// The terminal, where there is one.
    pub(crate) fn into_loose(self, alloc: Global) -> Loose<Terminal, Global>
        requires { IsSome self.terminal }
        ensures { self.terminal ≡ Some result.value }
    {
        let Held { at } = self;
        Loose {
            at: at as *mut Terminal,
            alloc,
        }
    }
}
