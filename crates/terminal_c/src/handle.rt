//! What a program in C keeps of a terminal.

ghost use Rattle.std.specs.Prelude.{◌≡◌};
ghost use Rattle.terminal_c.specs.Seat.{seat, seat_of};

use crate::held::Held;
use crate::loose::Loose;
use relay_core::Terminal;
use std::alloc::Global;
use std::mem::replace;

/// A terminal with its station, or none. The caller keeps it, zeroed before the first call.
#[repr(C)]
#[derive(Drop)]
pub struct Handle {
    pub(crate) held: Held,
    pub(crate) full: bool,
    pub(crate) me: u8,
    pub(crate) stations: u8,
    ghost seat: { seat_of held.terminal ≡ seat full me stations },
}

impl Handle {
    ghost use Rattle.std.specs.Prelude.{IsTrue, None, Some, false};

    /// Takes the terminal out.
    pub(crate) fn take(&mut self, alloc: Global) -> Box<Terminal>
        requires { IsTrue self.old.full }
        ensures terminal { self.old.held.terminal ≡ Some result.value }
        ensures seat { (result.value.me ≡ self.old.me) × (result.value.settings.stations ≡ self.old.stations) }
        ensures none { (self.new.held.terminal ≡ None) × (self.new.full ≡ false) }
        ensures kept { (self.new.me ≡ self.old.me) × (self.new.stations ≡ self.old.stations) }
    {
        self.full = false;
        let held = replace(&mut self.held, Held::none());
        held.into_loose(alloc).into_box()
    }

    /// Puts a terminal in, whose station and count of stations these are.
    pub(crate) fn put(&mut self, terminal: Box<Terminal>)
        requires { (terminal.value.me ≡ self.old.me) × (terminal.value.settings.stations ≡ self.old.stations) }
        ensures { self.new.held.terminal ≡ Some terminal.value }
    {
        self.held = Held::some(Loose::of(terminal));
        self.full = true;
    }
}
