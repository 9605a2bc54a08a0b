//! How long a peer's alarms stay as they are while nothing comes of the peer.

ghost use Rattle.std.specs.Prelude.{◌≡◌, false, if◌then◌else◌};
ghost use Rattle.relay_core.specs.Calm.{IsCalm, holds, never};

use crate::receipt::Receipt;
use channel_alarm::{Alarms, Facts};
use ld_base::Ticks;
use offset_track::Track;

/// The stamps, from one to another, at which a peer's alarms needn't be looked at.
#[derive(Clone, Copy, Debug, PartialEq, Eq)]
pub(crate) struct Calm {
    since: u64,
    until: u64,
}

impl Calm {
    /// No stamp.
    pub(crate) fn never() -> Calm
        ensures { result ≡ never }
    {
        Calm { since: 1, until: 0 }
    }

    /// Whether the stamp is one of them.
    pub(crate) fn holds(&self, stamp: Ticks) -> bool
        ensures { result ≡ holds self.now stamp }
    {
        self.since <= stamp.get() && stamp.get() <= self.until
    }

    /// What is left of them: all, or none.
    pub(crate) fn kept_if(self, same: bool) -> Calm
        ensures { result ≡ (if same then self else never) }
    {
        if same { self } else { Calm::never() }
    }

    /// The stamps from the terminal's time on, where no wire of the peer failed: until its newest exchange grows too old, or it
    /// is silent. None where the alarms change at once.
    pub(crate) fn from(
        now: Ticks,
        locked: bool,
        yellow: bool,
        last: &Option<Receipt>,
        track: &Track,
        alarms: &Alarms,
    ) -> Calm
        ensures { IsCalm (record { locked = locked; yellow = yellow; faulty = false; last = last.now; track = track.now }) alarms.now result }
    {
        let Some(last) = last else {
            return Calm::never();
        };
        let Some(aligned_until) = track.aligned_until(now) else {
            return Calm::never();
        };
        let facts = Facts {
            locked,
            yellow,
            quiet: 0,
            aligned: true,
            faulty: false,
        };
        if !alarms.are_steady(&facts) {
            return Calm::never();
        }
        Calm {
            since: now.get(),
            until: aligned_until.min(last.at.get() + u64::from(alarms.silent())),
        }
    }
}
