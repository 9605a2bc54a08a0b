//! What is kept of a peer between two of its messages.

ghost use Rattle.std.specs.Prelude.{◌≡◌, ◌≤◌, ◌++◌, ◌∷◌, [], List, is_none};
ghost use Rattle.std.specs.Option.{option_map_or, option_to_list};
ghost use Rattle.offset_track.specs.InForce.{InForce};
ghost use Rattle.offset_track.specs.Track.{with_exchange};
ghost use Rattle.offset_track.specs.Track as tracks;
ghost use Rattle.pingpong.specs.Exchange.{Stamps};
ghost use Rattle.resample.specs.Mixed.{Heard, MixedOf, follows, has_none, mixed_by, mixed_with};
ghost use Rattle.resample.specs.Mixer.{StandsFor};

use crate::Mixed;
use crate::between::{own_sample, weight};
use crate::values::mixed_phases;
use ld_base::{Message, Settings, Ticks};
use offset_track::{Fresh, Track};
use pingpong::{Exchange, exchange_of};
use std::marker::Model;

/// A peer's last message, and the exchanges with it.
#[derive(Drop)]
pub struct Mixer {
    settings: Settings,
    track: Track,
    last: Option<Message>,
}

impl Model for Mixer {
    ghost use Rattle.std.specs.Prelude.{◌≡◌};
    ghost use Rattle.resample.specs.Mixer.{Kept};

    ghost Value = { Kept };

    ghost view = { λ m. record { fields = m.settings; track = m.track; last = m.last } };

    ghost invariant = { λ m. (m.track.slow ≡ m.settings.slow) × (m.track.age ≡ m.settings.age) };
}

impl Mixer {
    /// A mixer for one peer, which has heard nothing.
    pub fn new(s: &Settings) -> Mixer
        ensures settings { result.fields ≡ s.now }
        ensures stands { StandsFor result [] }
    {
        Mixer {
            settings: *s,
            track: Track::new(s),
            last: None,
        }
    }

    /// Hears the next message of the peer, as it is accepted at the stamp `now`, and mixes its values with those of the message
    /// before. The exchange that it completes, if it has an echo, is kept first. None exactly where nothing was heard before, or
    /// the message before isn't numbered right before this one, or no exchange is in force at `now`, or the own number is
    /// negative or above 4294967295.
    pub fn hear(&mut self, now: Ticks, m: &Message) -> Option<Mixed>
        ensures settings { self.new.fields ≡ self.old.fields }
        ensures mixed { (heard : List Heard) → StandsFor self.old heard
            → result ≡ MixedOf self.old.fields heard (record { message = m.now; at = now }) }
        ensures none { (heard : List Heard) → StandsFor self.old heard
            → is_none result ≡ has_none self.old.fields heard (record { message = m.now; at = now }) }
        ensures stands { (heard : List Heard) → StandsFor self.old heard
            → StandsFor self.new (heard ++ record { message = m.now; at = now } ∷ []) }
    {
        keep(&mut self.track, exchange_of(m, now));
        let mixed = mixed_with(&self.settings, &self.track, &self.last, m, now);
        self.last = Some(*m);
        mixed
    }
}

// Keeps an exchange, if there is one.
fn keep(track: &mut Track, exchange: Option<Exchange>)
    ensures track { track.new ≡ option_map_or (with_exchange track.old) exchange track.old }
    ensures stands { (offered : List Stamps) → tracks.StandsFor track.old offered
        → tracks.StandsFor track.new (offered ++ option_to_list exchange) }
{
    if let Some(e) = exchange {
        track.accept(e);
    }
}

// What is mixed of a message and the last one before it.
fn mixed_with(
    settings: &Settings,
    track: &Track,
    last: &Option<Message>,
    m: &Message,
    now: Ticks,
) -> Option<Mixed>
    requires track { (track.now.slow ≡ settings.now.slow) × (track.now.age ≡ settings.now.age) }
    ensures { (offered : List Stamps) → tracks.StandsFor track.now offered
        → result ≡ mixed_with settings.now.spacing last.now m.now (InForce (λ e. e) settings.now.slow settings.now.age now offered) }
{
    let earlier = last.as_ref()?;
    if !follows(earlier, m) {
        return None;
    }
    let fresh = track.in_force(now)?;
    mixed_by(settings.fields().spacing, earlier, m, &fresh)
}

// Whether no number lies between those of two messages.
fn follows(earlier: &Message, m: &Message) -> bool
    ensures { result ≡ follows earlier.now m.now }
{
    m.number.checked_sub(1) == Some(earlier.number)
}

// What is mixed of two messages that follow each other, by the exchange in force.
fn mixed_by(spacing: u32, earlier: &Message, m: &Message, fresh: &Fresh) -> Option<Mixed>
    requires spacing { (500 ≤ spacing) × (spacing ≤ 10000) }
    ensures { result ≡ mixed_by spacing earlier.now m.now fresh.now.exchange }
{
    let first = earlier.number;
    let estimate2 = fresh.estimate2();
    let own = own_sample(spacing, first, estimate2)?;
    let weight = weight(spacing, first, estimate2, own);
    Some(Mixed {
        own,
        first,
        weight,
        exchange: fresh.exchange(),
        values: mixed_phases(spacing, weight, &earlier.phases, &m.phases),
    })
}
