//! What a terminal keeps of one peer.

ghost use Rattle.std.specs.Prelude.{◌≡◌, ◌≢◌, ◌≤◌, ◌+◌, ◌++◌, ◌∷◌, [], ℕ, List, None, false, length, map, option_map};
ghost use Rattle.std.specs.Option.{ForSome, option_to_list};
ghost use Rattle.ld_base.specs.Message.{Contents, IsEcho};
ghost use Rattle.ld_base.specs.declared.fields.Fields.{Fields};
ghost use Rattle.offset_track.specs.Track as track;
ghost use Rattle.payload_map.specs.Sent.{Slot};
ghost use Rattle.pingpong.specs.Exchange.{Stamps};
ghost use Rattle.sample_store.specs.declared.ring.Numbered.{Numbered};
ghost use Rattle.relay_core.specs.Answers.{news_in, news_of, taken_of};
ghost use Rattle.relay_core.specs.Calm.{holds};
ghost use Rattle.relay_core.specs.Follows.{Brings, Follows, SendsSlot, Signals, brought_in, exchanges_in, fresh_in, last_after};
ghost use Rattle.relay_core.specs.declared.answers.News.TheVariants as news;
ghost use Rattle.relay_core.specs.declared.call.Call.{Call};
ghost use Rattle.relay_core.specs.declared.call.Call.TheVariants as made;
ghost use Rattle.relay_core.specs.Log as log;
ghost use Rattle.relay_core.specs.Sent.{echo_of, message_of};
ghost use Rattle.relay_core.specs.Talks.{Begins, Talks};
ghost use Rattle.relay_core.specs.Turned.{IsCalmTrue, facts_kept, told, turned};

use crate::calm::Calm;
use crate::listener::Listener;
use crate::receipt::Receipt;
use crate::talker::Talker;
use crate::{Change, Changes, Heard, News, Outgoing};
use channel_alarm::{Alarms, Facts, Turn};
use ld_base::{Chunk, Echo, Message, Settings, Station, Ticks};
use offset_track::{Fresh, Taken, Track};
use pingpong::{Exchange, exchange_of};
use sample_store::Numbered;

/// Both directions of the line to a peer, the exchanges with it, and its alarms.
#[derive(Drop)]
pub(crate) struct Peer {
    pub(crate) station: Station,
    listener: Listener,
    talker: Talker,
    track: Track,
    // The last message that was accepted.
    last: Option<Receipt>,
    faulty: bool,
    alarms: Alarms,
    // The stamps at which the alarms stay as they are while nothing comes.
    calm: Calm,
}

impl Peer {
    /// A peer of station `me` before the first call.
    pub(crate) fn new(s: &Settings, station: Station) -> Peer
        ensures station { result.station ≡ station }
        ensures follows { (me : ℕ) → Follows s.now me [] result }
        ensures signals { (me : ℕ) → Signals s.now me [] result }
        ensures calm { IsCalmTrue result }
    {
        Peer {
            station,
            listener: Listener::new(s),
            talker: Talker::new(s),
            track: Track::new(s),
            last: None,
            faulty: false,
            alarms: Alarms::new(s),
            calm: Calm::never(),
        }
    }

    /// Hears the next bits of the peer's line at the terminal's time, and tells in `heard`, where nothing was told before, what
    /// they bring. It gives the exchange in force, where a message was accepted.
    pub(crate) fn hear(
        &mut self,
        me: Station,
        now: Ticks,
        chunk: &Chunk,
        heard: &mut Heard,
    ) -> Option<Fresh>
        requires nothing { (heard.old.news ≡ news.Nothing) × (heard.old.taken ≡ None) }
        requires calm { IsCalmTrue self.old }
        ensures station { self.new.station ≡ self.old.station }
        ensures alarms { self.new.alarms ≡ self.old.alarms }
        ensures calm { IsCalmTrue self.new }
        ensures at { ForSome result (λ chosen. chosen.at ≡ now) }
        ensures follows { (f : Fields) (calls : List Call) (at : ℕ) → Follows f me calls self.old
            → now ≡ log.now (calls ++ made.Bits at self.old.station chunk.now ∷ [])
            → Follows f me (calls ++ made.Bits at self.old.station chunk.now ∷ []) self.new }
        ensures brings { (f : Fields) (calls : List Call) (at : ℕ) → Follows f me calls self.old
            → now ≡ log.now (calls ++ made.Bits at self.old.station chunk.now ∷ [])
            → Brings f me calls self.old.station (made.Bits at self.old.station chunk.now) (brought_in heard.new result) }
        ensures rest { heard.new ≡ record heard.old { frame = heard.new.frame; news = heard.new.news; refused = heard.new.refused; taken = heard.new.taken } }
    {
        let before = self.state();
        self.faulty = false;
        let told = self.listener.hear(chunk);
        heard.frame = told.frame;
        heard.refused = told.refused;
        // Most frames complete no message.
        if told.message.is_none() {
            self.calm = self.calm.kept_if(self.state() == before);
            return None;
        }
        let news = news_of(self.station, me, &self.last, told.message);
        let (taken, fresh) = exchanged(&mut self.track, &news, now);
        keep(&mut self.last, &news, now);
        self.calm = Calm::from(
            now,
            self.listener.locked,
            self.listener.yellow,
            &self.last,
            &self.track,
            &self.alarms,
        );
        heard.news = news;
        heard.taken = taken;
        fresh
    }

    /// Writes the frame of the next slot, in which the message of the newest own sample may begin, into an answer to the peer.
    pub(crate) fn slot(
        &mut self,
        me: Station,
        now: Ticks,
        newest: &Option<Numbered>,
        out: &mut Outgoing,
    )
        requires other { self.old.station ≢ me }
        requires nothing { (out.old.to ≡ self.old.station) × (out.old.begun ≡ None) }
        ensures { SendsSlot me now newest.now self.old self.new out.new }
    {
        // Most slots carry on a message that has begun.
        if !self.talker.in_flight() {
            self.begin(me, now, newest, &mut out.begun);
        }
        self.talker.slot(!self.listener.locked, &mut out.bytes);
    }

    // Begins the message of the newest own sample, and tells it in `begun`, where it can begin with the next slot.
    #[inline(never)]
    fn begin(
        &mut self,
        me: Station,
        now: Ticks,
        newest: &Option<Numbered>,
        begun: &mut Option<Message>,
    )
        requires other { self.old.station ≢ me }
        requires nothing { begun.old ≡ None }
        ensures begins { (f : Fields) (slots : List (Slot Contents)) → Talks f self.old.talker slots
            → Begins f self.new.talker slots (option_map (message_of me self.old.station now (echo_of self.old.last)) newest.now) begun.new }
        ensures rest { self.new ≡ record self.old { talker = self.new.talker } }
    {
        let Some(sample) = newest else {
            return;
        };
        if !self.talker.takes(sample.number) {
            return;
        }
        let message = message_of(me, self.station, now, &self.last, *sample);
        self.talker.begin(&message);
        *begun = Some(message);
    }

    /// A call on a wire to or from the peer failed.
    pub(crate) fn fault(&mut self)
        ensures station { self.new.station ≡ self.old.station }
        ensures alarms { self.new.alarms ≡ self.old.alarms }
        ensures calm { IsCalmTrue self.new }
        ensures follows { (f : Fields) (me at : ℕ) (calls : List Call) → Follows f me calls self.old
            → Follows f me (calls ++ made.Fault at self.old.station ∷ []) self.new }
    {
        self.faulty = true;
        self.calm = Calm::never();
    }

    /// Turns the peer's alarms by what is known at the terminal's time, and adds those that changed to these changes.
    #[inline(always)]
    pub(crate) fn turn(&mut self, since: Ticks, now: Ticks, changes: &mut Changes)
        requires few { length changes.old.items + 5 ≤ 10 }
        requires calm { IsCalmTrue self.old }
        ensures turned { self.new ≡ turned since now self.old }
        ensures changes { changes.new.items ≡ changes.old.items ++ told since now self.old }
    {
        // Nearly always it is known that nothing changes.
        if !self.calm.holds(now) {
            self.look(since, now, changes);
        }
    }

    // The same where that isn't known.
    #[inline(never)]
    fn look(&mut self, since: Ticks, now: Ticks, changes: &mut Changes)
        requires few { length changes.old.items + 5 ≤ 10 }
        requires awake { holds self.old.calm now ≡ false }
        ensures turned { self.new ≡ turned since now self.old }
        ensures changes { changes.new.items ≡ changes.old.items ++ told since now self.old }
    {
        self.calm = Calm::never();
        let facts = self.facts(since, now);
        let turns = self.alarms.update(&facts);
        add(changes, self.station, &turns);
    }

    // What of the peer's channel goes straight into its alarms.
    fn state(&self) -> (bool, bool, bool)
        ensures { result ≡ (self.now.listener.locked, self.now.listener.yellow, self.now.faulty) }
    {
        (self.listener.locked, self.listener.yellow, self.faulty)
    }

    // What is known of the peer's channel.
    fn facts(&self, since: Ticks, now: Ticks) -> Facts
        ensures { result ≡ facts_kept since now self.now }
    {
        let heard = match self.last {
            Some(last) => last.at,
            None => since,
        };
        Facts {
            locked: self.listener.locked,
            yellow: self.listener.yellow,
            quiet: now.get().saturating_sub(heard.get()),
            aligned: self.track.is_aligned(now),
            faulty: self.faulty,
        }
    }
}

// What a message from a peer that was complete is to station `me`, which accepted this one last.
fn news_of(peer: Station, me: Station, last: &Option<Receipt>, message: Option<Message>) -> News
    ensures { map (news_of me peer last.now) (option_to_list message) ≡ news_in result }
{
    let Some(message) = message else {
        return News::Nothing;
    };
    if message.from != peer || message.to != me {
        return News::Stranger {
            address: message.from.get() * 16 + message.to.get(),
        };
    }
    match last {
        Some(last) if message.number <= last.message.number => News::Repeat {
            number: message.number,
            last: last.message.number,
        },
        _ => News::Accepted(message),
    }
}

// What becomes of the exchange of a message that is accepted at the terminal's time, where it has an echo, and the exchange that
// is in force then.
fn exchanged(kept: &mut Track, news: &News, now: Ticks) -> (Option<Taken>, Option<Fresh>)
    ensures settings { (kept.new.slow ≡ kept.old.slow) × (kept.new.age ≡ kept.old.age) }
    ensures taken { map (taken_of kept.old.slow) (exchanges_in now news.now) ≡ option_to_list result.0 }
    ensures at { ForSome result.1 (λ chosen. chosen.at ≡ now) }
    ensures stands { (offered : List Stamps) → track.StandsFor kept.old offered
        → track.StandsFor kept.new (offered ++ exchanges_in now news.now) }
    ensures fresh { (offered : List Stamps) → track.StandsFor kept.old offered
        → result.1 ≡ fresh_in kept.old.slow kept.old.age (offered ++ exchanges_in now news.now) now news.now }
{
    let News::Accepted(message) = news else {
        return (None, None);
    };
    let taken = offer(kept, exchange_of(message, now));
    (taken, kept.in_force(now))
}

// Hands an exchange to a track, where there is one.
fn offer(kept: &mut Track, exchange: Option<Exchange>) -> Option<Taken>
    ensures settings { (kept.new.slow ≡ kept.old.slow) × (kept.new.age ≡ kept.old.age) }
    ensures taken { result ≡ option_map (taken_of kept.old.slow) exchange }
    ensures stands { (offered : List Stamps) → track.StandsFor kept.old offered
        → track.StandsFor kept.new (offered ++ option_to_list exchange) }
{
    Some(kept.accept(exchange?))
}

// Keeps the message of this news as the last one accepted, where it is accepted at the terminal's time.
fn keep(last: &mut Option<Receipt>, news: &News, now: Ticks)
    ensures { last.new ≡ last_after last.old now news.now }
{
    if let News::Accepted(message) = news {
        *last = Some(Receipt {
            message: *message,
            at: now,
        });
    }
}

// The message that tells a peer of a sample, with an echo of the last message accepted.
fn message_of(
    me: Station,
    peer: Station,
    now: Ticks,
    last: &Option<Receipt>,
    sample: Numbered,
) -> Message
    requires { peer ≢ me }
    ensures { result ≡ message_of me peer now (echo_of last.now) sample }
{
    Message {
        from: me,
        to: peer,
        number: sample.number,
        sent: now.get(),
        echo: echo_of(last),
        phases: sample.values,
    }
}

// The echo of a message that was accepted.
fn echo_of(last: &Option<Receipt>) -> Option<Echo>
    ensures echo { result ≡ echo_of last.now }
    ensures small { ForSome result IsEcho }
{
    match last {
        None => None,
        Some(last) => Some(Echo {
            sent: last.message.sent,
            came: last.at.get(),
        }),
    }
}

// Adds the turns of a peer's alarms to some changes.
fn add(changes: &mut Changes, peer: Station, turns: &[Turn])
    requires { length changes.old.items + length turns.now ≤ 10 }
    ensures { changes.new.items ≡ changes.old.items ++ map (λ turn. record { peer = peer; turn = turn }) turns.now }
{
    for turn in turns {
        changes.push(Change { peer, turn: *turn });
    }
}
