//! The calls of a terminal.

ghost use Rattle.std.specs.Prelude.{◌≡◌, ◌≢◌, ◌≤◌, ◌++◌, ◌∷◌, [], ℕ, List, IfOk, None, OnOk, All, filter, length, map, Some, option_copied, option_map, slice_get};
ghost use Rattle.std.specs.List.{flat_map};
ghost use Rattle.std.specs.Option.{ForSome, option_to_list};
ghost use Rattle.ld_base.specs.declared.fields.Fields.{Fields};
ghost use Rattle.relay_core.specs.Answers.{changes_by, judgements, last_judged, placed_of};
ghost use Rattle.sample_store.specs.JudgedSet.{JudgedSet};
ghost use Rattle.sample_store.specs.Offers.{Offer};
ghost use Rattle.relay_core.specs.Decides.{Decides};
ghost use Rattle.relay_core.specs.Decided.{newest_after};
ghost use Rattle.relay_core.specs.Follows.{Follows, Signals, values_in};
ghost use Rattle.relay_core.specs.IsAnswer.{IsHeard, IsSampled, IsSlotted};
ghost use Rattle.relay_core.specs.Log.{clock, is_peer};
ghost use Rattle.relay_core.specs.declared.call.Call.{Call};
ghost use Rattle.relay_core.specs.Log as log;
ghost use Rattle.relay_core.specs.declared.call.Call.TheVariants as made;
ghost use Rattle.relay_core.specs.Sends.{SendsAll};
ghost use Rattle.relay_core.specs.StandsFor.{IsPeerOf, StandsFor, span_with};
ghost use Rattle.relay_core.specs.Turned.{IsCalmTrue, told, turned};
ghost use Rattle.relay_core.specs.declared.answers.News.TheVariants as news;

use crate::decider::Decider;
use crate::peer::Peer;
use crate::{Changes, Heard, Judged, News, Outgoing, Sampled, Slotted};
use arrayvec::ArrayVec;
use ld_base::{Chunk, NoMemory, Phases, SampleSet, Settings, Station, Ticks};
use offset_track::Fresh;
use sample_store::{Numbered, OwnTaken, Placed};
use std::alloc::Global;
use std::marker::Model;

/// A terminal of the line: it samples the own currents, sends and hears messages, aligns what it hears, and judges.
/// Its time is the greatest stamp handed to it so far, that of the present call included. No call after `new` takes memory.
#[derive(Drop)]
pub struct Terminal {
    settings: Settings,
    me: Station,
    span: Option<Span>,
    newest: Option<Numbered>,
    decider: Decider,
    peers: Vec<Peer>,
}

// The terminal's time at the first call and at the last.
#[derive(Clone, Copy, Debug, PartialEq, Eq)]
struct Span {
    since: Ticks,
    now: Ticks,
}

impl Model for Terminal {
    ghost use Rattle.relay_core.specs.StandsFor.{IsTerminal, Kept, kept_of};

    ghost Value = { Kept };

    ghost view = { kept_of };

    ghost invariant = { IsTerminal };
}

impl Terminal {
    /// The terminal of station `me` before the first call.
    pub fn new(alloc: Global, s: &Settings, me: Station) -> Result<Terminal, NoMemory>
        requires { me ≤ s.now.stations }
        ensures settings { IfOk result (λ t. (t.settings ≡ s.now) × (t.me ≡ me)) }
        ensures stands { IfOk result (λ t. StandsFor t []) }
    {
        Ok(Terminal {
            settings: *s,
            me,
            span: None,
            newest: None,
            decider: Decider::new(alloc, s, me)?,
            peers: peers_of(alloc, s, me)?,
        })
    }

    /// The terminal's time, in ticks. None exactly before the first call.
    pub fn clock(&self) -> Option<Ticks>
        ensures { (calls : List Call) → StandsFor self.now calls → result ≡ clock calls }
    {
        Some(self.span?.now)
    }

    /// The last set judged. None exactly where none was.
    pub fn last_set(&self) -> Option<&SampleSet>
        ensures { (calls : List Call) → StandsFor self.now calls → option_copied result ≡ last_judged self.now.settings self.now.me calls }
    {
        // A trip needs a set at least, so the last one is kept.
        let _ = self.settings.fields();
        self.decider.last()
    }

    /// Takes an own sample, and judges the set that it completes.
    #[inline(never)]
    pub fn sample(&mut self, now: Ticks, v: Phases) -> Sampled
        ensures settings { (self.new.settings ≡ self.old.settings) × (self.new.me ≡ self.old.me) }
        ensures answer { (calls : List Call) → StandsFor self.old calls
            → IsSampled self.old.settings self.old.me calls (made.Sample now v) result }
        ensures stands { (calls : List Call) → StandsFor self.old calls → StandsFor self.new (calls ++ made.Sample now v ∷ []) }
    {
        let span = span_with(self.span, now);
        let (since, now) = (span.since, span.now);
        self.span = Some(span);
        let (own, judged) = self.decider.own(now, v);
        self.newest = newest_after(self.newest, own, v);
        let mut sampled = Sampled {
            own,
            judged,
            changes: Changes::new(),
        };
        turn_all(&mut self.peers, since, now, &mut sampled.changes);
        sampled
    }

    /// The frames of the next slot, one to each peer.
    #[inline(never)]
    pub fn slot(&mut self, now: Ticks) -> Slotted
        ensures settings { (self.new.settings ≡ self.old.settings) × (self.new.me ≡ self.old.me) }
        ensures answer { (calls : List Call) → StandsFor self.old calls
            → IsSlotted self.old.settings self.old.me calls (made.Slot now) result }
        ensures stands { (calls : List Call) → StandsFor self.old calls → StandsFor self.new (calls ++ made.Slot now ∷ []) }
    {
        let span = span_with(self.span, now);
        let (since, now) = (span.since, span.now);
        self.span = Some(span);
        let mut slotted = Slotted {
            frames: ArrayVec::new(),
            changes: Changes::new(),
        };
        send_to_all(
            &mut self.peers,
            self.me,
            since,
            now,
            &self.newest,
            &mut slotted,
        );
        slotted
    }

    /// Takes in the next bits of the line from a peer.
    #[inline(never)]
    pub fn bits(&mut self, now: Ticks, peer: Station, chunk: &Chunk) -> Heard
        requires { IsPeerOf self.old peer }
        ensures settings { (self.new.settings ≡ self.old.settings) × (self.new.me ≡ self.old.me) }
        ensures answer { (calls : List Call) → StandsFor self.old calls
            → IsHeard self.old.settings self.old.me peer calls (made.Bits now peer chunk.now) result }
        ensures stands { (calls : List Call) → StandsFor self.old calls
            → StandsFor self.new (calls ++ made.Bits now peer chunk.now ∷ []) }
    {
        let span = span_with(self.span, now);
        let (since, now) = (span.since, span.now);
        self.span = Some(span);
        let place = place_of(self.me, peer);
        let mut heard = nothing_heard();
        let fresh = self.peers[place].hear(self.me, now, chunk, &mut heard);
        put(&mut self.decider, peer, fresh, &mut heard);
        turn_all(&mut self.peers, since, now, &mut heard.changes);
        heard
    }

    /// A call on a wire to or from a peer failed.
    pub fn fault(&mut self, now: Ticks, peer: Station) -> Changes
        requires { IsPeerOf self.old peer }
        ensures settings { (self.new.settings ≡ self.old.settings) × (self.new.me ≡ self.old.me) }
        ensures changes { (calls : List Call) → StandsFor self.old calls
            → result.items ≡ changes_by self.old.settings self.old.me calls (made.Fault now peer) }
        ensures stands { (calls : List Call) → StandsFor self.old calls → StandsFor self.new (calls ++ made.Fault now peer ∷ []) }
    {
        let span = span_with(self.span, now);
        let (since, now) = (span.since, span.now);
        self.span = Some(span);
        let place = place_of(self.me, peer);
        self.peers[place].fault();
        let mut changes = Changes::new();
        turn_all(&mut self.peers, since, now, &mut changes);
        changes
    }
}

// What bits tell that bring nothing.
fn nothing_heard() -> Heard
    ensures message { (result.news ≡ news.Nothing) × (result.taken ≡ None) }
    ensures set { (result.chosen ≡ None) × (result.placed ≡ None) × (result.judged ≡ None) }
    ensures changes { result.changes.items ≡ [] }
{
    Heard {
        frame: None,
        news: News::Nothing,
        refused: None,
        taken: None,
        chosen: None,
        placed: None,
        judged: None,
        changes: Changes::new(),
    }
}

// A terminal's time with a stamp more.
fn span_with(span: Option<Span>, stamp: Ticks) -> Span
    ensures { result ≡ span_with span stamp }
{
    match span {
        None => Span {
            since: stamp,
            now: stamp,
        },
        Some(span) => Span {
            since: span.since,
            now: span.now.max(stamp),
        },
    }
}

// Places the values of a message from a peer that was accepted while an exchange is in force, and judges the set that they
// complete. It tells all this in `heard`, which has the message.
fn put(decider: &mut Decider, peer: Station, fresh: Option<Fresh>, heard: &mut Heard)
    requires at { ForSome fresh (λ chosen. decider.old.store.now ≤ chosen.at) }
    requires in_range { peer ≤ decider.old.store.fields.stations }
    requires other { peer ≢ decider.old.store.me }
    requires nothing { (heard.old.chosen ≡ None) × (heard.old.placed ≡ None) × (heard.old.judged ≡ None) }
    ensures settings { (decider.new.store.fields ≡ decider.old.store.fields) × (decider.new.store.me ≡ decider.old.store.me) }
    ensures now { (now : ℕ) → decider.old.store.now ≤ now → ForSome fresh (λ chosen. chosen.at ≤ now) → decider.new.store.now ≤ now }
    ensures chosen { heard.new.chosen ≡ option_map (λ chosen. chosen.exchange) fresh }
    ensures placed { (f : Fields) (me : ℕ) (offers : List Offer) → Decides f me decider.old offers
        → flat_map (placed_of f offers) (values_in peer heard.old.news fresh) ≡ option_to_list heard.new.placed }
    ensures judged { (f : Fields) (me : ℕ) (offers : List Offer) → Decides f me decider.old offers
        → judgements f (JudgedSet f me) offers (values_in peer heard.old.news fresh) ≡ option_to_list heard.new.judged }
    ensures decides { (f : Fields) (me : ℕ) (offers : List Offer) → Decides f me decider.old offers
        → Decides f me decider.new (offers ++ values_in peer heard.old.news fresh) }
    ensures rest { heard.new ≡ record heard.old { chosen = heard.new.chosen; placed = heard.new.placed; judged = heard.new.judged } }
{
    let Some(fresh) = fresh else {
        return;
    };
    heard.chosen = Some(fresh.exchange());
    let News::Accepted(message) = &heard.news else {
        return;
    };
    let (placed, judged) = decider.place(fresh, peer, message.number, message.phases);
    heard.placed = Some(placed);
    heard.judged = judged;
}

// The peers of station `me`, before the first call.
fn peers_of(alloc: Global, s: &Settings, me: Station) -> Result<Vec<Peer>, NoMemory>
    ensures stations { IfOk result (λ peers. map (λ p. p.station) peers.items ≡ log.peers s.now me) }
    ensures follow { IfOk result (λ peers. All (Follows s.now me []) peers.items) }
    ensures signal { IfOk result (λ peers. All (Signals s.now me []) peers.items) }
    ensures calm { IfOk result (λ peers. All IsCalmTrue peers.items) }
{
    let mut peers = Vec::with_capacity(alloc, 2)?;
    add_peer(&mut peers, s, me, 1)?;
    add_peer(&mut peers, s, me, 2)?;
    add_peer(&mut peers, s, me, 3)?;
    Ok(peers)
}

// Adds a station to the peers of station `me`, where it is one.
fn add_peer(peers: &mut Vec<Peer>, s: &Settings, me: Station, number: u8) -> Result<(), NoMemory>
    requires { (1 ≤ number) × (number ≤ 3) }
    ensures stations { OnOk result (map (λ p. p.station) peers.new.items
        ≡ map (λ p. p.station) peers.old.items ++ filter (is_peer s.now me) (number ∷ [])) }
    ensures follow { OnOk result (All (Follows s.now me []) peers.old.items → All (Follows s.now me []) peers.new.items) }
    ensures signal { OnOk result (All (Signals s.now me []) peers.old.items → All (Signals s.now me []) peers.new.items) }
    ensures calm { OnOk result (All IsCalmTrue peers.old.items → All IsCalmTrue peers.new.items) }
{
    if number > s.fields().stations || number == me.get() {
        return Ok(());
    }
    let Some(station) = Station::new(number) else {
        unreachable!()
    };
    peers.push(Peer::new(s, station))?;
    Ok(())
}

// The place of a peer in the list of station `me`.
fn place_of(me: Station, peer: Station) -> usize
    requires { peer ≢ me }
    ensures { (f : Fields) → peer ≤ f.stations → slice_get (log.peers f me) result ≡ Some peer }
{
    let before = usize::from(peer.get()) - 1;
    if peer > me { before - 1 } else { before }
}

// The newest own sample, where this became of one.
fn newest_after(newest: Option<Numbered>, own: OwnTaken, v: Phases) -> Option<Numbered>
    ensures { result ≡ newest_after newest own v }
{
    match own {
        OwnTaken::Took(number) => Some(Numbered { number, values: v }),
        OwnTaken::OffGrid | OwnTaken::Again(_) => newest,
    }
}

// The frames of the next slot, one to each peer, and the alarms that turned, where nothing was told before.
fn send_to_all(
    peers: &mut [Peer],
    me: Station,
    since: Ticks,
    now: Ticks,
    newest: &Option<Numbered>,
    slotted: &mut Slotted,
)
    requires few { length peers.old ≤ 2 }
    requires others { All (λ p. p.station ≢ me) peers.old }
    requires calm { All IsCalmTrue peers.old }
    requires none { (slotted.old.frames.items ≡ []) × (slotted.old.changes.items ≡ []) }
    ensures { SendsAll me since now newest.now peers.old peers.new slotted.new.frames.items slotted.new.changes.items }
{
    for peer in peers.iter_mut() {
        let place = slotted.frames.len();
        // The frame is written where it is told.
        slotted.frames.push(Outgoing {
            to: peer.station,
            bytes: [0; 32],
            begun: None,
        });
        peer.slot(me, now, newest, &mut slotted.frames[place]);
        peer.turn(since, now, &mut slotted.changes);
    }
}

// Turns the alarms of every peer, and tells which of them changed, where none were told before.
#[inline(always)]
fn turn_all(peers: &mut [Peer], since: Ticks, now: Ticks, changes: &mut Changes)
    requires few { length peers.old ≤ 2 }
    requires calm { All IsCalmTrue peers.old }
    requires none { changes.old.items ≡ [] }
    ensures turned { peers.new ≡ map (turned since now) peers.old }
    ensures changes { changes.new.items ≡ flat_map (told since now) peers.old }
{
    for peer in peers.iter_mut() {
        peer.turn(since, now, changes);
    }
}
