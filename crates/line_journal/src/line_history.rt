//! What is known of a directed line: when its messages began, and the exchanges that they make.

ghost use Rattle.std.specs.Prelude.{◌≡◌, ◌==◌, ◌&&◌, ◌≤◌, ◌∷◌, [], None, OnOk, Some, find, option_map, take};
ghost use Rattle.line_journal.specs.Crossings.{is_same, legs_from};
ghost use Rattle.line_journal.specs.LineHistory.{AreRising, is_same_exchange};
ghost use Rattle.line_journal.specs.Told.{with_begun};

use crate::crossing::{Arrival, Beginning, Crossing, Legs};
use crate::now::Now;
use arrayvec::ArrayVec;
use ld_base::{Message, NoMemory, Station};
use pingpong::Exchange;
use std::alloc::Global;
use std::marker::Model;

/// What is known of a directed line: the messages that began on it, when its receiver accepted the last one, and the last eight
/// exchanges that its receiver kept.
#[derive(Drop)]
pub struct LineHistory {
    from: Station,
    to: Station,
    begun: Vec<Beginning>,
    last: Option<Arrival>,
    // The newest first, so that of equals the first is the newest.
    kept: ArrayVec<Crossing, 8>,
}

impl Model for LineHistory {
    ghost use Rattle.std.specs.Prelude.{◌-◌};
    ghost use Rattle.std.specs.Vec.{vec_capacity, vec_len};
    ghost use Rattle.line_journal.specs.LineHistory.{LineHistory};

    ghost Value = { LineHistory };

    ghost view = { λ l. record { from = l.from; to = l.to; begun = l.begun.items; last = l.last; newest_first = l.kept.items; room = vec_capacity l.begun - vec_len l.begun } };
}

impl LineHistory {
    /// A line from one station to another before the first message.
    pub fn new(alloc: Global, from: Station, to: Station) -> LineHistory
        ensures { result ≡ record { from = from; to = to; begun = []; last = None; newest_first = []; room = result.room } }
    {
        LineHistory {
            from,
            to,
            begun: Vec::new(alloc),
            last: None,
            kept: ArrayVec::new(),
        }
    }

    /// Makes room for so many messages more.
    pub fn make_room(&mut self, messages: usize) -> Result<(), NoMemory>
        ensures same { self.new ≡ record self.old { room = self.new.room } }
        ensures room { OnOk result (messages ≤ self.new.room) }
    {
        self.begun.reserve(messages)?;
        Ok(())
    }

    /// Whether this is the line from one station to another.
    pub fn goes(&self, from: Station, to: Station) -> bool
        ensures { result ≡ (self.now.from == from) && (self.now.to == to) }
    {
        self.from == from && self.to == to
    }

    /// The sender.
    pub fn from(&self) -> Station
        ensures { result ≡ self.now.from }
    {
        self.from
    }

    /// The receiver.
    pub fn to(&self) -> Station
        ensures { result ≡ self.now.to }
    {
        self.to
    }

    /// When the receiver accepted the last message.
    pub fn last(&self) -> Option<Arrival>
        ensures { result ≡ self.now.last }
    {
        self.last
    }

    /// A message begins, whose sender had accepted the last one from the receiver then.
    pub fn begin(&mut self, now: &Now, message: Message, heard: Option<Arrival>)
        requires { 1 ≤ self.old.room }
        ensures { self.new ≡ with_begun now.now.tick heard (Some message) self.old }
    {
        self.begun.push_reserved(Beginning {
            message,
            time: now.tick,
            heard,
        });
    }

    /// The receiver accepts a message: when it began, where it is one of those begun, and the legs of its exchange.
    pub fn accept(&mut self, now: &Now, message: &Message) -> (Arrival, Option<Legs>)
        ensures arrival { AreRising self.old.begun
            → result.0 ≡ record { came = now.now.tick; began = option_map (λ b. b.time) (find (λ b. is_same message.now b.message) self.old.begun) } }
        ensures legs { AreRising self.old.begun → result.1 ≡ legs_from now.now.tick (find (λ b. is_same message.now b.message) self.old.begun) }
        ensures last { self.new ≡ record self.old { last = Some result.0 } }
    {
        let beginning = find(&self.begun, message);
        let arrival = arrival_of(now.tick, &beginning);
        let legs = legs_from(now.tick, beginning);
        self.last = Some(arrival);
        (arrival, legs)
    }

    /// The receiver keeps an exchange.
    pub fn keep(&mut self, crossing: Crossing)
        ensures { self.new ≡ record self.old { newest_first = take 8 (crossing ∷ self.old.newest_first) } }
    {
        if self.kept.is_full() {
            self.kept.pop();
        }
        self.kept.insert(0, crossing);
    }

    /// The newest of the exchanges kept that is this one.
    pub fn kept(&self, exchange: &Exchange) -> Option<Crossing>
        ensures { result ≡ find (λ crossing. is_same_exchange crossing.exchange exchange.now) self.now.newest_first }
    {
        kept_of(self.kept.as_slice(), exchange)
    }
}

// The first crossing with this exchange.
fn kept_of(newest_first: &[Crossing], exchange: &Exchange) -> Option<Crossing>
    ensures { result ≡ find (λ crossing. is_same_exchange crossing.exchange exchange.now) newest_first.now }
{
    for crossing in newest_first {
        if is_same_exchange(&crossing.exchange, exchange) {
            return Some(*crossing);
        }
    }
    None
}

// The message that began, where the numbers of those that did rise.
fn find(begun: &[Beginning], message: &Message) -> Option<Beginning>
    ensures { AreRising begun.now → result ≡ find (λ b. is_same message.now b.message) begun.now }
{
    match begun.binary_search_by_key(&message.number, |b| b.message.number) {
        Ok(place) if is_same(message, &begun[place].message) => Some(begun[place]),
        _ => None,
    }
}

// When a message came that is accepted at a true time.
fn arrival_of(came: u64, beginning: &Option<Beginning>) -> Arrival
    ensures { result ≡ record { came = came; began = option_map (λ b. b.time) beginning.now } }
{
    let began = match beginning {
        Some(beginning) => Some(beginning.time),
        None => None,
    };
    Arrival { came, began }
}

// Whether two messages say the same in every field.
fn is_same(one: &Message, other: &Message) -> bool
    ensures { result ≡ is_same one.now other.now }
{
    one == other
}

// Whether two exchanges have the same stamps.
fn is_same_exchange(one: &Exchange, other: &Exchange) -> bool
    ensures { result ≡ is_same_exchange one.now other.now }
{
    one == other
}

// The legs of the exchange that a message completes at a true time, where it and the one that it echoes are honest.
fn legs_from(back: u64, beginning: Option<Beginning>) -> Option<Legs>
    ensures { result ≡ legs_from back beginning }
{
    let turn = beginning?;
    let heard = turn.heard?;
    Some(Legs {
        sent: heard.began?,
        came: heard.came,
        turned: turn.time,
        back,
    })
}
