//! What is told of a run, and what must be known of it to tell more.

ghost use Rattle.std.specs.Prelude.{◌≡◌, ◌≢◌, ◌+◌, ◌-◌, ◌<◌, ◌≤◌, ◌++◌, ◌∷◌, [], ℕ, if◌then◌else◌, List, All, IfOk, None, OnOk, Option, Some, is_some, length, map, option_map, slice_get};
ghost use Rattle.std.specs.List.{list_any};
ghost use Rattle.std.specs.Option.{option_to_list};
ghost use Rattle.std.specs.Vec.{vec_capacity, vec_len};
ghost use Rattle.ld_base.specs.Settings.{setting_fault};
ghost use Rattle.ld_base.specs.declared.fields.Fields.{Fields};
ghost use Rattle.ld_base.specs.declared.phases.Phases.{Phases};
ghost use Rattle.pingpong.specs.declared.journal.Entry.{Entry};
ghost use Rattle.pingpong.specs.declared.journal.What.{What};
ghost use Rattle.pingpong.specs.declared.journal.What.TheVariants as what;
ghost use Rattle.relay_core.specs.Answers.{changes_by};
ghost use Rattle.relay_core.specs.Log as log;
ghost use Rattle.relay_core.specs.declared.call.Call.TheVariants as made;
ghost use Rattle.waveform_reader.specs.Sound.{IsStation};
ghost use Rattle.relay_core.specs.IsAnswer.{IsHeard, IsSampled, IsSlotted};
ghost use Rattle.line_journal.specs.Account.{IsAccount, entry_at};
ghost use Rattle.line_journal.specs.Inside.{IsEmpty, roomless, way_of};
ghost use Rattle.line_journal.specs.LineHistory.{AreRising};
ghost use Rattle.line_journal.specs.Stations.{ways};
ghost use Rattle.line_journal.specs.Report.{alarm_line, bound_of, error_of, est_line, set_line};
ghost use Rattle.relay_core.specs.StationLog.{StationLog, stamp_at};
ghost use Rattle.line_journal.specs.Totals.{has_trip};
ghost use Rattle.line_journal.specs.Told.{accepted_in, arrival_on, begun_to, crossing_told, heard_from, kept_then, last_on, legs_kept, more, with_accepted, with_arrival, with_heard, with_judged, with_slot};

use crate::crossing::{Arrival, Crossing, Legs};
use crate::line::{Line, Total};
use crate::line_history::LineHistory;
use crate::now::Now;
use crate::stations::{directed_lines, station};
use bit_sync::Got;
use ld_base::{Message, NoMemory, Settings, Station, Ticks};
use offset_track::Taken;
use pingpong::{Exchange, exchange_of};
use relay_core::{Change, Changes, Heard, Judged, News, Outgoing, Sampled, Slotted};
use std::alloc::Global;
use std::marker::Model;
use trip_logic::Verdict;

/// The most lines of a call: an estimate, a set, and ten alarms.
const MOST_LINES: usize = 12;

/// Millionths of a tick.
const MILLION: i128 = 1_000_000;

/// The lines, the totals of the stations, how many accepted messages aren't honest, and a history for each directed line.
#[derive(Drop)]
pub struct Account {
    settings: Settings,
    lines: Vec<Line>,
    totals: [Total; 3],
    forged: u64,
    histories: Vec<LineHistory>,
}

impl Model for Account {
    ghost use Rattle.line_journal.specs.Account.{Account};

    ghost Value = { Account };

    ghost use Rattle.line_journal.specs.Inside.{AreHistories, account_of};

    ghost view = { account_of };

    ghost invariant = { AreHistories };
}

impl Account {
    /// The account of an empty journal.
    pub fn new(alloc: Global, s: &Settings) -> Result<Account, NoMemory>
        requires { setting_fault s.now ≡ None }
        ensures settings { IfOk result (λ account. account.settings ≡ s.now) }
        ensures account { IfOk result (λ account. IsAccount account []) }
    {
        Ok(Account {
            settings: *s,
            lines: Vec::new(alloc),
            totals: [Total::default(); 3],
            forged: 0,
            histories: histories_of(alloc, s)?,
        })
    }

    /// The lines.
    pub fn lines(&self) -> &[Line]
        ensures { result.now ≡ self.now.lines }
    {
        &self.lines
    }

    /// What a station counted.
    pub fn total(&self, station: Station) -> Total
        ensures { slice_get self.now.totals (station - 1) ≡ Some result }
    {
        self.totals[usize::from(station.get()) - 1]
    }

    /// How many accepted messages don't equal one that began earlier on their line.
    pub fn forged(&self) -> u64
        ensures { result ≡ self.now.forged }
    {
        self.forged
    }

    /// Makes room for what so many calls can tell.
    pub fn make_room(&mut self, calls: usize) -> Result<(), NoMemory>
        requires { calls ≤ 18 }
        ensures same { self.new ≡ record self.old { histories = self.new.histories; room = self.new.room } }
        ensures account { (journal : List Entry) → IsAccount self.old journal → IsAccount self.new journal }
        ensures room { OnOk result (calls ≤ self.new.room) }
    {
        self.lines.reserve(MOST_LINES * calls)?;
        make_room_on(&mut self.histories, calls)
    }

    /// A terminal answered this to its sample.
    pub fn sampled(&mut self, now: &Now, me: Station, sampled: &Sampled)
        requires there { IsStation self.old.settings.stations me }
        requires room { 1 ≤ self.old.room }
        ensures settings { self.new.settings ≡ self.old.settings }
        ensures room { self.old.room ≤ self.new.room + 1 }
        ensures account { (journal : List Entry) (values : Phases) → IsAccount self.old journal
            → IsSampled self.old.settings me (StationLog me journal) (made.Sample (stamp_at me (entry_at now.now (what.Took me values))) values) sampled.now
            → IsAccount self.new (journal ++ entry_at now.now (what.Took me values) ∷ []) }
    {
        let total = &mut self.totals[usize::from(me.get()) - 1];
        count_judged(total, sampled.judged);
        decide(&mut self.lines, now, me, sampled.judged, &sampled.changes);
    }

    /// A terminal answered this to its slot.
    pub fn slotted(&mut self, now: &Now, me: Station, slotted: &Slotted)
        requires there { IsStation self.old.settings.stations me }
        requires room { 1 ≤ self.old.room }
        ensures settings { self.new.settings ≡ self.old.settings }
        ensures room { self.old.room ≤ self.new.room + 1 }
        ensures account { (journal : List Entry) (first : List ℕ) (second : Option (List ℕ)) → IsAccount self.old journal
            → IsSlotted self.old.settings me (StationLog me journal) (made.Slot (stamp_at me (entry_at now.now (what.Slot me first second)))) slotted.now
            → IsAccount self.new (journal ++ entry_at now.now (what.Slot me first second) ∷ []) }
    {
        begin_all(&mut self.histories, now, me, &slotted.frames);
        decide(&mut self.lines, now, me, None, &slotted.changes);
    }

    /// A terminal answered this to bits from a peer, at its time then.
    pub fn heard(&mut self, now: &Now, me: Station, peer: Station, at: Ticks, heard: &Heard)
        requires there { IsStation self.old.settings.stations me }
        requires peer_there { IsStation self.old.settings.stations peer }
        requires differ { peer ≢ me }
        requires room { 1 ≤ self.old.room }
        ensures settings { self.new.settings ≡ self.old.settings }
        ensures room { self.old.room ≤ self.new.room + 1 }
        ensures account { (journal : List Entry) (bits : List ℕ) → IsAccount self.old journal
            → at ≡ log.now (StationLog me (journal ++ entry_at now.now (what.Came me peer bits) ∷ []))
            → IsHeard self.old.settings me peer (StationLog me journal) (made.Bits (stamp_at me (entry_at now.now (what.Came me peer bits))) peer bits) heard.now
            → IsAccount self.new (journal ++ entry_at now.now (what.Came me peer bits) ∷ []) }
    {
        let total = &mut self.totals[usize::from(me.get()) - 1];
        count_heard(total, heard);
        count_judged(total, heard.judged);
        let place = place_of(self.settings.fields().stations, peer, me);
        let history = &mut self.histories[place];
        let arrival = meet(history, now, at, heard);
        count_forged(&mut self.forged, arrival);
        estimate(
            &mut self.lines,
            &self.settings,
            history,
            now,
            me,
            peer,
            heard,
        );
        decide(&mut self.lines, now, me, heard.judged, &heard.changes);
    }

    /// A call on a wire to or from a peer failed, and the terminal told these changes.
    pub fn faulted(&mut self, now: &Now, me: Station, changes: &Changes)
        requires there { IsStation self.old.settings.stations me }
        requires room { 1 ≤ self.old.room }
        ensures settings { self.new.settings ≡ self.old.settings }
        ensures room { self.old.room ≤ self.new.room + 1 }
        ensures took { (journal : List Entry) (peer : ℕ) → IsAccount self.old journal
            → changes.now.items ≡ changes_by self.old.settings me (StationLog me journal) (made.Fault (stamp_at me (entry_at now.now (what.TakeFailed me peer))) peer)
            → IsAccount self.new (journal ++ entry_at now.now (what.TakeFailed me peer) ∷ []) }
        ensures sent { (journal : List Entry) (peer : ℕ) → IsAccount self.old journal
            → changes.now.items ≡ changes_by self.old.settings me (StationLog me journal) (made.Fault (stamp_at me (entry_at now.now (what.SendFailed me peer))) peer)
            → IsAccount self.new (journal ++ entry_at now.now (what.SendFailed me peer) ∷ []) }
    {
        decide(&mut self.lines, now, me, None, changes);
    }
}

// Makes room for so many messages on each line.
fn make_room_on(histories: &mut [LineHistory], messages: usize) -> Result<(), NoMemory>
    ensures same { map roomless histories.new ≡ map roomless histories.old }
    ensures room { OnOk result (All (λ l. messages ≤ l.room) histories.new) }
{
    for history in histories.iter_mut() {
        history.make_room(messages)?;
    }
    Ok(())
}

// Adds the lines of what a station decided: a set, and the alarms that changed.
fn decide(lines: &mut Vec<Line>, now: &Now, me: Station, judged: Option<Judged>, changes: &[Change])
    requires few { length changes.now ≤ 10 }
    requires room { vec_len lines.old + 11 ≤ vec_capacity lines.old }
    ensures lines { lines.new.items ≡ lines.old.items ++ map (set_line now.now.tick me) (option_to_list judged) ++ map (alarm_line now.now.tick me) changes.now }
    ensures room { (vec_capacity lines.new ≡ vec_capacity lines.old) × (vec_len lines.new ≤ vec_len lines.old + 11) }
{
    add_set(lines, now, me, judged);
    for change in changes {
        lines.push_reserved(Line::Alarm {
            time: now.tick,
            station: me,
            peer: change.peer,
            turn: change.turn,
        });
    }
}

// Adds the line of a set, or none.
fn add_set(lines: &mut Vec<Line>, now: &Now, me: Station, judged: Option<Judged>)
    requires room { vec_len lines.old < vec_capacity lines.old }
    ensures lines { lines.new.items ≡ lines.old.items ++ map (set_line now.now.tick me) (option_to_list judged) }
    ensures room { (vec_capacity lines.new ≡ vec_capacity lines.old) × (vec_len lines.new ≤ vec_len lines.old + 1) }
{
    let Some(judged) = judged else {
        return;
    };
    let verdicts = judged.verdicts;
    lines.push_reserved(Line::Judged {
        time: now.tick,
        station: me,
        number: judged.number,
        verdicts,
    });
}

// Counts a set that was judged, or none.
fn count_judged(total: &mut Total, judged: Option<Judged>)
    ensures { total.new ≡ with_judged total.old judged }
{
    let trips = match &judged {
        Some(judged) => has_trip(judged),
        None => false,
    };
    count(&mut total.sets, judged.is_some());
    count(&mut total.trips, trips);
}

// Whether a set trips a phase.
fn has_trip(judged: &Judged) -> bool
    ensures { result ≡ has_trip judged.now }
{
    judged
        .verdicts
        .iter()
        .any(|verdict| matches!(verdict, Verdict::Trip))
}

// Counts what bits told.
fn count_heard(total: &mut Total, heard: &Heard)
    ensures { total.new ≡ with_heard total.old heard.now }
{
    let news = &heard.news;
    count(&mut total.accepted, matches!(news, News::Accepted(_)));
    count(&mut total.repeats, matches!(news, News::Repeat { .. }));
    count(&mut total.strange, matches!(news, News::Stranger { .. }));
    count(&mut total.refused, heard.refused.is_some());
    count(&mut total.slow, heard.taken == Some(Taken::Slow));
    count(&mut total.bad, matches!(heard.frame, Some(Got::Bad(_))));
}

// Counts one more, where that is so.
fn count(number: &mut u64, one_more: bool)
    ensures { number.new ≡ more number.old (if one_more then 1 else 0) }
{
    let before = *number;
    if one_more {
        *number = before.saturating_add(1);
    }
}

// Counts a message that arrived and isn't honest.
fn count_forged(forged: &mut u64, arrival: Option<Arrival>)
    ensures { forged.new ≡ with_arrival forged.old arrival }
{
    let untrue = match arrival {
        Some(arrival) => arrival.began.is_none(),
        None => false,
    };
    count(forged, untrue);
}

// The place of a directed line among those of so many stations: by receiver and then by sender.
fn place_of(stations: u8, from: Station, to: Station) -> usize
    requires stations { (2 ≤ stations) × (stations ≤ 3) }
    requires there { (from ≤ stations) × (to ≤ stations) }
    requires differ { from ≢ to }
    ensures { (f : Fields) → f.stations ≡ stations → slice_get (ways f) result ≡ Some (record { from = from; to = to }) }
{
    let before = if from < to {
        from.get() - 1
    } else {
        from.get() - 2
    };
    usize::from((to.get() - 1) * (stations - 1) + before)
}

// The messages that begin in a station's slot.
fn begin_all(histories: &mut [LineHistory], now: &Now, me: Station, frames: &[Outgoing])
    requires { All (λ l. 1 ≤ l.room) histories.old }
    ensures { (heard : ℕ → Option Arrival) × ((peer : ℕ) → 1 ≤ peer → peer ≤ 3 → heard peer ≡ last_on histories.old peer me)
        × (histories.new ≡ map (with_slot now.now.tick me heard frames.now) histories.old) }
{
    // Most slots begin no message.
    if !begins_any(frames) {
        return;
    }
    let heard = heard_by(histories, me);
    begin_on(histories, now, me, &heard, frames);
}

// Whether a message begins in one of some frames.
fn begins_any(frames: &[Outgoing]) -> bool
    ensures { result ≡ list_any (λ o. is_some o.begun) frames.now }
{
    frames.iter().any(|outgoing| outgoing.begun.is_some())
}

// When a station accepted the last message of each of the three.
fn heard_by(histories: &[LineHistory], me: Station) -> [Option<Arrival>; 3]
    ensures { (peer : ℕ) → 1 ≤ peer → peer ≤ 3 → slice_get result (peer - 1) ≡ Some (last_on histories.now peer me) }
{
    let first = last_on(histories, station(1), me);
    let second = last_on(histories, station(2), me);
    let third = last_on(histories, station(3), me);
    [first, second, third]
}

// When the receiver of a line accepted the last message.
fn last_on(histories: &[LineHistory], from: Station, to: Station) -> Option<Arrival>
    ensures { result ≡ last_on histories.now from to }
{
    for history in histories {
        if history.goes(from, to) {
            return history.last();
        }
    }
    None
}

// The messages that begin in a station's slot, which had accepted these last ones of its peers.
fn begin_on(
    histories: &mut [LineHistory],
    now: &Now,
    me: Station,
    heard: &[Option<Arrival>; 3],
    frames: &[Outgoing],
)
    requires { All (λ l. 1 ≤ l.room) histories.old }
    ensures { histories.new ≡ map (with_slot now.now.tick me (heard_from heard.now) frames.now) histories.old }
{
    for history in histories.iter_mut() {
        begin(history, now, me, heard, frames);
    }
}

// The same on one line.
fn begin(
    history: &mut LineHistory,
    now: &Now,
    me: Station,
    heard: &[Option<Arrival>; 3],
    frames: &[Outgoing],
)
    requires { 1 ≤ history.old.room }
    ensures { history.new ≡ with_slot now.now.tick me (heard_from heard.now) frames.now history.old }
{
    if history.from() != me {
        return;
    }
    let to = history.to();
    if let Some(message) = begun_to(frames, to) {
        history.begin(now, message, heard[usize::from(to.get()) - 1]);
    }
}

// The message that begins for a station.
fn begun_to(frames: &[Outgoing], to: Station) -> Option<Message>
    ensures { result ≡ begun_to to frames.now }
{
    for outgoing in frames {
        if outgoing.to == to {
            return outgoing.begun;
        }
    }
    None
}

// The receiver of a line accepts a message at its time, or none, and keeps the exchange that it completes, unless that took too long.
fn meet(history: &mut LineHistory, now: &Now, at: Ticks, heard: &Heard) -> Option<Arrival>
    ensures history { AreRising history.old.begun → history.new ≡ with_accepted now.now.tick at heard.now.taken (accepted_in heard.now.news) history.old }
    ensures arrival { AreRising history.old.begun → result ≡ option_map (arrival_on now.now.tick history.old) (accepted_in heard.now.news) }
    ensures same { (history.new.from ≡ history.old.from) × (history.new.to ≡ history.old.to) × (history.new.room ≡ history.old.room) }
{
    let News::Accepted(message) = heard.news else {
        return None;
    };
    let (arrival, legs) = history.accept(now, &message);
    if let (Some(Taken::Kept), Some(exchange)) = (heard.taken, exchange_of(&message, at)) {
        history.keep(Crossing { exchange, legs });
    }
    Some(arrival)
}

// Adds the line of the exchange in force, where its receiver kept one just then.
fn estimate(
    lines: &mut Vec<Line>,
    s: &Settings,
    history: &LineHistory,
    now: &Now,
    me: Station,
    peer: Station,
    heard: &Heard,
)
    requires room { vec_len lines.old < vec_capacity lines.old }
    ensures lines { (what : What) → lines.new.items ≡ lines.old.items
        ++ map (est_line s.now me peer (entry_at now.now what)) (option_to_list (crossing_told history.now heard.now.taken heard.now.chosen)) }
    ensures room { (vec_capacity lines.new ≡ vec_capacity lines.old) × (vec_len lines.new ≤ vec_len lines.old + 1) }
{
    let Some(chosen) = kept_then(heard.taken, heard.chosen) else {
        return;
    };
    lines.push_reserved(est_line(s, history, now, me, peer, &chosen));
}

// The exchange in force, where one was kept just then.
fn kept_then(taken: Option<Taken>, chosen: Option<Exchange>) -> Option<Exchange>
    ensures { result ≡ kept_then taken chosen }
{
    match taken {
        Some(Taken::Kept) => chosen,
        _ => None,
    }
}

// The line of the exchange in force, which the receiver of a line has kept.
fn est_line(
    s: &Settings,
    history: &LineHistory,
    now: &Now,
    me: Station,
    peer: Station,
    chosen: &Exchange,
) -> Line
    ensures { (what : What) → result ≡ est_line s.now me peer (entry_at now.now what) (record { exchange = chosen.now; legs = legs_kept history.now chosen.now }) }
{
    let bound = bound_with(s.fields().drift, now.tick, legs_kept(history, chosen));
    Line::Est {
        time: now.tick,
        station: me,
        peer,
        estimate2: chosen.estimate2(),
        round_trip: chosen.round_trip(),
        error: error_of(now, me, peer, chosen),
        bound,
    }
}

// The legs of an exchange that the receiver of a line has kept.
fn legs_kept(history: &LineHistory, exchange: &Exchange) -> Option<Legs>
    ensures { result ≡ legs_kept history.now exchange.now }
{
    match history.kept(exchange) {
        Some(crossing) => crossing.legs,
        None => None,
    }
}

// How far an estimate can be, where the legs of its exchange are known.
fn bound_with(drift: u32, time: u64, legs: Option<Legs>) -> Option<u128>
    ensures { result ≡ option_map (bound_of drift time) legs }
{
    match legs {
        Some(legs) => Some(bound_of(drift, time, legs)),
        None => None,
    }
}

// How far an estimate is from the true offset, in half millionths of a tick.
fn error_of(now: &Now, me: Station, peer: Station, chosen: &Exchange) -> u128
    ensures { (what : What) → result ≡ error_of me peer (entry_at now.now what) chosen.now }
{
    let own = i128::from(now.phases[usize::from(me.get()) - 1]);
    let other = i128::from(now.phases[usize::from(peer.get()) - 1]);
    (MILLION * i128::from(chosen.estimate2()) - 2 * (other - own)).unsigned_abs()
}

// How far it can be: by half its asymmetry, by the drift since the exchange began, and by a tick.
fn bound_of(drift: u32, time: u64, legs: Legs) -> u128
    ensures { result ≡ bound_of drift time legs }
{
    let there = u128::from(legs.came.saturating_sub(legs.sent));
    let back = u128::from(legs.back.saturating_sub(legs.turned));
    1_000_000 * there.abs_diff(back)
        + 4 * u128::from(drift) * u128::from(time.saturating_sub(legs.sent))
        + 2_000_000
}

// The histories of the directed lines, in their order.
fn histories_of(alloc: Global, s: &Settings) -> Result<Vec<LineHistory>, NoMemory>
    ensures ways { IfOk result (λ histories. map way_of histories.items ≡ ways s.now) }
    ensures empty { IfOk result (λ histories. All IsEmpty histories.items) }
{
    let lines = directed_lines(s);
    let mut histories = Vec::with_capacity(alloc, lines.len())?;
    for (from, to) in lines.iter() {
        histories.push(LineHistory::new(alloc, *from, *to))?;
    }
    Ok(histories)
}
