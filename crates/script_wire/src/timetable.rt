//! What the rules of a line say of a tick.

ghost use Rattle.std.specs.Prelude.{◌≡◌, ◌<◌, ◌≤◌, ◌+◌, ◌-◌, ◌^◌, ◌++◌, ◌∷◌, ℕ, [], List, length, min, max, vec_len, vec_capacity, if◌then◌else◌, IfOk};
ghost use Rattle.ld_base.specs.Script.{acts_at, covers, delay_at, delay_of, earlier, failing_from, next_failing, send_fails, take_fails};
ghost use Rattle.ld_base.specs.declared.rule.Rule.{Rule};
ghost use Rattle.ld_base.specs.declared.rule.Act.{Act};
ghost use Rattle.script_wire.specs.Wires.{rules_of, Stays};

use ld_base::{Act, NoMemory, Rule, Station};
use std::alloc::Global;
use std::marker::Model;

/// Ticks that are given if no rule says otherwise.
const USUAL_DELAY: u32 = 1000;

/// The rules of a line, with what they say of the ticks around the one that was looked at last. Within those ticks no rule
/// begins or ends, so the rules are gone over again only at a tick outside them.
#[derive(Drop)]
pub(crate) struct Timetable {
    rules: Vec<Rule>,
    acts: Vec<Act>,
    stretch: Stretch,
}

/// Ticks within which no rule begins or ends, the delay in them, and the next tick after them at which a `take` fails.
#[derive(Clone, Copy)]
struct Stretch {
    from: u64,
    to: u64,
    delay: u32,
    failing: Option<u64>,
}

impl Model for Timetable {
    ghost use Rattle.std.specs.Prelude.{◌≤◌, vec_len, vec_capacity};
    ghost use Rattle.script_wire.specs.Wires.{Stays, Timetable};

    ghost Value = { Timetable };

    ghost view = { λ t. record { rules = t.rules.items; from = t.stretch.from; to = t.stretch.to } };

    ghost invariant = { λ t. (vec_len t.rules ≤ vec_capacity t.acts) × Stays t.rules.items t.acts.items t.stretch.from t.stretch.to t.stretch.delay t.stretch.failing };
}

impl Timetable {
    /// The rules of the line from one station to another.
    pub(crate) fn new(
        alloc: Global,
        rules: &[Rule],
        from: Station,
        to: Station,
    ) -> Result<Timetable, NoMemory>
        ensures { IfOk result (λ timetable. timetable.rules ≡ rules_of from to rules.now) }
    {
        let rules = of_line(alloc, rules, from, to)?;
        let mut acts = Vec::with_capacity(alloc, rules.len())?;
        let stretch = look(&rules, 0, &mut acts);
        Ok(Timetable {
            rules,
            acts,
            stretch,
        })
    }

    /// Looks at a tick.
    pub(crate) fn go_to(&mut self, at: u64)
        ensures rules { self.new.rules ≡ self.old.rules }
        ensures from { self.new.from ≤ at }
        ensures to { at ≤ self.new.to }
    {
        if at < self.stretch.from || at > self.stretch.to {
            self.stretch = look(&self.rules, at, &mut self.acts);
        }
    }

    /// What the rules do in these ticks.
    pub(crate) fn acts(&self) -> &[Act]
        ensures { (t : ℕ) → self.now.from ≤ t → t ≤ self.now.to → result.now ≡ acts_at self.now.rules t }
    {
        &self.acts
    }

    /// The delay in these ticks.
    pub(crate) fn delay(&self) -> u32
        ensures { (t : ℕ) → self.now.from ≤ t → t ≤ self.now.to → result ≡ delay_at self.now.rules t }
    {
        self.stretch.delay
    }

    /// Whether a `send` fails in these ticks.
    pub(crate) fn send_fails(&self) -> bool
        ensures { (t : ℕ) → self.now.from ≤ t → t ≤ self.now.to → result ≡ send_fails self.now.rules t }
    {
        !self.acts.is_empty() && self.acts.contains(&Act::FailSend)
    }

    /// Whether a `take` fails in these ticks.
    pub(crate) fn take_fails(&self) -> bool
        ensures { (t : ℕ) → self.now.from ≤ t → t ≤ self.now.to → result ≡ take_fails self.now.rules t }
    {
        !self.acts.is_empty() && self.acts.contains(&Act::FailTake)
    }

    /// The least tick from this one on at which a `take` fails.
    pub(crate) fn next_failing(&self, at: u64) -> Option<u64>
        ensures { result ≡ next_failing self.now.rules at }
    {
        if at < self.stretch.from || at > self.stretch.to {
            return rules_fail_from(&self.rules, at);
        }
        if self.take_fails() {
            return Some(at);
        }
        self.stretch.failing
    }
}

// The rules of the line from one station to another, in their order.
fn of_line(alloc: Global, rules: &[Rule], from: Station, to: Station) -> Result<Vec<Rule>, NoMemory>
    ensures { IfOk result (λ kept. kept.items ≡ rules_of from to rules.now) }
{
    let mut kept = Vec::new(alloc);
    for rule in rules {
        if rule.from == from && rule.to == to {
            kept.push(*rule)?;
        }
    }
    Ok(kept)
}

// Looks at a tick: the acts that cover it, and the ticks around it in which the rules say the same.
fn look(rules: &[Rule], at: u64, acts: &mut Vec<Act>) -> Stretch
    requires { length rules.now ≤ vec_capacity acts.old }
    ensures room { vec_capacity acts.new ≡ vec_capacity acts.old }
    ensures here { (result.from ≤ at) × (at ≤ result.to) }
    ensures stays { Stays rules.now acts.new.items result.from result.to result.delay result.failing }
{
    acts.clear();
    let mut stretch = Stretch {
        from: 0,
        to: u64::MAX,
        delay: USUAL_DELAY,
        failing: None,
    };
    for rule in rules {
        stretch = stretch.with(rule, at);
        add_covering(acts, rule, at);
    }
    stretch
}

// Adds the act of a rule that covers the tick.
fn add_covering(acts: &mut Vec<Act>, rule: &Rule, at: u64)
    requires { vec_len acts.old < vec_capacity acts.old }
    ensures items { acts.new.items ≡ (if covers at rule.now then acts.old.items ++ rule.now.act ∷ [] else acts.old.items) }
    ensures len { vec_len acts.new ≤ vec_len acts.old + 1 }
    ensures room { vec_capacity acts.new ≡ vec_capacity acts.old }
{
    if rule.first <= at && at <= rule.last {
        acts.push_reserved(rule.act);
    }
}

impl Stretch {
    // The part of the stretch around a tick in which a further rule says the same.
    fn with(self, rule: &Rule, at: u64) -> Stretch
        requires { (self.from ≤ at) × (at ≤ self.to) }
        ensures here { (result.from ≤ at) × (at ≤ result.to) }
        ensures stays { (rules : List Rule) → (acts : List Act) → Stays rules acts self.from self.to self.delay self.failing
            → Stays (rules ++ rule.now ∷ []) (if covers at rule.now then acts ++ rule.now.act ∷ [] else acts) result.from result.to result.delay result.failing }
    {
        if at < rule.first {
            self.before(rule)
        } else if at <= rule.last {
            self.within(rule)
        } else {
            self.after(rule)
        }
    }

    // Of a rule that begins later.
    fn before(self, rule: &Rule) -> Stretch
        requires { self.from < rule.now.first }
        ensures here { (result.from ≡ self.from) × (result.to ≡ min self.to (rule.now.first - 1)) }
        ensures stays { (rules : List Rule) → (acts : List Act) → Stays rules acts self.from self.to self.delay self.failing
            → Stays (rules ++ rule.now ∷ []) acts result.from result.to result.delay result.failing }
    {
        Stretch {
            to: self.to.min(rule.first - 1),
            failing: earlier(self.failing, fails_from(rule, 0)),
            ..self
        }
    }

    // Of a rule that covers the tick.
    fn within(self, rule: &Rule) -> Stretch
        ensures here { (result.from ≡ max self.from rule.now.first) × (result.to ≡ min self.to rule.now.last) }
        ensures stays { (rules : List Rule) → (acts : List Act) → Stays rules acts self.from self.to self.delay self.failing
            → Stays (rules ++ rule.now ∷ []) (acts ++ rule.now.act ∷ []) result.from result.to result.delay result.failing }
    {
        Stretch {
            from: self.from.max(rule.first),
            to: self.to.min(rule.last),
            delay: delay_after(self.delay, rule),
            ..self
        }
    }

    // Of a rule that has begun and doesn't cover the tick.
    fn after(self, rule: &Rule) -> Stretch
        requires { rule.now.last < 2 ^ 64 - 1 }
        ensures here { (result.from ≡ max self.from (max rule.now.first (rule.now.last + 1))) × (result.to ≡ self.to) }
        ensures stays { (rules : List Rule) → (acts : List Act) → Stays rules acts self.from self.to self.delay self.failing
            → Stays (rules ++ rule.now ∷ []) acts result.from result.to result.delay result.failing }
    {
        Stretch {
            from: self.from.max(rule.first).max(rule.last + 1),
            delay: delay_after(self.delay, rule),
            ..self
        }
    }
}

/// The earlier of two ticks that may be missing.
pub(crate) fn earlier(tick: Option<u64>, other: Option<u64>) -> Option<u64>
    ensures { result ≡ earlier tick other }
{
    match (tick, other) {
        (Some(tick), Some(other)) => Some(tick.min(other)),
        (None, other) => other,
        (tick, None) => tick,
    }
}

// The least tick from this one on at which a rule makes a `take` fail.
fn fails_from(rule: &Rule, at: u64) -> Option<u64>
    ensures { result ≡ failing_from at rule.now }
{
    let first = at.max(rule.first);
    if rule.act == Act::FailTake && first <= rule.last {
        Some(first)
    } else {
        None
    }
}

// The delay after a rule that has begun.
fn delay_after(delay: u32, rule: &Rule) -> u32
    ensures { result ≡ delay_of delay rule.now.act }
{
    match rule.act {
        Act::Delay(ticks) => ticks,
        _ => delay,
    }
}

// The least tick from this one on at which one of these rules makes a `take` fail.
fn rules_fail_from(rules: &[Rule], at: u64) -> Option<u64>
    ensures { result ≡ next_failing rules.now at }
{
    let mut least = None;
    for rule in rules {
        least = earlier(least, fails_from(rule, at));
    }
    least
}
