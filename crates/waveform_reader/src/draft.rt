//! The records behind the settings, as they are read one after another.

ghost use Rattle.std.specs.Prelude.{◌≡◌, ◌≤◌, ◌-◌, ◌==◌, ◌&&◌, None, IfErr, OnOk, count_by, max, nat_lt, slice_index, slice_set};
ghost use Rattle.std.specs.List.{list_any};
ghost use Rattle.csv.specs.Records.{fields_of};
ghost use Rattle.ld_base.specs.Settings.{IsWithin, setting_fault};
ghost use Rattle.waveform_reader.specs.Draft.{is_astray, is_delay, is_failure, is_later_delay, is_one_line, is_out_of_order, is_repeat, is_rule_too_many, is_too_many, no_records, record_fault, row_fault, row_says, with_record, with_row};
ghost use Rattle.setting_rows.specs.Refusals.{RefusedBy};
ghost use Rattle.waveform_reader.specs.Scenario.{setup_of};
ghost use Rattle.waveform_reader.specs.Sound.{IsDraft, IsSetup};

use crate::clocks::scenario_of;
use crate::column::are_between;
use crate::kind::Kind;
use crate::record::{Rating, Record, Start, record_of};
use crate::scenario::Scenario;
use crate::shape::ShapeFrom;
use csv::ByteRecord;
use ld_base::{Act, Fields, NoMemory, Reason, Rule, Settings, Station};
use row_reader::{field, numbers_of};
use setting_rows::{Head, Known, Refusal};
use std::alloc::Global;
use std::marker::Model;

/// The most numbers that follow the name of a record.
const MOST_NUMBERS: usize = 8;

/// The most rates of a clock.
const MOST_RATES: usize = 16;

/// The most rules of a script.
const MOST_RULES: usize = 1000;

/// The most repeats of a script.
const MOST_REPEATS: usize = 4;

/// How many ticks after its first a failure may end.
const LONGEST_FAILURE: u64 = 1000;

/// What the records so far say.
#[derive(Drop)]
pub(crate) struct Draft {
    starts: Vec<Start>,
    rates: Vec<Rating>,
    shapes: Vec<ShapeFrom>,
    // The greatest first tick of each station's shapes.
    newest: [u64; 3],
    rules: Vec<Rule>,
}

impl Model for Draft {
    ghost use Rattle.std.specs.Prelude.{◌≡◌, ◌∷◌, []};
    ghost use Rattle.waveform_reader.specs.Draft.{latest};
    ghost use Rattle.waveform_reader.specs.Draft as spec;

    ghost Value = { spec.Draft };

    ghost view = { λ d. record { starts = d.starts.items; rates = d.rates.items; shapes = d.shapes.items; rules = d.rules.items } };

    ghost invariant = { λ d. d.newest ≡ latest 1 d.shapes.items ∷ latest 2 d.shapes.items ∷ latest 3 d.shapes.items ∷ [] };
}

impl Draft {
    /// No records.
    pub(crate) fn new(alloc: Global) -> Draft
        ensures { result ≡ no_records }
    {
        Draft {
            starts: Vec::new(alloc),
            rates: Vec::new(alloc),
            shapes: Vec::new(alloc),
            newest: [0; 3],
            rules: Vec::new(alloc),
        }
    }

    /// Takes in a row behind these settings.
    pub(crate) fn take(
        &mut self,
        head: &Head,
        fields: &Fields,
        row: &ByteRecord,
    ) -> Result<(), Refusal>
        requires { fields.now.drift ≤ 200 }
        ensures taken { OnOk result ((row_fault head.now.given fields.now self.old (fields_of row.now) ≡ None) × (self.new ≡ with_row fields.now.drift self.old (fields_of row.now))) }
        ensures refused { IfErr result (RefusedBy (row_fault head.now.given fields.now self.old (fields_of row.now))) }
    {
        let name = field(row, 0);
        if name == b"set".as_slice() {
            let reason = head.fault(Known::Scenario, row).unwrap_or(Reason::Late);
            return Err(Refusal::Breaks(reason));
        }
        if name == b"#".as_slice() {
            return Ok(());
        }
        match record_in(fields.drift, row) {
            Ok(said) => self.add(fields.stations, said),
            Err(reason) => Err(Refusal::Breaks(reason)),
        }
    }

    /// The scenario of these settings and records.
    pub(crate) fn finish(self, settings: Settings, end: u64) -> Scenario
        requires drift { settings.drift ≤ 200 }
        requires accepted { setting_fault settings ≡ None }
        requires end { IsWithin (1, 20000000) end }
        requires kept { IsDraft settings self }
        ensures whole { result ≡ setup_of settings end self }
        ensures kept { IsSetup result }
    {
        let Draft {
            starts,
            rates,
            shapes,
            newest: _,
            rules,
        } = self;
        scenario_of(settings, end, &starts, &rates, shapes, rules)
    }

    // Adds a record, unless it breaks a rule beside those before it.
    fn add(&mut self, stations: u8, said: Record) -> Result<(), Refusal>
        ensures taken { OnOk result ((record_fault stations self.old said ≡ None) × (self.new ≡ with_record self.old said)) }
        ensures refused { IfErr result (RefusedBy (record_fault stations self.old said)) }
    {
        if let Some(reason) = self.fault(stations, &said) {
            return Err(Refusal::Breaks(reason));
        }
        match self.push(said) {
            Ok(()) => Ok(()),
            Err(_) => Err(Refusal::NoMemory),
        }
    }

    // The least rule that a record breaks beside those before it.
    fn fault(&self, stations: u8, said: &Record) -> Option<Reason>
        ensures { result ≡ record_fault stations self.now said.now }
    {
        if self.is_too_many(said) {
            return Some(Reason::Range);
        }
        if is_astray(stations, said) {
            return Some(Reason::Station);
        }
        if self.is_out_of_order(said) {
            return Some(Reason::Order);
        }
        None
    }

    fn is_too_many(&self, said: &Record) -> bool
        ensures { result ≡ is_too_many self.now said.now }
    {
        match said {
            Record::Rate(rating) => rates_among(&self.rates, rating.station) >= MOST_RATES,
            Record::Script(rule) => is_rule_too_many(&self.rules, rule),
            Record::Clock(_) | Record::Shape(_) => false,
        }
    }

    fn is_out_of_order(&self, said: &Record) -> bool
        ensures { result ≡ is_out_of_order self.now said.now }
    {
        match said {
            Record::Clock(start) => is_started(&self.starts, start.station),
            Record::Rate(rating) => is_early_rate(&self.rates, rating),
            Record::Shape(from) => from.from < newest_of(&self.newest, from.station),
            Record::Script(rule) => {
                rule.last < rule.first || is_delay(&rule.act) && has_later_delay(&self.rules, rule)
            }
        }
    }

    fn push(&mut self, said: Record) -> Result<(), NoMemory>
        ensures { OnOk result (self.new ≡ with_record self.old said) }
    {
        match said {
            Record::Clock(start) => self.starts.push(start)?,
            Record::Rate(rating) => self.rates.push(rating)?,
            Record::Shape(from) => {
                self.shapes.push(from)?;
                note_first(&mut self.newest, &from);
            }
            Record::Script(rule) => self.rules.push(rule)?,
        }
        Ok(())
    }
}

// What a row says that is neither a `set` nor a remark, or the least rule that it breaks by itself.
fn record_in(drift: u32, row: &ByteRecord) -> Result<Record, Reason>
    requires { drift ≤ 200 }
    ensures { result ≡ row_says drift (fields_of row.now) }
{
    let Some(kind) = Kind::named(field(row, 0)) else {
        return Err(Reason::Kind);
    };
    let columns = kind.columns();
    if row.len() != 1 + columns.len() {
        return Err(Reason::Fields);
    }
    let Some(numbers) = numbers_of::<MOST_NUMBERS>(row, 1) else {
        return Err(Reason::Number);
    };
    if !are_between(columns, drift, &numbers) {
        return Err(Reason::Range);
    }
    Ok(record_of(kind, drift, &numbers))
}

// Whether a record is of a station that isn't there, or of a line from a station to itself.
fn is_astray(stations: u8, said: &Record) -> bool
    ensures { result ≡ is_astray stations said.now }
{
    match said {
        Record::Clock(start) => stations < start.station.get(),
        Record::Rate(rating) => stations < rating.station.get(),
        Record::Shape(from) => stations < from.station.get(),
        Record::Script(rule) => {
            stations < rule.from.get() || stations < rule.to.get() || rule.from == rule.to
        }
    }
}

fn is_started(starts: &[Start], station: Station) -> bool
    ensures { result ≡ list_any (λ earlier. earlier.station == station) starts.now }
{
    starts.iter().any(|earlier| earlier.station == station)
}

fn rates_among(rates: &[Rating], station: Station) -> usize
    ensures { result ≡ count_by (λ earlier. earlier.station == station) rates.now }
{
    rates
        .iter()
        .filter(|earlier| earlier.station == station)
        .count()
}

fn is_rule_too_many(rules: &[Rule], rule: &Rule) -> bool
    ensures { result ≡ is_rule_too_many rules.now rule.now }
{
    rules.len() >= MOST_RULES
        || is_repeat(&rule.act) && repeats_among(rules) >= MOST_REPEATS
        || is_failure(&rule.act) && rule.first.saturating_add(LONGEST_FAILURE) < rule.last
}

fn repeats_among(rules: &[Rule]) -> usize
    ensures { result ≡ count_by (λ earlier. is_repeat earlier.act) rules.now }
{
    rules
        .iter()
        .filter(|earlier| is_repeat(&earlier.act))
        .count()
}

fn is_early_rate(rates: &[Rating], rating: &Rating) -> bool
    ensures { result ≡ list_any (λ earlier. (earlier.station == rating.now.station) && nat_lt rating.now.rate.from earlier.rate.from) rates.now }
{
    rates.iter().any(|earlier| earlier.station == rating.station
        && rating.rate.from < earlier.rate.from)
}

fn has_later_delay(rules: &[Rule], rule: &Rule) -> bool
    ensures { result ≡ list_any (λ earlier. is_later_delay earlier rule.now) rules.now }
{
    rules.iter().any(|earlier| is_later_delay(earlier, rule))
}

// Whether an earlier rule is a delay of the same line that begins later.
fn is_later_delay(earlier: &Rule, rule: &Rule) -> bool
    ensures { result ≡ is_later_delay earlier.now rule.now }
{
    is_delay(&earlier.act) && is_one_line(earlier, rule) && rule.first < earlier.first
}

fn is_one_line(a: &Rule, b: &Rule) -> bool
    ensures { result ≡ is_one_line a.now b.now }
{
    a.from == b.from && a.to == b.to
}

fn is_delay(act: &Act) -> bool
    ensures { result ≡ is_delay act.now }
{
    matches!(act, Act::Delay(_))
}

fn is_repeat(act: &Act) -> bool
    ensures { result ≡ is_repeat act.now }
{
    matches!(act, Act::Repeat(_))
}

fn is_failure(act: &Act) -> bool
    ensures { result ≡ is_failure act.now }
{
    matches!(act, Act::FailSend | Act::FailTake)
}

// The latest first tick of a station's shapes.
fn newest_of(newest: &[u64; 3], station: Station) -> u64
    ensures newest { result ≡ slice_index newest.now (station - 1) }
    ensures in_range { (1 ≤ station) × (station ≤ 3) }
{
    newest[usize::from(station.get()) - 1]
}

// Notes the first tick of a shape.
fn note_first(newest: &mut [u64; 3], from: &ShapeFrom)
    ensures { newest.new ≡ slice_set newest.old (from.now.station - 1) (max (slice_index newest.old (from.now.station - 1)) from.now.from) }
{
    let station = usize::from(from.station.get()) - 1;
    newest[station] = newest[station].max(from.from);
}
