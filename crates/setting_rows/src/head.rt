//! The settings of a text, as its `set` records give them.

ghost use Rattle.std.specs.Prelude.{◌≡◌, IfErr, IfSome, IsNone, MatchResult, None, OnOk, Some, false, true};
ghost use Rattle.csv.specs.Records.{fields_of};
ghost use Rattle.ld_base.specs.Settings.{IsWithin, setting_fault};
ghost use Rattle.row_reader.specs.Numbers.{number};
ghost use Rattle.row_reader.specs.RowFields.{field_of, name_of};
ghost use Rattle.setting_rows.specs.Head.{Takes, accepts, has_end, has_required, heading_fault, is_complete, is_given, is_heading, key_accepts, no_settings, set_fault, with_heading, with_key, with_setting};
ghost use Rattle.setting_rows.specs.Keys.{is_set, setting_of};
ghost use Rattle.setting_rows.specs.Refusals.{RefusedBy};
ghost use Rattle.setting_rows.specs.declared.setting.Known.TheVariants as text;
ghost use Rattle.setting_rows.specs.declared.setting.Setting.TheVariants as setting;

use crate::refusal::Refusal;
use crate::setting::{Known, Setting};
use csv::ByteRecord;
use ld_base::{Fields, Key, Reason, Settings};
use row_reader::{field, number};
use std::alloc::Global;
use std::marker::Model;

/// The fields of a `set`: its name, a key and a value.
const FIELDS: usize = 3;

/// The settings that are set so far.
#[derive(Drop)]
pub struct Head {
    given: Vec<Setting>,
    fields: Fields,
    end: u64,
}

impl Model for Head {
    ghost use Rattle.setting_rows.specs.Head as spec;

    ghost Value = { spec.Head };

    ghost view = { λ h. record { given = h.given.items; fields = h.fields; end = h.end } };

    ghost invariant = { λ h. spec.HasEnd (record { given = h.given.items; fields = h.fields; end = h.end }) };
}

/// A setting and its value.
#[derive(Clone, Copy, Debug)]
pub(crate) struct Given {
    setting: Setting,
    value: i64,
}

/// Whether a row stands among the settings: a `set` or a remark.
pub(crate) fn is_heading(row: &ByteRecord) -> bool
    ensures { result ≡ is_heading (fields_of row.now) }
{
    let name = field(row, 0);
    name == b"set".as_slice() || name == b"#".as_slice()
}

impl Head {
    /// No setting is set.
    pub(crate) fn new(alloc: Global) -> Head
        ensures { result ≡ no_settings }
    {
        Head {
            given: Vec::new(alloc),
            fields: Fields::usual(0, 0),
            end: 0,
        }
    }

    /// Takes in a row that stands among the settings. After a refusal nothing is said of the settings.
    pub(crate) fn take(&mut self, known: Known, row: &ByteRecord) -> Result<(), Refusal>
        ensures taken { OnOk result ((heading_fault known self.old (fields_of row.now) ≡ None) × (self.new ≡ with_heading known self.old (fields_of row.now))) }
        ensures refused { IfErr result (RefusedBy (heading_fault known self.old (fields_of row.now))) }
    {
        if field(row, 0) != b"set".as_slice() {
            return Ok(());
        }
        match given_in(known, &self.given, row) {
            Ok(given) => self.set(given),
            Err(reason) => Err(Refusal::Breaks(reason)),
        }
    }

    /// The least rule that a `set` breaks beside these settings. None where it breaks none.
    pub fn fault(&self, known: Known, row: &ByteRecord) -> Option<Reason>
        ensures { result ≡ set_fault known self.now.given (fields_of row.now) }
    {
        given_in(known, &self.given, row).err()
    }

    // Sets one setting more.
    fn set(&mut self, given: Given) -> Result<(), Refusal>
        requires { accepts given.setting given.value ≡ true }
        ensures set { OnOk result (self.new ≡ with_setting self.old given.setting given.value) }
        ensures refused { IfErr result (RefusedBy None) }
    {
        if self.given.push(given.setting).is_err() {
            return Err(Refusal::NoMemory);
        }
        match given.setting {
            Setting::Line(key) => self.fields = with_key(self.fields, key, given),
            Setting::End => self.end = given.value.unsigned_abs(),
        }
        Ok(())
    }

    /// The settings as a whole. None where one that is required isn't set, or they are refused.
    pub fn close(&self, known: Known) -> Option<Settings>
        ensures closed { IfSome result (λ settings. (is_complete known self.now ≡ true) × (settings ≡ self.now.fields)) }
        ensures end { IfSome result (λ settings. known ≡ text.Scenario → IsWithin (1, 20000000) self.now.end) }
        ensures open { IsNone result → is_complete known self.now ≡ false }
    {
        if !has_required(known, &self.given) {
            return None;
        }
        Settings::new(self.fields).ok()
    }

    /// The true tick at which a scenario ends, 0 where none is set.
    pub fn end(&self) -> u64
        ensures { result ≡ self.now.end }
    {
        self.end
    }
}

fn has_required(known: Known, given: &[Setting]) -> bool
    ensures { result ≡ has_required known given.now }
{
    is_given(given, Setting::Line(Key::Stations))
        && is_given(given, Setting::Line(Key::Channels))
        && has_end(known, given)
}

// Whether the end is set, where a text needs one.
fn has_end(known: Known, given: &[Setting]) -> bool
    ensures { result ≡ has_end known given.now }
{
    match known {
        Known::Scenario => is_given(given, Setting::End),
        Known::Recording => true,
    }
}

fn is_given(given: &[Setting], setting: Setting) -> bool
    ensures { result ≡ is_given given.now setting }
{
    given.iter().any(|before| before.place() == setting.place())
}

// The setting of a `set` and its value, or the least rule that it breaks beside those that are set.
fn given_in(known: Known, given: &[Setting], row: &ByteRecord) -> Result<Given, Reason>
    ensures { MatchResult result (λ set. Takes known given.now (fields_of row.now) set.setting set.value) (λ reason. set_fault known given.now (fields_of row.now) ≡ Some reason) }
{
    if row.len() != FIELDS {
        return Err(Reason::Fields);
    }
    let Some(value) = number(field(row, 2)) else {
        return Err(Reason::Number);
    };
    let Some(setting) = Setting::named(known, field(row, 1)) else {
        return Err(Reason::Key);
    };
    if !setting.accepts(value) {
        return Err(Reason::Range);
    }
    if is_given(given, setting) {
        return Err(Reason::Key);
    }
    Ok(Given { setting, value })
}

// The fields with one key set to a value that it accepts.
fn with_key(mut fields: Fields, key: Key, given: Given) -> Fields
    requires { key_accepts key given.value ≡ true }
    ensures { result ≡ with_key fields key given.value }
{
    let natural = given.value.unsigned_abs();
    match key {
        Key::Stations => fields.stations = natural as u8,
        Key::Channels => fields.channels = natural as u8,
        Key::Spacing => fields.spacing = natural as u32,
        Key::Cycle => fields.cycle = natural as u8,
        Key::Drift => fields.drift = natural as u32,
        Key::Slow => fields.slow = natural as u32,
        Key::Age => fields.age = natural as u32,
        Key::Limit => fields.limit = natural as u32,
        Key::Silent => fields.silent = natural as u32,
        Key::Count => fields.count = natural as u8,
        Key::Pickup => fields.pickup = natural as u16,
        Key::Rn => fields.rn = natural as u32,
        Key::Rd => fields.rd = natural as u32,
        Key::P => fields.p = given.value as i32,
        Key::Q => fields.q = given.value as i32,
        Key::WordA => fields.worda = natural as u8,
        Key::WordB => fields.wordb = natural as u8,
        Key::Misses => fields.misses = natural as u8,
    }
    fields
}
