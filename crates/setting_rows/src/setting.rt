//! What a row of settings sets, by its key.

ghost use Rattle.std.specs.Prelude.{◌≡◌};
ghost use Rattle.setting_rows.specs.Head.{accepts, key_accepts, place_of};
ghost use Rattle.setting_rows.specs.Keys.{end_of, key_name, key_of, key_place, keys, setting_of, value_of};

use ld_base::{Fields, Key};

/// Which settings a text may set, and must.
#[derive(Clone, Copy, Debug, PartialEq, Eq)]
pub enum Known {
    /// Each key, and the end of the run, which has to be set.
    Scenario,
    /// Each key and nothing else.
    Recording,
}

/// What a `set` record sets.
#[derive(Clone, Copy, Debug, PartialEq, Eq)]
pub enum Setting {
    /// A setting of the line.
    Line(Key),
    /// The true tick at which a scenario ends.
    End,
}

/// The keys, in the order of their places.
static KEYS: [Key; 18] = [
    Key::Stations,
    Key::Channels,
    Key::Spacing,
    Key::Cycle,
    Key::Drift,
    Key::Slow,
    Key::Age,
    Key::Limit,
    Key::Silent,
    Key::Count,
    Key::Pickup,
    Key::Rn,
    Key::Rd,
    Key::P,
    Key::Q,
    Key::WordA,
    Key::WordB,
    Key::Misses,
];

/// Every key of the settings, in the order of the table of settings, in which a text that is written has them.
pub fn keys() -> &'static [Key]
    ensures { result.now ≡ keys }
{
    &KEYS
}

impl Setting {
    /// What a name sets in a text in which these settings are known. None where it sets nothing there.
    pub(crate) fn named(known: Known, name: &[u8]) -> Option<Setting>
        ensures { result ≡ setting_of known name.now }
    {
        match key_named(name) {
            Some(key) => Some(Setting::Line(key)),
            None => end_named(known, name),
        }
    }

    /// The setting's place in the table, by which settings are compared.
    pub(crate) fn place(self) -> u8
        ensures { result ≡ place_of self }
    {
        match self {
            Setting::Line(key) => key as u8,
            Setting::End => 18,
        }
    }

    /// Whether the setting may have that value. A region's outer and inner radius are compared only later.
    pub(crate) fn accepts(self, value: i64) -> bool
        ensures { result ≡ accepts self value }
    {
        match self {
            Setting::Line(key) => key_accepts(key, value),
            Setting::End => (1..=20_000_000).contains(&value),
        }
    }
}

// The key of that name.
#[tactic(auto, unfolding(crate::specs::Keys::key_of))]
fn key_named(name: &[u8]) -> Option<Key>
    ensures { result ≡ key_of name.now }
{
    KEYS.iter().copied().find(|key| name == key_name(*key))
}

// What a name sets that is no key.
fn end_named(known: Known, name: &[u8]) -> Option<Setting>
    ensures { result ≡ end_of known name.now }
{
    match known {
        Known::Scenario if name == b"end".as_slice() => Some(Setting::End),
        Known::Scenario | Known::Recording => None,
    }
}

/// The name of a key, as it stands in texts.
pub fn key_name(key: Key) -> &'static [u8]
    ensures { result.now ≡ key_name key }
{
    match key {
        Key::Stations => b"stations",
        Key::Channels => b"channels",
        Key::Spacing => b"spacing",
        Key::Cycle => b"cycle",
        Key::Drift => b"drift",
        Key::Slow => b"slow",
        Key::Age => b"age",
        Key::Limit => b"limit",
        Key::Silent => b"silent",
        Key::Count => b"count",
        Key::Pickup => b"pickup",
        Key::Rn => b"rn",
        Key::Rd => b"rd",
        Key::P => b"p",
        Key::Q => b"q",
        Key::WordA => b"worda",
        Key::WordB => b"wordb",
        Key::Misses => b"misses",
    }
}

/// The value of a key in settings, in the unit of its field.
pub fn value_of(fields: &Fields, key: Key) -> i64
    ensures { result ≡ value_of fields.now key }
{
    match key {
        Key::Stations => i64::from(fields.stations),
        Key::Channels => i64::from(fields.channels),
        Key::Spacing => i64::from(fields.spacing),
        Key::Cycle => i64::from(fields.cycle),
        Key::Drift => i64::from(fields.drift),
        Key::Slow => i64::from(fields.slow),
        Key::Age => i64::from(fields.age),
        Key::Limit => i64::from(fields.limit),
        Key::Silent => i64::from(fields.silent),
        Key::Count => i64::from(fields.count),
        Key::Pickup => i64::from(fields.pickup),
        Key::Rn => i64::from(fields.rn),
        Key::Rd => i64::from(fields.rd),
        Key::P => i64::from(fields.p),
        Key::Q => i64::from(fields.q),
        Key::WordA => i64::from(fields.worda),
        Key::WordB => i64::from(fields.wordb),
        Key::Misses => i64::from(fields.misses),
    }
}

fn key_accepts(key: Key, value: i64) -> bool
    ensures { result ≡ key_accepts key value }
{
    match key {
        Key::Stations => (2..=3).contains(&value),
        Key::Channels => (1..=12).contains(&value),
        Key::Spacing => (500..=10_000).contains(&value),
        Key::Cycle => matches!(value, 4 | 8 | 12 | 16 | 20),
        Key::Drift => (0..=200).contains(&value),
        Key::Slow => (1..=200_000).contains(&value),
        Key::Age => (1000..=10_000_000).contains(&value),
        Key::Limit => (1..=480_000).contains(&value),
        Key::Silent => (1..=1_000_000).contains(&value),
        Key::Count => (1..=32).contains(&value),
        Key::Pickup => (1..=32_767).contains(&value),
        Key::Rn | Key::Rd | Key::Q => (1..=10_000).contains(&value),
        Key::P => value.unsigned_abs() <= 10_000,
        Key::WordA | Key::WordB => (128..=255).contains(&value),
        Key::Misses => (1..=10).contains(&value),
    }
}
