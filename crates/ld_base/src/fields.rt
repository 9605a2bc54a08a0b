//! The settings of a line as they are handed in, each by its key.

ghost use Rattle.std.specs.Prelude.{◌≡◌, ◌&&◌, nat_le, int_le, pos, unsigned_abs};
ghost use Rattle.ld_base.specs.Settings.{is_within, range_of, ranges, key_out_of_range, usual};
ghost use Rattle.ld_base.specs.declared.fields.Key.TheVariants as key;

/// The settings by name, in the order in which their ranges are looked at.
#[derive(Clone, Copy, Debug, PartialEq, Eq, Hash)]
pub enum Key {
    Stations,
    Channels,
    Spacing,
    Cycle,
    Drift,
    Slow,
    Age,
    Limit,
    Silent,
    Count,
    Pickup,
    Rn,
    Rd,
    P,
    Q,
    WordA,
    WordB,
    Misses,
}

/// The settings as they are handed in. Beside each stands the range that `Settings::new` accepts.
#[derive(Clone, Copy, Debug, PartialEq, Eq)]
pub struct Fields {
    /// Terminals of the line: 2 or 3.
    pub stations: u8,
    /// Channels of 64 kbit/s: 1 to 12.
    pub channels: u8,
    /// Ticks from one sample to the next: 500 to 10000.
    pub spacing: u32,
    /// Samples of a cycle: 4, 8, 12, 16 or 20.
    pub cycle: u8,
    /// The bound on a clock's drift, in millionths of a tick per tick: 0 to 200.
    pub drift: u32,
    /// The longest round trip of an exchange that is kept, in ticks: 1 to 200000.
    pub slow: u32,
    /// The age up to which an exchange is in force, in ticks: 1000 to 10000000.
    pub age: u32,
    /// The age below which a sample is judged, in ticks: 1 to 480000.
    pub limit: u32,
    /// The silence above which a peer is reported, in ticks: 1 to 1000000.
    pub silent: u32,
    /// Consecutive sets outside the restraint region that make a trip: 1 to 32.
    pub count: u8,
    /// The pickup of the differential current, in counts of the converter: 1 to 32767.
    pub pickup: u16,
    /// The outer radius of the restraint region is `rn / rd`: 1 to 10000.
    pub rn: u32,
    /// 1 to `rn`.
    pub rd: u32,
    /// The direction `(p, q)` of the region's upper edge: -10000 to 10000.
    pub p: i32,
    /// 1 to 10000.
    pub q: i32,
    /// The number of header word A: 128 to 255.
    pub worda: u8,
    /// The number of header word B: 128 to 255.
    pub wordb: u8,
    /// Missed header words in a row that end the lock: 1 to 10.
    pub misses: u8,
}

impl Fields {
    /// The defaults for these two, which have none.
    pub fn usual(stations: u8, channels: u8) -> Fields
        ensures { result ≡ usual stations channels }
    {
        Fields {
            stations,
            channels,
            spacing: 1000,
            cycle: 20,
            drift: 50,
            slow: 60_000,
            age: 1_000_000,
            limit: 20_000,
            silent: 20_000,
            count: 4,
            pickup: 500,
            rn: 6,
            rd: 1,
            p: -1305,
            q: 9914,
            worda: 155,
            wordb: 223,
            misses: 3,
        }
    }

    // Each key and whether its field lies in its range.
    fn ranges(&self) -> [(Key, bool); 18]
        ensures { result ≡ ranges self.now }
    {
        [
            (Key::Stations, within(u32::from(self.stations), 2, 3)),
            (Key::Channels, within(u32::from(self.channels), 1, 12)),
            (Key::Spacing, within(self.spacing, 500, 10_000)),
            (Key::Cycle, matches!(self.cycle, 4 | 8 | 12 | 16 | 20)),
            (Key::Drift, within(self.drift, 0, 200)),
            (Key::Slow, within(self.slow, 1, 200_000)),
            (Key::Age, within(self.age, 1000, 10_000_000)),
            (Key::Limit, within(self.limit, 1, 480_000)),
            (Key::Silent, within(self.silent, 1, 1_000_000)),
            (Key::Count, within(u32::from(self.count), 1, 32)),
            (Key::Pickup, within(u32::from(self.pickup), 1, 32_767)),
            (Key::Rn, within(self.rn, 1, 10_000)),
            (Key::Rd, is_divisor(self.rd, self.rn)),
            (Key::P, is_sideways(self.p)),
            (Key::Q, is_upward(self.q)),
            (Key::WordA, within(u32::from(self.worda), 128, 255)),
            (Key::WordB, within(u32::from(self.wordb), 128, 255)),
            (Key::Misses, within(u32::from(self.misses), 1, 10)),
        ]
    }

    /// The first key, in the order of `Key`, whose field lies outside its range.
    #[tactic(auto, unfolding(crate::specs::Settings::key_out_of_range))]
    pub(crate) fn key_out_of_range(&self) -> Option<Key>
        ensures { result ≡ key_out_of_range self.now }
    {
        self.ranges()
            .iter()
            .find(|range| !range.1)
            .map(|range| range.0)
    }
}

fn within(value: u32, low: u32, high: u32) -> bool
    ensures { result ≡ is_within (low, high) value }
{
    (low..=high).contains(&value)
}

// Whether the outer radius `rn / rd` is at least 1.
fn is_divisor(rd: u32, rn: u32) -> bool
    ensures { result ≡ (is_within (range_of key.Rd) rd && nat_le rd rn) }
{
    within(rd, 1, 10_000) && rd <= rn
}

fn is_sideways(p: i32) -> bool
    ensures { result ≡ is_within (range_of key.P) (unsigned_abs p) }
{
    within(p.unsigned_abs(), 0, 10_000)
}

fn is_upward(q: i32) -> bool
    ensures { result ≡ (is_within (range_of key.Q) (unsigned_abs q) && int_le (pos 0) q) }
{
    within(q.unsigned_abs(), 1, 10_000) && q >= 0
}
