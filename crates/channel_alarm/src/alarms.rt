ghost use Rattle.std.specs.Prelude.{◌≡◌, Bool, [], IsTrue, ◌↔◌, map};
ghost use Rattle.channel_alarm.specs.declared.alarm.Alarm.{Alarm};
ghost use Rattle.channel_alarm.specs.Alarms.{all, all_off, is_on, stands, standing, turns};

use crate::{Alarm, Facts, Turn};
use arrayvec::ArrayVec;
use ld_base::Settings;
use std::marker::Model;

// All alarms, in their order.
const ALL: [Alarm; 5] = [
    Alarm::Unlocked,
    Alarm::Yellow,
    Alarm::Silent,
    Alarm::Unaligned,
    Alarm::Fault,
];

/// The alarms of one peer, each on or off.
#[derive(Clone, Copy, Debug, PartialEq, Eq)]
pub struct Alarms {
    silent: u32,
    on: [bool; 5],
}

impl Model for Alarms {
    ghost use Rattle.std.specs.Prelude.{◌≡◌, length};
    ghost use Rattle.channel_alarm.specs.Alarms.{Standing};

    ghost Value = { Standing };

    ghost view = { λ a. record { silent = a.silent; on = a.on } };

    ghost invariant = { λ a. length a.on ≡ 5 };

    ghost inverse = { λ a. record { silent = a.silent; on = a.on } };
}

impl Alarms {
    /// The alarms of a peer, all off.
    pub fn new(s: &Settings) -> Alarms
        ensures { result ≡ record { silent = s.now.silent; on = all_off } }
    {
        Alarms {
            silent: s.fields().silent,
            on: [false; 5],
        }
    }

    /// The setting `silent`: the silence above which the peer is reported, in ticks.
    pub fn silent(&self) -> u32
        ensures { result ≡ self.now.silent }
    {
        self.silent
    }

    /// Whether each alarm is on or off already as these facts have it, so that `update` turns none.
    pub fn are_steady(&self, f: &Facts) -> bool
        ensures steady { IsTrue result ↔ (standing self.now.silent (is_on self.now.silent f.now) ≡ self.now) }
        ensures none { IsTrue result → turns (stands self.now) (is_on self.now.silent f.now) ≡ [] }
    {
        states(f, self.silent) == self.on
    }

    /// Turns each alarm on or off by these facts. Tells exactly those that changed, in their order.
    pub fn update(&mut self, f: &Facts) -> ArrayVec<Turn, 5>
        ensures turns { result.items ≡ turns (stands self.old) (is_on self.old.silent f.now) }
        ensures after { self.new ≡ standing self.old.silent (is_on self.old.silent f.now) }
    {
        // Nearly always nothing changes.
        if self.are_steady(f) {
            return ArrayVec::new();
        }
        self.turn(states(f, self.silent))
    }

    // Turns the alarms to these states.
    #[cold]
    fn turn(&mut self, on: [bool; 5]) -> ArrayVec<Turn, 5>
        ensures turns { (new : Alarm → Bool) → on ≡ map new all → result.items ≡ turns (stands self.old) new }
        ensures after { self.new ≡ record { silent = self.old.silent; on = on } }
    {
        let mut changed = ArrayVec::new();
        for k in 0..ALL.len() {
            if on[k] != self.on[k] {
                changed.push(Turn {
                    alarm: ALL[k],
                    on: on[k],
                });
            }
        }
        self.on = on;
        changed
    }
}

// Whether each alarm is on by these facts.
fn states(f: &Facts, silent: u32) -> [bool; 5]
    ensures { result ≡ map (is_on silent f.now) all }
{
    [
        !f.locked,
        f.yellow,
        f.quiet > u64::from(silent),
        !f.aligned,
        f.faulty,
    ]
}
