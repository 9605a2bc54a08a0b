ghost use Rattle.std.specs.Prelude.{◌≡◌, IfOk};
ghost use Rattle.relay_core.specs.StandsFor.{IsPeerOf};

use crate::{Change, Heard, Judged, News, Slotted, Terminal};
use channel_alarm::Alarm;
use ld_base::{Chunk, Fields, Phases, Settings, Station, Ticks};
use offset_track::Taken;
use std::alloc::Global;
use std::test::Fail;
use trip_logic::Verdict;

mod calls;
mod channel;
mod terminals;
mod two_ends;

// What a terminal told.
#[derive(Clone, Copy, Debug, PartialEq, Eq)]
enum Told {
    Accepted(u32),
    Repeat { number: u32, last: u32 },
    Stranger { address: u8 },
    // Of the exchange in force, where a new one was kept.
    Estimate { estimate2: i64, round_trip: i64 },
    // A set that was judged, with the verdict of phase a.
    Set { number: u32, a: Verdict },
    // An alarm of that peer.
    On(u8, Alarm),
    Off(u8, Alarm),
}

// That, at the stamp that was handed in.
#[derive(Clone, Copy, Debug, PartialEq, Eq)]
struct Line {
    at: u64,
    told: Told,
}

fn told_at(at: u64, told: Told) -> Line {
    Line { at, told }
}

// The settings of the worked scenarios, for so many stations.
fn settings(stations: u8) -> Result<Settings, Fail> {
    Ok(
        Settings::new(Fields {
            drift: 20,
            ..Fields::usual(stations, 5)
        })
        .ok()
        .ok_or("no settings")?,
    )
}

fn station(number: u8) -> Result<Station, Fail>
    ensures { IfOk result (λ station. station ≡ number) }
{
    Ok(Station::new(number).ok_or("no station")?)
}

fn ticks(count: u64) -> Result<Ticks, Fail> {
    Ok(Ticks::new(count).ok_or("no stamp")?)
}

// The first bits of a frame.
fn chunk(bits: u16, bytes: [u8; 32]) -> Result<Chunk, Fail> {
    Ok(Chunk::new(bits, bytes).ok_or("no chunk")?)
}

// A terminal and all that it told.
#[derive(Drop)]
struct Post {
    terminal: Terminal,
    settings: Settings,
    me: Station,
    lines: Vec<Line>,
    ghost settings_are: { terminal.settings ≡ settings },
    ghost station_is: { terminal.me ≡ me },
}

impl Post {
    fn new(alloc: Global, stations: u8, me: u8) -> Result<Post, Fail> {
        let settings = settings(stations)?;
        let me = station(me)?;
        if me.get() > settings.fields().stations {
            Err("no station of the line")?;
        }
        Ok(Post {
            terminal: Terminal::new(alloc, &settings, me)?,
            settings,
            me,
            lines: Vec::new(alloc),
        })
    }

    // The peer of that number.
    fn peer(&self, number: u8) -> Result<Station, Fail>
        ensures { IfOk result (λ peer. IsPeerOf self.now.terminal peer) }
    {
        let peer = station(number)?;
        if peer.get() > self.settings.fields().stations || peer == self.me {
            Err("no peer")?;
        }
        Ok(peer)
    }

    // Takes a sample with a current in phase a alone.
    fn sample(&mut self, at: u64, a: i16) -> Result<(), Fail> {
        let sampled = self.terminal.sample(ticks(at)?, Phases { a, b: 0, c: 0 });
        self.tell_set(at, sampled.judged)?;
        self.tell_changes(at, &sampled.changes)
    }

    fn slot(&mut self, at: u64) -> Result<Slotted, Fail> {
        let slotted = self.terminal.slot(ticks(at)?);
        self.tell_changes(at, &slotted.changes)?;
        Ok(slotted)
    }

    fn bits(&mut self, at: u64, from: u8, chunk: &Chunk) -> Result<(), Fail> {
        let peer = self.peer(from)?;
        let heard = self.terminal.bits(ticks(at)?, peer, chunk);
        self.tell_news(at, &heard)?;
        self.tell_estimate(at, &heard)?;
        self.tell_set(at, heard.judged)?;
        self.tell_changes(at, &heard.changes)
    }

    fn fault(&mut self, at: u64, from: u8) -> Result<(), Fail> {
        let peer = self.peer(from)?;
        let changes = self.terminal.fault(ticks(at)?, peer);
        self.tell_changes(at, &changes)
    }

    fn tell_news(&mut self, at: u64, heard: &Heard) -> Result<(), Fail> {
        let told = match heard.news {
            News::Nothing => return Ok(()),
            News::Accepted(message) => Told::Accepted(message.number),
            News::Repeat { number, last } => Told::Repeat { number, last },
            News::Stranger { address } => Told::Stranger { address },
        };
        Ok(self.lines.push(told_at(at, told))?)
    }

    fn tell_estimate(&mut self, at: u64, heard: &Heard) -> Result<(), Fail> {
        if heard.taken != Some(Taken::Kept) {
            return Ok(());
        }
        let chosen = heard.chosen.ok_or("nothing in force")?;
        let told = Told::Estimate {
            estimate2: chosen.estimate2(),
            round_trip: chosen.round_trip(),
        };
        Ok(self.lines.push(told_at(at, told))?)
    }

    fn tell_set(&mut self, at: u64, judged: Option<Judged>) -> Result<(), Fail> {
        let Some(judged) = judged else {
            return Ok(());
        };
        let told = Told::Set {
            number: judged.number,
            a: judged.verdicts[0],
        };
        Ok(self.lines.push(told_at(at, told))?)
    }

    fn tell_changes(&mut self, at: u64, changes: &[Change]) -> Result<(), Fail> {
        for change in changes {
            let peer = change.peer.get();
            let alarm = change.turn.alarm;
            let told = if change.turn.on {
                Told::On(peer, alarm)
            } else {
                Told::Off(peer, alarm)
            };
            self.lines.push(told_at(at, told))?;
        }
        Ok(())
    }
}
