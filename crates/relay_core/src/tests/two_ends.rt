use super::{Line, Post, Told, chunk, told_at};
use channel_alarm::Alarm;
use std::alloc::Global;
use std::test::Fail;
use trip_logic::Verdict;

// The tick from which on a fault within the line feeds both ends alike.
const FAULT: u32 = 100_000;

// Its current, step by step of a thousand ticks.
const CURRENT: [i16; 20] = [
    16384, 15582, 13255, 9630, 5063, 0, -5063, -9630, -13255, -15582, -16384, -15582, -13255,
    -9630, -5063, 0, 5063, 9630, 13255, 15582,
];

// The terminal at one end of a line of two, and the frames that are on their way to it for 24 slots, which are 3000 ticks.
#[derive(Drop)]
struct End {
    post: Post,
    peer: u8,
    // By how much its clock is ahead of true time.
    ahead: u32,
    coming: [[u8; 32]; 24],
}

impl End {
    fn new(alloc: Global, me: u8, peer: u8, ahead: u32) -> Result<End, Fail> {
        Ok(End {
            post: Post::new(alloc, 2, me)?,
            peer,
            ahead,
            coming: [[0; 32]; 24],
        })
    }

    fn stamp(&self, tick: u32) -> u64 {
        u64::from(tick) + u64::from(self.ahead)
    }

    // Samples the current, a wave that begins with that step.
    fn sample(&mut self, tick: u32, step: u8) -> Result<(), Fail> {
        let current = if tick < FAULT {
            0
        } else {
            CURRENT[((tick / 1000 + u32::from(step)) % 20) as usize]
        };
        let at = self.stamp(tick);
        self.post.sample(at, current)
    }

    // Takes in the frame that comes at a tick.
    fn hear(&mut self, tick: u32) -> Result<(), Fail> {
        if tick < 3000 {
            return Ok(());
        }
        let frame = chunk(256, self.coming[(tick / 125 % 24) as usize])?;
        let at = self.stamp(tick);
        self.post.bits(at, self.peer, &frame)
    }

    // Sends the frame of the slot at a tick.
    fn send(&mut self, tick: u32, other: &mut End) -> Result<(), Fail> {
        let at = self.stamp(tick);
        let slotted = self.post.slot(at)?;
        for frame in &slotted.frames {
            other.coming[(tick / 125 % 24) as usize] = frame.bytes;
        }
        Ok(())
    }
}

// Runs both ends through 1600 slots. The second end samples between two slots, where its clock is at a thousand.
fn run(one: &mut End, two: &mut End) -> Result<(), Fail> {
    for slot in 0..1600u32 {
        let tick = 125 * slot;
        if slot % 8 == 7 {
            two.sample(1000 * (slot / 8) + 800, 6)?;
        }
        one.hear(tick)?;
        two.hear(tick)?;
        if slot % 8 == 0 && slot > 0 {
            one.sample(tick, 5)?;
        }
        one.send(tick, two)?;
        two.send(tick, one)?;
    }
    Ok(())
}

// How many of some lines tell of a message that was accepted, of a set, and of a set that trips.
fn totals(lines: &[Line]) -> [usize; 3] {
    [
        lines
            .iter()
            .filter(|line| matches!(line.told, Told::Accepted(_)))
            .count(),
        lines
            .iter()
            .filter(|line| matches!(line.told, Told::Set { .. }))
            .count(),
        lines
            .iter()
            .filter(|line| matches!(
                line.told,
                Told::Set {
                    a: Verdict::Trip,
                    ..
                }
            ))
            .count(),
    ]
}

fn has_all(lines: &[Line], wanted: &[Line]) -> bool {
    wanted.iter().all(|line| lines.contains(line))
}

fn set(at: u64, number: u32, a: Verdict) -> Line {
    told_at(at, Told::Set { number, a })
}

#[test]
fn two_terminals_align_and_trip_where_the_rules_say_so(rt: HostRuntime) -> Result<(), Fail> {
    let mut one = End::new(rt.alloc(), 1, 2, 0)?;
    let mut two = End::new(rt.alloc(), 2, 1, 4200)?;
    run(&mut one, &mut two)?;
    let begin = [
        told_at(0, Told::On(2, Alarm::Unlocked)),
        told_at(0, Told::On(2, Alarm::Unaligned)),
        told_at(3125, Told::Off(2, Alarm::Unlocked)),
        told_at(3125, Told::On(2, Alarm::Yellow)),
        told_at(4750, Told::Accepted(5)),
        told_at(5750, Told::Accepted(6)),
        told_at(6125, Told::Off(2, Alarm::Yellow)),
        told_at(6750, Told::Accepted(7)),
        told_at(7750, Told::Accepted(8)),
        told_at(8750, Told::Accepted(9)),
        told_at(
            8750,
            Told::Estimate {
                estimate2: 8400,
                round_trip: 7750,
            },
        ),
        set(8750, 5, Verdict::Waiting),
        told_at(8750, Told::Off(2, Alarm::Unaligned)),
    ];
    assert!(rt; one.post.lines.starts_with(&begin));
    let fault = [
        set(103_750, 100, Verdict::Restrain),
        set(104_750, 101, Verdict::Outside),
        set(107_750, 104, Verdict::Trip),
    ];
    assert!(rt; has_all(&one.post.lines, &fault));
    // Stamps of the second end are 4200 ticks ahead.
    let other_end = [
        told_at(
            13_075,
            Told::Estimate {
                estimate2: -8400,
                round_trip: 7750,
            },
        ),
        set(13_075, 9, Verdict::Waiting),
        set(109_075, 105, Verdict::Outside),
        set(112_075, 108, Verdict::Trip),
    ];
    assert!(rt; has_all(&two.post.lines, &other_end));
    let last = one.post.terminal.last_set().ok_or("no set")?;
    assert_eq!(rt; last.number, 196);
    assert_eq!(rt; totals(&one.post.lines), [196, 192, 93]);
    assert_eq!(rt; totals(&two.post.lines), [196, 192, 93]);
    Ok(())
}
