use super::{Post, Told, ticks, told_at};
use crate::Terminal;
use channel_alarm::Alarm;
use std::test::Fail;

#[test]
fn there_is_a_terminal_for_each_station_where_memory_is_ample(rt: HostRuntime) -> Result<(), Fail> {
    for stations in 2..4u8 {
        for me in 1..4u8 {
            if me <= stations {
                Post::new(rt.alloc(), stations, me)?;
            }
        }
    }
    Ok(())
}

#[test]
fn a_terminal_keeps_little(rt: HostRuntime) {
    assert!(rt; std::mem::size_of::<Terminal>() <= 4096);
}

#[test]
fn frames_and_changes_stand_in_the_order_of_the_peers(rt: HostRuntime) -> Result<(), Fail> {
    let mut post = Post::new(rt.alloc(), 3, 2)?;
    let frames = post.slot(0)?.frames;
    assert_eq!(rt; frames.len(), 2);
    assert_eq!(rt; frames[0].to.get(), 1);
    assert_eq!(rt; frames[1].to.get(), 3);
    let told = [
        told_at(0, Told::On(1, Alarm::Unlocked)),
        told_at(0, Told::On(1, Alarm::Unaligned)),
        told_at(0, Told::On(3, Alarm::Unlocked)),
        told_at(0, Told::On(3, Alarm::Unaligned)),
    ];
    assert_eq!(rt; post.lines.as_slice(), told.as_slice());
    Ok(())
}

#[test]
fn time_never_falls(rt: HostRuntime) -> Result<(), Fail> {
    let mut post = Post::new(rt.alloc(), 2, 1)?;
    assert_eq!(rt; post.terminal.clock(), None);
    post.sample(5000, 7)?;
    let slotted = post.slot(3000)?;
    assert_eq!(rt; post.terminal.clock(), Some(ticks(5000)?));
    for frame in &slotted.frames {
        let begun = frame.begun.ok_or("no message")?;
        assert_eq!(rt; begun.number, 5);
        assert_eq!(rt; begun.sent, 5000);
    }
    Ok(())
}
