use super::{Post, Told, chunk, settings, station, told_at};
use channel_alarm::Alarm;
use ld_base::{Message, Phases};
use payload_map::Outlet;
use relay_message::encode;
use std::test::Fail;

#[test]
fn a_repeated_message_is_told_as_one(rt: HostRuntime) -> Result<(), Fail> {
    let mut post = Post::new(rt.alloc(), 2, 1)?;
    let message = encode(&Message {
        from: station(2)?,
        to: station(1)?,
        number: 5,
        sent: 5000,
        echo: None,
        phases: Phases { a: 1, b: 2, c: 3 },
    });
    let mut outlet = Outlet::new(5, settings(2)?.words());
    for slot in 0..18u64 {
        if slot == 2 || slot == 10 {
            assert_eq!(rt; outlet.load(message), Ok(()));
        }
        post.bits(125 * slot, 2, &chunk(256, outlet.slot(false))?)?;
    }
    let told = [
        told_at(0, Told::On(2, Alarm::Unlocked)),
        told_at(0, Told::On(2, Alarm::Unaligned)),
        told_at(125, Told::Off(2, Alarm::Unlocked)),
        told_at(1125, Told::Accepted(5)),
        told_at(2125, Told::Repeat { number: 5, last: 5 }),
    ];
    assert_eq!(rt; post.lines.as_slice(), told.as_slice());
    Ok(())
}

#[test]
fn a_looped_line_brings_strangers(rt: HostRuntime) -> Result<(), Fail> {
    let mut post = Post::new(rt.alloc(), 2, 1)?;
    for slot in 0..20u64 {
        let at = 125 * slot;
        if slot == 8 {
            post.sample(at, 1)?;
        }
        let slotted = post.slot(at)?;
        for frame in &slotted.frames {
            post.bits(at, 2, &chunk(256, frame.bytes)?)?;
        }
    }
    let told = [
        told_at(0, Told::On(2, Alarm::Unlocked)),
        told_at(0, Told::On(2, Alarm::Unaligned)),
        told_at(125, Told::Off(2, Alarm::Unlocked)),
        told_at(125, Told::On(2, Alarm::Yellow)),
        told_at(250, Told::Off(2, Alarm::Yellow)),
        told_at(1875, Told::Stranger { address: 0x12 }),
    ];
    assert_eq!(rt; post.lines.as_slice(), told.as_slice());
    Ok(())
}

#[test]
fn bits_that_come_clear_a_fault_even_if_there_are_none(rt: HostRuntime) -> Result<(), Fail> {
    let mut post = Post::new(rt.alloc(), 2, 1)?;
    let none = chunk(0, [0; 32])?;
    post.bits(0, 2, &none)?;
    post.fault(100, 2)?;
    post.sample(200, 0)?;
    post.bits(300, 2, &none)?;
    let told = [
        told_at(0, Told::On(2, Alarm::Unlocked)),
        told_at(0, Told::On(2, Alarm::Unaligned)),
        told_at(100, Told::On(2, Alarm::Fault)),
        told_at(300, Told::Off(2, Alarm::Fault)),
    ];
    assert_eq!(rt; post.lines.as_slice(), told.as_slice());
    Ok(())
}
