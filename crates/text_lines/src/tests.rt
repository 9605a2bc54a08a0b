//! Each part of a line, as its text.

use crate::{TextLine, alarm_name, letter};
use channel_alarm::{Alarm, Turn};
use ld_base::{Phases, Station};
use std::test::Fail;
use trip_logic::Verdict;

#[test]
fn each_kind_of_number_is_a_field(rt: HostRuntime) -> Result<(), Fail> {
    let mut text = Vec::new(rt.alloc());
    for number in [0, 9, 10, u64::MAX] {
        let mut line = TextLine::new();
        line.put(b"\n");
        line.put_field(number);
        line.put(b"n");
        line.append_to(&mut text)?;
    }
    for number in [0, -1, i64::MAX, i64::MIN] {
        let mut line = TextLine::new();
        line.put(b"\n");
        line.put_signed_field(number);
        line.put(b"s");
        line.append_to(&mut text)?;
    }
    for number in [Some(0), Some(u128::MAX), None] {
        let mut line = TextLine::new();
        line.put(b"\n");
        line.put_bound(number);
        line.put(b"b");
        line.append_to(&mut text)?;
    }
    assert_eq!(rt;
        text.as_slice(),
        b"n,0\nn,9\nn,10\nn,18446744073709551615\n\
s,0\ns,-1\ns,9223372036854775807\ns,-9223372036854775808\n\
b,0\nb,340282366920938463463374607431768211455\nb,-\n"
            .as_slice()
    );
    Ok(())
}

#[test]
fn bytes_are_digits_of_lower_case(rt: HostRuntime) -> Result<(), Fail> {
    let all: [&[u8]; 4] = [
        &[],
        &[0x00],
        &[0x9B, 0x0F, 0x66, 0xA5],
        &[
            0x01, 0x23, 0x45, 0x67, 0x89, 0xAB, 0xCD, 0xEF, 0x01, 0x23, 0x45, 0x67, 0x89, 0xAB,
            0xCD, 0xEF, 0x01, 0x23, 0x45, 0x67, 0x89, 0xAB, 0xCD, 0xEF, 0x01, 0x23, 0x45, 0x67,
            0x89, 0xAB, 0xCD, 0xFF,
        ],
    ];
    let mut text = Vec::new(rt.alloc());
    for bytes in all {
        if bytes.len() <= 32 {
            let mut line = TextLine::new();
            line.put(b"\n");
            line.put_hex_field(bytes);
            line.append_to(&mut text)?;
        }
    }
    assert_eq!(rt;
        text.as_slice(),
        b",\n,00\n,9b0f66a5\n\
,0123456789abcdef0123456789abcdef0123456789abcdef0123456789abcdff\n"
            .as_slice()
    );
    Ok(())
}

#[test]
fn answers_have_their_words(rt: HostRuntime) -> Result<(), Fail> {
    let station = Station::new(3).ok_or("no station")?;
    let mut text = Vec::new(rt.alloc());
    for (alarm, on) in [
        (Alarm::Unlocked, true),
        (Alarm::Yellow, false),
        (Alarm::Silent, true),
        (Alarm::Unaligned, false),
        (Alarm::Fault, true),
    ] {
        let mut line = TextLine::new();
        line.put(b"\n");
        line.put_turn(&Turn { alarm, on });
        line.put_word(alarm_name(alarm));
        line.put_front(b"alarm", 12, station);
        line.append_to(&mut text)?;
    }
    let mut line = TextLine::new();
    line.put(b"\n");
    line.put_letters(&[Verdict::Waiting, Verdict::Restrain, Verdict::Outside]);
    line.put_word(&[letter(Verdict::Trip)]);
    line.put_phases(&Phases {
        a: -32_768,
        b: 0,
        c: 32_767,
    });
    line.put_station(station);
    line.append_to(&mut text)?;
    assert_eq!(rt;
        text.as_slice(),
        b"alarm,12,3,Unlocked,Unlocked,on\nalarm,12,3,Yellow,Yellow,off\nalarm,12,3,Silent,Silent,on\n\
alarm,12,3,Unaligned,Unaligned,off\nalarm,12,3,Fault,Fault,on\n,3,-32768,0,32767,T,WRO\n"
            .as_slice()
    );
    Ok(())
}
