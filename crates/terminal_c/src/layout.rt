//! The layout of what crosses to C, told by the values of its fields.

ghost use Rattle.std.specs.Prelude.{◌≡◌, ◌≤◌};
ghost use Rattle.terminal_c.specs.Layout.{numbered_changes, numbered_heard, numbered_judged, numbered_message, numbered_outgoing, numbered_sampled, numbered_slotted};

use crate::flat::{
    Change, Changes, Exchange, Frame, Heard, Judged, Message, News, Outgoing, Own, Placed, Refused,
    Sampled, Slotted,
};

/// Numbers the fields of the three answers, each answer from 1 up in the order of its fields, so that a declaration of them in
/// another language can be compared with the library. Each bool is true and has no number. Of an array the first and the last
/// element are numbered, and what stands between them is zero.
#[unsafe(no_mangle)]
pub extern "C" fn linediff_layout(sampled: &mut Sampled, slotted: &mut Slotted, heard: &mut Heard)
    ensures { (sampled.new ≡ numbered_sampled) × (slotted.new ≡ numbered_slotted) × (heard.new ≡ numbered_heard) }
{
    *sampled = Sampled {
        own: Own { kind: 1, number: 2 },
        judged: judged(3),
        changes: changes(6),
    };
    *slotted = Slotted {
        frames: [outgoing(1), outgoing(13)],
        count: 25,
        changes: changes(26),
    };
    *heard = Heard {
        news: News {
            message: message(1),
            number: 10,
            last: 11,
            kind: 12,
            address: 13,
        },
        chosen: Exchange {
            a1: 14,
            b2: 15,
            b3: 16,
            a4: 17,
            given: true,
        },
        placed: Placed {
            number: 18,
            kind: 19,
        },
        frame: Frame {
            kind: 20,
            detail: 21,
            odd: true,
            yellow: true,
            payload: [22, 0, 0, 0, 0, 0, 0, 0, 0, 0, 0, 23],
        },
        refused: Refused {
            kind: 24,
            detail: 25,
        },
        taken: 26,
        judged: judged(27),
        changes: changes(30),
    };
}

fn judged(first: u8) -> Judged
    requires { first ≤ 100 }
    ensures { result ≡ numbered_judged first }
{
    Judged {
        given: true,
        verdicts: [first, 0, first + 1],
        number: u32::from(first) + 2,
    }
}

fn changes(first: u8) -> Changes
    requires { first ≤ 100 }
    ensures { result ≡ numbered_changes first }
{
    let none = Change {
        peer: 0,
        alarm: 0,
        on: false,
    };
    let near = Change {
        peer: first + 1,
        alarm: first + 2,
        on: true,
    };
    let far = Change {
        peer: first + 3,
        alarm: first + 4,
        on: true,
    };
    Changes {
        count: first,
        items: [near, none, none, none, none, none, none, none, none, far],
    }
}

fn message(first: u8) -> Message
    requires { first ≤ 100 }
    ensures { result ≡ numbered_message first }
{
    Message {
        sent: u64::from(first),
        echo_sent: u64::from(first) + 1,
        echo_came: u64::from(first) + 2,
        number: u32::from(first) + 3,
        a: i16::from(first) + 4,
        b: i16::from(first) + 5,
        c: i16::from(first) + 6,
        from: first + 7,
        to: first + 8,
        has_echo: true,
    }
}

fn outgoing(first: u8) -> Outgoing
    requires { first ≤ 80 }
    ensures { result ≡ numbered_outgoing first }
{
    let mut bytes = [0; 32];
    bytes[0] = first;
    bytes[31] = first + 1;
    Outgoing {
        bytes,
        to: first + 2,
        begins: true,
        message: message(first + 3),
    }
}
