//! What crosses to C: structs of fixed size, each as `include/linediff.h` declares it. A part that is told at times alone has
//! a `kind` or a `given` before it; where that says that nothing is told, the rest of the part is as it was.

/// The settings of a line, by the names and in the ranges of `Fields`.
#[repr(C)]
#[derive(Clone, Copy)]
pub struct Settings {
    pub spacing: u32,
    pub drift: u32,
    pub slow: u32,
    pub age: u32,
    pub limit: u32,
    pub silent: u32,
    pub rn: u32,
    pub rd: u32,
    pub p: i32,
    pub q: i32,
    pub pickup: u16,
    pub stations: u8,
    pub channels: u8,
    pub cycle: u8,
    pub count: u8,
    pub worda: u8,
    pub wordb: u8,
    pub misses: u8,
}

/// Why settings are refused.
#[repr(C)]
#[derive(Clone, Copy)]
pub struct Refusal {
    /// 1 to 18 a key whose field lies outside its range, in the order of `Key`; 19 `ChannelTooSlow`, 20 `LimitTooLong`, 21
    /// `SameWords`.
    pub reason: u32,
    /// The ticks that `ChannelTooSlow` or `LimitTooLong` names, else 0.
    pub ticks: u32,
}

/// What became of an own sample: 0 it is kept, 1 it is off the grid, 2 its number isn't above the last one.
#[repr(C)]
#[derive(Clone, Copy)]
pub struct Own {
    pub kind: u8,
    pub number: u32,
}

/// A set that was judged, with the verdicts of the phases a, b and c: 0 waiting, 1 restrain, 2 outside, 3 trip.
#[repr(C)]
#[derive(Clone, Copy)]
pub struct Judged {
    pub given: bool,
    pub verdicts: [u8; 3],
    pub number: u32,
}

/// An alarm of a peer's channel that turned: 0 unlocked, 1 yellow, 2 silent, 3 unaligned, 4 fault.
#[repr(C)]
#[derive(Clone, Copy)]
pub struct Change {
    pub peer: u8,
    pub alarm: u8,
    pub on: bool,
}

/// The alarms that turned: the first `count` of `items`.
#[repr(C)]
#[derive(Clone, Copy)]
pub struct Changes {
    pub count: u8,
    pub items: [Change; 10],
}

/// A relay message.
#[repr(C)]
#[derive(Clone, Copy)]
pub struct Message {
    pub sent: u64,
    pub echo_sent: u64,
    pub echo_came: u64,
    pub number: u32,
    pub a: i16,
    pub b: i16,
    pub c: i16,
    pub from: u8,
    pub to: u8,
    pub has_echo: bool,
}

/// Some bits of a line in order, up to 256: the first `count` of `bytes`, the highest of a byte first.
#[repr(C)]
#[derive(Clone, Copy)]
pub struct Chunk {
    pub bytes: [u8; 32],
    pub count: u16,
}

/// The 256 bits of a frame on its way to a peer, and the message that begins in it, where `begins` says so.
#[repr(C)]
#[derive(Clone, Copy)]
pub struct Outgoing {
    pub bytes: [u8; 32],
    pub to: u8,
    pub begins: bool,
    pub message: Message,
}

/// What a sample answers.
#[repr(C)]
#[derive(Clone, Copy)]
pub struct Sampled {
    pub own: Own,
    pub judged: Judged,
    pub changes: Changes,
}

/// What a slot answers: the first `count` of `frames`.
#[repr(C)]
#[derive(Clone, Copy)]
pub struct Slotted {
    pub frames: [Outgoing; 2],
    pub count: u8,
    pub changes: Changes,
}

/// The frame that ended: 0 none, 1 a good one, 2 a bad one without its header word, 3 with a bad pair at bit `detail`, 4 with
/// `detail` in the place of the count of channels.
#[repr(C)]
#[derive(Clone, Copy)]
pub struct Frame {
    pub kind: u8,
    pub detail: u8,
    pub odd: bool,
    pub yellow: bool,
    pub payload: [u8; 12],
}

/// What a message that was complete is to the terminal: 0 there is none, 1 `message` is accepted, 2 its number `number` isn't
/// above that of the last one accepted, which is `last`, 3 a stranger with this address byte.
#[repr(C)]
#[derive(Clone, Copy)]
pub struct News {
    pub message: Message,
    pub number: u32,
    pub last: u32,
    pub kind: u8,
    pub address: u8,
}

/// The first fault for which a place of the payload is no message: 0 none, 1 the marker, 2 the check, 3 the address, 4 the
/// flags, 5 an echo's field. `detail` is the byte that stands in the place of the address or of the flags.
#[repr(C)]
#[derive(Clone, Copy)]
pub struct Refused {
    pub kind: u8,
    pub detail: u8,
}

/// An exchange.
#[repr(C)]
#[derive(Clone, Copy)]
pub struct Exchange {
    pub a1: u64,
    pub b2: u64,
    pub b3: u64,
    pub a4: u64,
    pub given: bool,
}

/// What became of a peer's values: 0 there are none, 1 stale, 2 ahead, 3 double, 4 stored, and the number to which they are
/// aligned.
#[repr(C)]
#[derive(Clone, Copy)]
pub struct Placed {
    pub number: i64,
    pub kind: u8,
}

/// What bits answer. `taken` is what became of an exchange: 0 there is none, 1 it is kept, 2 it is slow.
#[repr(C)]
#[derive(Clone, Copy)]
pub struct Heard {
    pub news: News,
    pub chosen: Exchange,
    pub placed: Placed,
    pub frame: Frame,
    pub refused: Refused,
    pub taken: u8,
    pub judged: Judged,
    pub changes: Changes,
}
