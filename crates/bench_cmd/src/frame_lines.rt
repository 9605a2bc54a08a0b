//! The lines of `frames`.

ghost use Rattle.std.specs.Prelude.{◌≡◌, ◌≤◌, ◌+◌, ◌++◌, ◌∷◌, [], ℕ, Some, length, decimal, OnOk};
ghost use Rattle.std.specs.List.{flat_map};
ghost use Rattle.std.specs.Option.{option_to_list};
ghost use Rattle.ld_base.specs.Piece.{bytes_of};
ghost use Rattle.payload_map.specs.Pieces.{piece_of};
ghost use Rattle.text_lines.specs.Lines.{field_and, fields_and, row};
ghost use Rattle.bench_cmd.specs.FrameLines.{echo_fields, end_line, fault_fields, fault_number, frame_line, heading_fields, hex_words, lock_line, lost_line, message_line, refused_line, whole_bytes};

use bit_sync::Got;
use c3794_frame::FrameFault;
use ld_base::{Echo, Message, NoMemory, Piece};
use relay_message::{Hunted, MessageFault};
use text_lines::TextLine;

/// Appends the line of a lock that was made with so many bits.
pub(crate) fn write_lock(text: &mut Vec<u8>, at: u64) -> Result<(), NoMemory>
    requires { at ≤ 1000000001000 }
    ensures { OnOk result (text.new.items ≡ text.old.items ++ lock_line (whole_bytes at)) }
{
    write_counted(text, b"lock", whole_bytes(at))
}

/// Appends the line of a lock that was lost with so many bits.
pub(crate) fn write_lost(text: &mut Vec<u8>, at: u64) -> Result<(), NoMemory>
    requires { at ≤ 1000000001000 }
    ensures { OnOk result (text.new.items ≡ text.old.items ++ lost_line (whole_bytes at)) }
{
    write_counted(text, b"lost", whole_bytes(at))
}

/// Appends the last line.
pub(crate) fn write_end(text: &mut Vec<u8>, bits: u64, locked: bool) -> Result<(), NoMemory>
    ensures { OnOk result (text.new.items ≡ text.old.items ++ end_line bits locked) }
{
    let mut line = TextLine::new();
    line.put(if locked { b",locked\n" } else { b",hunting\n" });
    line.put_field(bits);
    line.put(b"end");
    line.append_to(text)
}

/// So many bits, and the rest of their last byte.
pub(crate) fn whole_bytes(bits: u64) -> u64
    requires { bits ≤ 1000000001000 }
    ensures { result ≡ whole_bytes bits }
{
    (bits + 7) / 8 * 8
}

/// Appends the line of a frame, with its piece of payload.
pub(crate) fn write_got(
    text: &mut Vec<u8>,
    end: u64,
    got: &Got,
    piece: &Piece,
) -> Result<(), NoMemory>
    ensures { OnOk result ((channels : ℕ) → bytes_of piece.now ≡ piece_of channels got.now
        → text.new.items ≡ text.old.items ++ frame_line channels end got.now) }
{
    let mut line = TextLine::new();
    line.put(b"\n");
    match got {
        Got::Good(frame) => {
            put_payload(&mut line, piece);
            line.put(if frame.yellow() { b",1" } else { b",0" });
            line.put_field(end);
            line.put(b"frame");
        }
        Got::Bad(fault) => {
            put_fault(&mut line, fault);
            line.put_field(end);
            line.put(b"bad");
        }
    }
    line.append_to(text)
}

// Puts a piece of payload in lower-case hexadecimal in front, behind a comma.
fn put_payload(line: &mut TextLine, piece: &Piece)
    requires { length line.old ≤ 120 }
    ensures payload { line.new ≡ field_and (hex_words (bytes_of piece.now)) line.old }
    ensures few { length line.new ≤ length line.old + 25 }
{
    match piece {
        Piece::Bytes(bytes) => line.put_hex_field(bytes),
        Piece::Gap => line.put_word(b""),
    }
}

// Puts the fields for a fault of a frame in front.
fn put_fault(line: &mut TextLine, fault: &FrameFault)
    requires { length line.old ≤ 120 }
    ensures fault { line.new ≡ fields_and (fault_fields fault.now) line.old }
    ensures few { length line.new ≤ length line.old + 27 }
{
    match fault {
        FrameFault::Header => line.put(b",header"),
        FrameFault::Pair(at) => {
            line.put_field(u64::from(*at));
            line.put(b",pair");
        }
        FrameFault::Count(count) => {
            line.put_field(u64::from(*count));
            line.put(b",count");
        }
    }
}

/// Appends the lines of what a piece told of messages.
pub(crate) fn write_hunted(text: &mut Vec<u8>, end: u64, hunted: &Hunted) -> Result<(), NoMemory>
    ensures { OnOk result (text.new.items ≡ text.old.items ++ flat_map (message_line end) (option_to_list hunted.now.message) ++ refused_line end hunted.now.refused) }
{
    if let Some(message) = &hunted.message {
        write_message(text, end, message)?;
    }
    if let Some(fault) = hunted.refused {
        write_refused(text, end, fault)?;
    }
    Ok(())
}

// Appends the line of a message.
fn write_message(text: &mut Vec<u8>, end: u64, message: &Message) -> Result<(), NoMemory>
    ensures { OnOk result (text.new.items ≡ text.old.items ++ message_line end message.now) }
{
    let mut line = TextLine::new();
    line.put(b"\n");
    line.put_phases(&message.phases);
    put_echo(&mut line, message.echo);
    put_heading(
        &mut line,
        message.from.get(),
        message.to.get(),
        message.number,
        message.sent,
    );
    line.put_field(end);
    line.put(b"message");
    line.append_to(text)
}

// Puts the stations of a message, the number of its sample, and its send stamp in front.
fn put_heading(line: &mut TextLine, from: u8, to: u8, number: u32, sent: u64)
    requires { length line.old ≤ 120 }
    ensures heading { line.new ≡ fields_and (heading_fields from to number sent) line.old }
    ensures few { length line.new ≤ length line.old + 84 }
{
    line.put_field(sent);
    line.put_field(u64::from(number));
    line.put_field(u64::from(to));
    line.put_field(u64::from(from));
}

// Puts the stamps of an echo in front.
fn put_echo(line: &mut TextLine, echo: Option<Echo>)
    requires { length line.old ≤ 120 }
    ensures echo { line.new ≡ fields_and (echo_fields echo) line.old }
    ensures few { length line.new ≤ length line.old + 42 }
{
    match echo {
        None => line.put(b",-,-"),
        Some(echo) => {
            line.put_field(echo.came);
            line.put_field(echo.sent);
        }
    }
}

// Appends the line of a place at which a message was refused.
fn write_refused(text: &mut Vec<u8>, end: u64, fault: MessageFault) -> Result<(), NoMemory>
    ensures { OnOk result (text.new.items ≡ text.old.items ++ refused_line end (Some fault)) }
{
    let mut line = TextLine::new();
    line.put(b"\n");
    line.put_field(fault_number(fault));
    line.put_field(end);
    line.put(b"refused");
    line.append_to(text)
}

fn fault_number(fault: MessageFault) -> u64
    ensures { result ≡ fault_number fault }
{
    match fault {
        MessageFault::Marker => 1,
        MessageFault::Check => 2,
        MessageFault::Address(_) => 3,
        MessageFault::Flags(_) => 4,
        MessageFault::EchoFields => 5,
    }
}

// Appends the line of a kind with one number.
fn write_counted(text: &mut Vec<u8>, kind: &[u8], count: u64) -> Result<(), NoMemory>
    requires { length kind.now ≤ 20 }
    ensures { OnOk result (text.new.items ≡ text.old.items ++ row kind.now (decimal count ∷ [])) }
{
    let mut line = TextLine::new();
    line.put(b"\n");
    line.put_field(count);
    line.put(kind);
    line.append_to(text)
}
