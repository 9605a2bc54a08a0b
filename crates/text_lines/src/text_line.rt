//! A line of text, made from its end to its front.

ghost use Rattle.std.specs.Prelude.{◌≡◌, ◌<◌, ◌≤◌, ◌+◌, ◌*◌, ◌++◌, [], codes, length, decimal, vec_capacity, vec_len, OnErr, OnOk};
ghost use Rattle.std.specs.Fmt.{signed_decimal};
ghost use Rattle.std.specs.List.{flat_map};
ghost use Rattle.hex.specs.Hex.{encode_lower};
ghost use Rattle.text_lines.specs.Lines.{field_and, fields_and, longest};
ghost use Rattle.text_lines.specs.Words.{alarm_name, bound_word, letter, phases_fields, turn_word};

use crate::words::{alarm_name, letter};
use channel_alarm::Turn;
use itoa::{Buffer, write_digits};
use ld_base::{NoMemory, Phases, Station};
use std::marker::Model;
use trip_logic::Verdict;

/// The most bytes of a line. The longest of those that are written are a report's totals, of up to 195 bytes; nine numbers, a
/// station and two bounds take up to 240, and 32 bytes in hexadecimal with four numbers some 150.
const LONGEST: usize = 256;

/// The end of a line, so far: its bytes. Each call puts something in front of it. So a number is made at its place, and the
/// whole line is appended to a text at once.
#[derive(Drop)]
pub struct TextLine {
    bytes: [u8; LONGEST],
    start: usize,
}

impl Model for TextLine {
    ghost use Rattle.std.specs.Prelude.{ℕ, List, ◌≤◌, drop};

    ghost Value = { List ℕ };

    ghost view = { λ l. drop l.start l.bytes };

    ghost invariant = { λ l. l.start ≤ 256 };
}

impl TextLine {
    /// Nothing so far.
    pub fn new() -> TextLine
        ensures { result ≡ [] }
    {
        TextLine {
            bytes: [0; LONGEST],
            start: LONGEST,
        }
    }

    /// Puts some bytes in front, as the kind of the line.
    pub fn put(&mut self, bytes: &[u8])
        requires { length bytes.now + length self.old ≤ longest }
        ensures { self.new ≡ bytes.now ++ self.old }
    {
        let start = self.start - bytes.len();
        self.bytes[start..self.start].copy_from_slice(bytes);
        self.start = start;
    }

    /// Puts a word in front, behind a comma.
    pub fn put_word(&mut self, word: &[u8])
        requires { length word.now + length self.old < longest }
        ensures { self.new ≡ field_and word.now self.old }
    {
        self.put(word);
        self.put_comma();
    }

    /// Puts a number in front, behind a comma.
    pub fn put_field(&mut self, number: u64)
        requires { length self.old + 21 ≤ longest }
        ensures number { self.new ≡ field_and (decimal number) self.old }
        ensures few { length self.new ≤ length self.old + 21 }
    {
        self.put_number(number);
        self.put_comma();
    }

    /// Puts a signed number in front, behind a comma.
    pub fn put_signed_field(&mut self, number: i64)
        requires { length self.old + 22 ≤ longest }
        ensures number { self.new ≡ field_and (signed_decimal number) self.old }
        ensures few { length self.new ≤ length self.old + 22 }
    {
        self.put_signed(number);
        self.put_comma();
    }

    /// Puts a number of up to 128 bits in front, behind a comma.
    pub fn put_wide_field(&mut self, number: u128)
        requires { length self.old + 41 ≤ longest }
        ensures number { self.new ≡ field_and (decimal number) self.old }
        ensures few { length self.new ≤ length self.old + 41 }
    {
        self.put_wide(number);
        self.put_comma();
    }

    /// Puts bytes in front as two lower-case hexadecimal digits each, behind a comma.
    pub fn put_hex_field(&mut self, bytes: &[u8])
        requires { 2 * length bytes.now + length self.old < longest }
        ensures digits { self.new ≡ field_and (encode_lower bytes.now) self.old }
        ensures long { length self.new ≡ length self.old + (2 * length bytes.now + 1) }
    {
        self.put_hex(bytes);
        self.put_comma();
    }

    /// Puts a station in front, behind a comma.
    pub fn put_station(&mut self, station: Station)
        requires { length self.old + 21 ≤ longest }
        ensures station { self.new ≡ field_and (decimal station) self.old }
        ensures few { length self.new ≤ length self.old + 2 }
    {
        self.put_field(u64::from(station.get()));
    }

    /// Puts the kind of a line, its time and its station in front.
    pub fn put_front(&mut self, kind: &[u8], time: u64, station: Station)
        requires { length kind.now + (length self.old + 42) ≤ longest }
        ensures front { self.new ≡ kind.now ++ field_and (decimal time) (field_and (decimal station) self.old) }
        ensures few { length self.new ≤ length kind.now + (length self.old + 23) }
    {
        self.put_station(station);
        self.put_field(time);
        self.put(kind);
    }

    /// Puts a bound in front, behind a comma, or the sign for none.
    pub fn put_bound(&mut self, bound: Option<u128>)
        requires { length self.old + 41 ≤ longest }
        ensures bound { self.new ≡ field_and (bound_word bound) self.old }
        ensures few { length self.new ≤ length self.old + 41 }
    {
        match bound {
            Some(bound) => self.put_wide_field(bound),
            None => self.put(b",-"),
        }
    }

    /// Puts the letters of a set's phases in front, behind a comma.
    pub fn put_letters(&mut self, verdicts: &[Verdict; 3])
        requires { length self.old + 4 ≤ longest }
        ensures letters { self.new ≡ field_and (flat_map letter verdicts.now) self.old }
        ensures long { length self.new ≡ length self.old + 4 }
    {
        self.put(&[
            b',',
            letter(verdicts[0]),
            letter(verdicts[1]),
            letter(verdicts[2]),
        ]);
    }

    /// Puts an alarm and what it turned in front, each behind a comma.
    pub fn put_turn(&mut self, turn: &Turn)
        requires { length self.old + 14 ≤ longest }
        ensures turn { self.new ≡ field_and (alarm_name turn.now.alarm) (field_and (turn_word turn.now.on) self.old) }
        ensures few { length self.new ≤ length self.old + 14 }
    {
        self.put(if turn.on { b",on" } else { b",off" });
        self.put_word(alarm_name(turn.alarm));
    }

    /// Puts the three values of a sample in front, each behind a comma.
    pub fn put_phases(&mut self, phases: &Phases)
        requires { length self.old + 66 ≤ longest }
        ensures phases { self.new ≡ fields_and (phases_fields phases.now) self.old }
        ensures few { length self.new ≤ length self.old + 66 }
    {
        self.put_signed_field(i64::from(phases.c));
        self.put_signed_field(i64::from(phases.b));
        self.put_signed_field(i64::from(phases.a));
    }

    /// Appends the line to a text. It is left as it was where the line has no room in it and memory for more is refused.
    pub fn append_to(&self, text: &mut Vec<u8>) -> Result<(), NoMemory>
        ensures appended { OnOk result (text.new.items ≡ text.old.items ++ self.now) }
        ensures kept { OnErr result (text.new.items ≡ text.old.items) }
        ensures full { OnErr result (vec_capacity text.old < vec_len text.old + length self.now) }
    {
        text.extend_from_slice(&self.bytes[self.start..])?;
        Ok(())
    }

    // Puts a comma in front.
    fn put_comma(&mut self)
        requires { length self.old < longest }
        ensures { self.new ≡ codes "," ++ self.old }
    {
        self.start -= 1;
        self.bytes[self.start] = b',';
    }

    // Puts a number in front.
    fn put_number(&mut self, number: u64)
        requires { length self.old + 20 ≤ longest }
        ensures number { self.new ≡ decimal number ++ self.old }
        ensures few { length self.new ≤ length self.old + 20 }
    {
        self.start = write_digits(number, &mut self.bytes, self.start);
    }

    // Puts a signed number in front.
    fn put_signed(&mut self, number: i64)
        requires { length self.old + 21 ≤ longest }
        ensures number { self.new ≡ signed_decimal number ++ self.old }
        ensures few { length self.new ≤ length self.old + 21 }
    {
        self.put_number(number.unsigned_abs());
        if number < 0 {
            self.put(b"-");
        }
    }

    // Puts a number of up to 128 bits in front.
    fn put_wide(&mut self, number: u128)
        requires { length self.old + 40 ≤ longest }
        ensures number { self.new ≡ decimal number ++ self.old }
        ensures few { length self.new ≤ length self.old + 40 }
    {
        self.put(Buffer::new().format(number).as_bytes());
    }

    // Puts bytes in lower-case hexadecimal in front.
    fn put_hex(&mut self, bytes: &[u8])
        requires { 2 * length bytes.now + length self.old ≤ longest }
        ensures digits { self.new ≡ encode_lower bytes.now ++ self.old }
        ensures long { length self.new ≡ length self.old + 2 * length bytes.now }
    {
        let start = self.start - 2 * bytes.len();
        let _ = hex::encode_to_slice(bytes, &mut self.bytes[start..self.start]);
        self.start = start;
    }
}
