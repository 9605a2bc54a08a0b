//! The calls that C makes. The first parameter, the allocator, takes no argument in C.

ghost use Rattle.std.specs.Prelude.{◌≡◌, ◌≢◌, ◌⊎◌, ◌++◌, ◌∷◌, [], ℕ, List, None, Some, false, map};
ghost use Rattle.std.specs.Option.{option_to_list};
ghost use Rattle.ld_base.specs.Bits.{line_bits};
ghost use Rattle.ld_base.specs.Settings.{setting_fault, usual};
ghost use Rattle.ld_base.specs.declared.fields.Fields.{Fields};
ghost use Rattle.relay_core.specs.Answers.{changes_by};
ghost use Rattle.relay_core.specs.declared.call.Call.{Call};
ghost use Rattle.relay_core.specs.declared.call.Call.TheVariants as made;
ghost use Rattle.terminal_c.specs.Answers.{TellsBits, TellsSample, TellsSlot};
ghost use Rattle.terminal_c.specs.Codes.{refusal_of};
ghost use Rattle.terminal_c.specs.Stands.{Stands, fields_of};
ghost use Rattle.terminal_c.specs.Status.{bits_status, new_status, peer_status, stamp_status, status_number};
ghost use Rattle.terminal_c.specs.Told.{TellsChanges};
ghost use Rattle.terminal_c.specs.declared.status.Status.TheVariants.{Done, Memory, Settings};

use crate::checks::{bits_of, peer_of, stamp_of};
use crate::codes::refusal_of;
use crate::flat;
use crate::handle::Handle;
use crate::heard::tell_heard;
use crate::making::{Failed, made};
use crate::sampled::{tell_changes, tell_sampled};
use crate::settings::usual;
use crate::slotted::tell_slotted;
use crate::status::Status;
use ld_base::Phases;
use std::alloc::Global;

/// Takes an own sample (`Terminal::sample`).
#[unsafe(no_mangle)]
pub extern "C" fn linediff_sample(
    alloc: Global,
    terminal: &mut Handle,
    now: u64,
    a: i16,
    b: i16,
    c: i16,
    told: &mut flat::Sampled,
) -> u32
    ensures status { result ≡ status_number (stamp_status terminal.old now) }
    ensures refused { result ≢ 0 → (terminal.new ≡ terminal.old) × (told.new ≡ told.old) }
    ensures tells { (f : Fields) (me : ℕ) (log : List Call) → result ≡ 0 → Stands terminal.old f me log
        → TellsSample f me log (made.Sample now (record { a = a; b = b; c = c })) told.new }
    ensures stands { (f : Fields) (me : ℕ) (log : List Call) → result ≡ 0 → Stands terminal.old f me log
        → Stands terminal.new f me (log ++ made.Sample now (record { a = a; b = b; c = c }) ∷ []) }
{
    let stamp = match stamp_of(terminal, now) {
        Ok(stamp) => stamp,
        Err(status) => return status.number(),
    };
    let phases = phases_of(a, b, c);
    let mut taken = terminal.take(alloc);
    tell_sampled(&taken.sample(stamp, phases), told);
    terminal.put(taken);
    Status::Done.number()
}

/// Makes the frames of the next slot (`Terminal::slot`).
#[unsafe(no_mangle)]
pub extern "C" fn linediff_slot(
    alloc: Global,
    terminal: &mut Handle,
    now: u64,
    told: &mut flat::Slotted,
) -> u32
    ensures status { result ≡ status_number (stamp_status terminal.old now) }
    ensures refused { result ≢ 0 → (terminal.new ≡ terminal.old) × (told.new ≡ told.old) }
    ensures tells { (f : Fields) (me : ℕ) (log : List Call) → result ≡ 0 → Stands terminal.old f me log
        → TellsSlot f me log (made.Slot now) told.new }
    ensures stands { (f : Fields) (me : ℕ) (log : List Call) → result ≡ 0 → Stands terminal.old f me log
        → Stands terminal.new f me (log ++ made.Slot now ∷ []) }
{
    let stamp = match stamp_of(terminal, now) {
        Ok(stamp) => stamp,
        Err(status) => return status.number(),
    };
    let mut taken = terminal.take(alloc);
    tell_slotted(&taken.slot(stamp), told);
    terminal.put(taken);
    Status::Done.number()
}

/// Takes in the next bits of the line from a peer (`Terminal::bits`).
#[unsafe(no_mangle)]
pub extern "C" fn linediff_bits(
    alloc: Global,
    terminal: &mut Handle,
    now: u64,
    peer: u8,
    bits: &flat::Chunk,
    told: &mut flat::Heard,
) -> u32
    ensures status { result ≡ status_number (bits_status terminal.old now peer bits.now.count) }
    ensures refused { result ≢ 0 → (terminal.new ≡ terminal.old) × (told.new ≡ told.old) }
    ensures tells { (f : Fields) (me : ℕ) (log : List Call) → result ≡ 0 → Stands terminal.old f me log
        → TellsBits f me peer log (made.Bits now peer (line_bits bits.now.count bits.now.bytes)) told.new }
    ensures stands { (f : Fields) (me : ℕ) (log : List Call) → result ≡ 0 → Stands terminal.old f me log
        → Stands terminal.new f me (log ++ made.Bits now peer (line_bits bits.now.count bits.now.bytes) ∷ []) }
{
    let (stamp, station, chunk) = match bits_of(terminal, now, peer, bits) {
        Ok(call) => call,
        Err(status) => return status.number(),
    };
    let mut taken = terminal.take(alloc);
    tell_heard(&taken.bits(stamp, station, &chunk), told);
    terminal.put(taken);
    Status::Done.number()
}

/// Notes that a call on a wire to or from a peer failed (`Terminal::fault`).
#[unsafe(no_mangle)]
pub extern "C" fn linediff_fault(
    alloc: Global,
    terminal: &mut Handle,
    now: u64,
    peer: u8,
    told: &mut flat::Changes,
) -> u32
    ensures status { result ≡ status_number (peer_status terminal.old now peer) }
    ensures refused { result ≢ 0 → (terminal.new ≡ terminal.old) × (told.new ≡ told.old) }
    ensures tells { (f : Fields) (me : ℕ) (log : List Call) → result ≡ 0 → Stands terminal.old f me log
        → TellsChanges told.new (changes_by f me log (made.Fault now peer)) }
    ensures stands { (f : Fields) (me : ℕ) (log : List Call) → result ≡ 0 → Stands terminal.old f me log
        → Stands terminal.new f me (log ++ made.Fault now peer ∷ []) }
{
    let (stamp, station) = match peer_of(terminal, now, peer) {
        Ok(call) => call,
        Err(status) => return status.number(),
    };
    let mut taken = terminal.take(alloc);
    tell_changes(&taken.fault(stamp, station), told);
    terminal.put(taken);
    Status::Done.number()
}

/// Makes the terminal of station `me` (`Settings::new`, `Terminal::new`). Only this call takes memory.
#[unsafe(no_mangle)]
pub extern "C" fn linediff_new(
    alloc: Global,
    terminal: &mut Handle,
    settings: &flat::Settings,
    me: u8,
    refusal: &mut flat::Refusal,
) -> u32
    ensures status { (result ≡ status_number (new_status terminal.old (fields_of settings.now) me))
        ⊎ ((result ≡ status_number Memory) × (new_status terminal.old (fields_of settings.now) me ≡ Done)) }
    ensures unchanged { result ≢ 0 → terminal.new ≡ terminal.old }
    ensures refused { result ≡ status_number Settings → map refusal_of (option_to_list (setting_fault (fields_of settings.now))) ≡ refusal.new ∷ [] }
    ensures accepted { result ≢ status_number Settings → refusal.new ≡ refusal.old }
    ensures stands { result ≡ 0 → Stands terminal.new (fields_of settings.now) me [] }
{
    match made(alloc, terminal, settings, me) {
        Ok(new) => {
            *terminal = new;
            Status::Done.number()
        }
        Err(Failed::Settings(bad)) => {
            *refusal = refusal_of(bad);
            Status::Settings.number()
        }
        Err(Failed::Other(status)) => status.number(),
    }
}

/// The defaults of a line of so many stations and channels (`Fields::usual`).
#[unsafe(no_mangle)]
pub extern "C" fn linediff_usual(stations: u8, channels: u8, settings: &mut flat::Settings)
    ensures { fields_of settings.new ≡ usual stations channels }
{
    *settings = usual(stations, channels);
}

/// Frees the terminal, where there is one.
#[unsafe(no_mangle)]
pub extern "C" fn linediff_free(alloc: Global, terminal: &mut Handle)
    ensures { (terminal.new.held.terminal ≡ None) × (terminal.new.full ≡ false) }
{
    if terminal.full {
        drop(terminal.take(alloc));
    }
}

fn phases_of(a: i16, b: i16, c: i16) -> Phases
    ensures { result ≡ record { a = a; b = b; c = c } }
{
    Phases { a, b, c }
}
