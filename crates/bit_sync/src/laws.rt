//! The laws of the frames on a line.

ghost use Rattle.std.specs.Prelude.{◌≡◌, ◌≤◌, ◌-◌, ◌*◌, ◌/◌, ◌+◌, ◌++◌, ◌<◌, Bool, true, List, ℕ, Option, drop, length, map, take};
ghost use Rattle.ld_base.specs.Words.{AreWords};
ghost use Rattle.c3794_frame.specs.FrameOf.{Layout};
ghost use Rattle.bit_sync.specs.Frames.{Event, Rules, frames, gained, gots, is_locked, listed, position};
ghost use Rattle.bit_sync.specs.Undamaged.{AreSent, sent_bits};
ghost use Rattle.bit_sync.specs.declared.told.Got.{Got};
ghost use Rattle.bit_sync.specs.declared.told.Got.TheVariants.{Good};

/// A longer line has what was read of the shorter one first.
pub fn longer_line()
    ensures { (r : Rules) (line more : List ℕ) → (later : List Event) × ((frames r (line ++ more)).events ≡ (frames r line).events ++ later) }
{}

/// Over an undamaged line, whose bits are the first so many of frames with alternating words as they are sent, the frames
/// are all but the first, each once its 256 bits have come.
pub fn undamaged_line()
    ensures { (r : Rules) (odd : Bool) (sent : List Layout) (n : ℕ) → AreWords r.words → 1 ≤ r.misses → AreSent r.channels odd sent → n ≤ 256 * length sent
        → gots (frames r (take n (sent_bits r.words sent))).events ≡ map (λ f. Good f) (take (n / 256 - 1) (drop 1 sent)) }
{}

/// While up to 256 bits come, the frame that ends among them and where the reading stands before and after them tell all
/// that happens, and at which bits.
pub fn gains_of_a_chunk()
    ensures { (r : Rules) (line more : List ℕ) (frame : Option Got) → 1 ≤ r.misses → length more ≤ 256
        → gots (frames r (line ++ more)).events ≡ gots (frames r line).events ++ listed frame
        → (frames r (line ++ more)).events ≡ (frames r line).events ++ gained (frames r line).place (frames r (line ++ more)).place frame }
{}

/// A reading goes on from within the line, and less than a frame from its end where it has a lock.
pub fn places_on_a_line()
    ensures { (r : Rules) (line : List ℕ) → (position (frames r line).place ≤ length line)
        × (is_locked (frames r line).place ≡ true → length line < position (frames r line).place + 256) }
{}
