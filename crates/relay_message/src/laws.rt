//! The laws of messages and of hunting, each the contract of a function that does nothing.

ghost use Rattle.std.specs.Prelude.{◌≡◌, ◌≢◌, ◌≤◌, ◌<◌, ◌++◌, ℕ, List, [], ◌∷◌, Option, Some, None, Result, Ok, length};
ghost use Rattle.ld_base.specs.Message.{Contents, IsMessage};
ghost use Rattle.message_check.specs.Check.{AreBytes};
ghost use Rattle.relay_message.specs.FitPhases.{FitPhases};
ghost use Rattle.relay_message.specs.MessageOf.{MessageOf, spelled};
ghost use Rattle.relay_message.specs.Messages.{added, cells, told};
ghost use Rattle.relay_message.specs.Reading.{relay_layout};

use crate::Format;

/// The bytes of a message spell it.
pub fn a_message_is_spelled()
    ensures { (m : Contents) → IsMessage m → FitPhases m.phases → MessageOf (spelled m) m }
{}

/// And no others do.
pub fn a_message_has_one_spelling()
    ensures { (bytes : List ℕ) (m : Contents) → AreBytes bytes → MessageOf bytes m → bytes ≡ spelled m }
{}

/// The bytes of a message that are changed, and only within four consecutive ones, spell no message.
pub fn damage_within_four_bytes_is_refused()
    ensures { (m other : Contents) (front damaged sent back : List ℕ) → IsMessage m → FitPhases m.phases
        → spelled m ≡ front ++ (sent ++ back) → AreBytes damaged → length damaged ≡ length sent → length sent ≤ 4
        → MessageOf (front ++ (damaged ++ back)) other → damaged ≡ sent }
{}

/// A whole message at the front of a line is found first, and hunting goes on behind it.
pub fn a_whole_message_is_found_first()
    ensures { (m : Contents) (line : List (Option ℕ)) → IsMessage m → FitPhases m.phases
        → told relay_layout (cells (spelled m) ++ line) ≡ Ok m ∷ told relay_layout line }
{}

/// A byte in front of a line with which no message begins tells nothing: so does an idle one, 0xFF.
pub fn an_idle_byte_tells_nothing<L: Format>()
    ensures { (byte : ℕ) (line : List (Option ℕ)) → byte ≢ L.FIRST → told L.layout (Some byte ∷ line) ≡ told L.layout line }
{}

/// Fewer bytes than a message tell nothing.
pub fn fewer_bytes_tell_nothing<L: Format>()
    ensures { (bytes : List ℕ) → length bytes < L.SIZE → told L.layout (cells bytes) ≡ [] }
{}

/// A gap parts a line: what stands before it and what stands behind it tell what they tell alone.
pub fn a_gap_parts_a_line<L: Format>()
    ensures { (line more : List (Option ℕ)) → told L.layout (line ++ (None ∷ more)) ≡ told L.layout line ++ told L.layout more }
{}

/// A longer line tells what the shorter one tells first.
pub fn a_longer_line_tells_the_same_first<L: Format>()
    ensures { (line more : List (Option ℕ)) → told L.layout (line ++ more) ≡ told L.layout line ++ added (told L.layout) line more }
{}
