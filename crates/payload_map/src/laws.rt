//! The laws of the payload, each the contract of a function that does nothing but name the laws on which it rests.

ghost use Rattle.std.specs.Prelude.{◌≡◌, ◌≤◌, ◌↔◌, ℕ, suc, ◌-◌, ◌*◌, ◌/◌, ◌%◌, ◌==◌, Bool, Option, Some, None, IsSome, List, [], ◌∷◌, ◌++◌, length, take, drop, map, All, slice_get};
ghost use Rattle.std.specs.Int.{div_ceil};
ghost use Rattle.std.specs.Option.{ForSome};
ghost use Rattle.ld_base.specs.Message.{Contents};
ghost use Rattle.bit_sync.specs.Frames.{Rules};
ghost use Rattle.relay_message.specs.MessageOf.{spelled};
ghost use Rattle.relay_message.specs.Messages.{line_of, messages, refusals};
ghost use Rattle.relay_message.specs.Reading.{relay_layout};
ghost use Rattle.payload_map.specs.Messages.{CanBeSent, relay_slots};
ghost use Rattle.payload_map.specs.Pieces.{AreRules, piece_sent, pieces};
ghost use Rattle.payload_map.specs.Sent.{AreInTurn, Slot, frame_at, frames, line_sent, unsent, whole};

use bit_sync::laws::undamaged_line;
use relay_message::{Whole, laws};

/// In the payload of slots, each message loaded when nothing was left of the one before, hunting finds the messages whose
/// last byte was sent, in their order, and no others. It refuses none.
pub fn messages_sent_are_found()
    ensures messages { (channels : ℕ) (slots : List (Slot Contents)) → channels ≤ 12 → All (λ slot. ForSome slot.loaded CanBeSent) slots
        → AreInTurn channels [] (relay_slots slots)
        → messages relay_layout (line_of (map (piece_sent channels) (frames channels (relay_slots slots)))) ≡ whole spelled channels slots }
    ensures refusals { (channels : ℕ) (slots : List (Slot Contents)) → channels ≤ 12 → All (λ slot. ForSome slot.loaded CanBeSent) slots
        → AreInTurn channels [] (relay_slots slots)
        → refusals relay_layout (line_of (map (piece_sent channels) (frames channels (relay_slots slots)))) ≡ [] }
{
    laws::a_message_is_spelled();
    laws::a_whole_message_is_found_first();
    laws::an_idle_byte_tells_nothing::<Whole>();
    laws::fewer_bytes_tell_nothing::<Whole>();
}

/// A slot more adds its frame, with word B where an odd count of slots stands before it and word A elsewhere. It is in turn
/// where nothing is loaded for it, or nothing is left before it.
pub fn a_slot_more_adds_its_frame()
    ensures frame { (channels : ℕ) (slots : List (Slot (List ℕ))) (slot : Slot (List ℕ))
        → frames channels (slots ++ slot ∷ []) ≡ frames channels slots ++ frame_at channels (length slots % 2 == 1) (unsent channels slots) slot ∷ [] }
    ensures in_turn { (channels : ℕ) (slots : List (Slot (List ℕ))) (slot : Slot (List ℕ)) → AreInTurn channels [] slots
        → (IsSome slot.loaded → unsent channels slots ≡ []) → AreInTurn channels [] (slots ++ slot ∷ []) }
{}

/// What is left of a message goes on from the slot for which it was loaded, as long as nothing else is loaded.
pub fn a_message_goes_on()
    ensures { (channels : ℕ) (before after : List (Slot (List ℕ))) (bytes : List ℕ) (yellow : Bool) → All (λ slot. slot.loaded ≡ None) after
        → unsent channels (before ++ record { loaded = Some bytes; yellow = yellow } ∷ after) ≡ drop (channels * suc (length after)) bytes }
{}

/// Where all messages have so many bytes, each is in flight for that many slots, divided by the channels and rounded up:
/// nothing is left of the last one exactly where none was loaded for the last slots, one less than that.
pub fn a_message_is_in_flight_for_its_slots()
    ensures { (channels size : ℕ) (slots : List (Slot (List ℕ))) → 1 ≤ channels
        → All (λ slot. ForSome slot.loaded (λ bytes. length bytes ≡ size)) slots
        → (unsent channels slots ≡ []) ↔ All (λ slot. slot.loaded ≡ None) (drop (length slots - (div_ceil size channels - 1)) slots) }
{}

/// Over an undamaged line, which has the first so many bits of the frames that were sent, and whose first frame carries no
/// message, hunting finds the messages whose last frame has come whole, in their order, and no others. It refuses none.
pub fn messages_come_over_an_undamaged_line()
    ensures messages { (rules : Rules) (slots : List (Slot Contents)) (n : ℕ) → AreRules rules
        → All (λ slot. ForSome slot.loaded CanBeSent) slots → AreInTurn rules.channels [] (relay_slots slots)
        → ForSome (slice_get slots 0) (λ slot. slot.loaded ≡ None) → n ≤ 256 * length slots
        → messages relay_layout (line_of (pieces rules (take n (line_sent rules.words rules.channels (relay_slots slots)))))
        ≡ whole spelled rules.channels (take (n / 256) slots) }
    ensures refusals { (rules : Rules) (slots : List (Slot Contents)) (n : ℕ) → AreRules rules
        → All (λ slot. ForSome slot.loaded CanBeSent) slots → AreInTurn rules.channels [] (relay_slots slots)
        → ForSome (slice_get slots 0) (λ slot. slot.loaded ≡ None) → n ≤ 256 * length slots
        → refusals relay_layout (line_of (pieces rules (take n (line_sent rules.words rules.channels (relay_slots slots))))) ≡ [] }
{
    laws::a_message_is_spelled();
    laws::a_whole_message_is_found_first();
    laws::an_idle_byte_tells_nothing::<Whole>();
    laws::fewer_bytes_tell_nothing::<Whole>();
    undamaged_line();
}
