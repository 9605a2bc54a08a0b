//! The laws of the frame.

ghost use Rattle.std.specs.Prelude.{◌≡◌, ℕ, ◌%◌, ◌≤◌, ◌<◌, Bool, List, length, Ok};
ghost use Rattle.ld_base.specs.Words.{AreWords, HeaderWords};
ghost use Rattle.c3794_frame.specs.Frame.{IsFrame};
ghost use Rattle.c3794_frame.specs.FrameOf.{FrameOf, Layout, frame_bits};
ghost use Rattle.c3794_frame.specs.Numbers.{AreBits};
ghost use Rattle.c3794_frame.specs.Reading.{read_frame};
ghost use Rattle.c3794_frame.specs.Stream.{IsStream, WordStands};

/// The bits of a frame have no fault, and what is read from them is that frame.
pub fn decoded_as_encoded()
    ensures { (words : HeaderWords) (f : Layout) (bits : List ℕ) → AreWords words → IsFrame f
        → FrameOf words bits f → read_frame words f.channels bits ≡ Ok f }
{}

/// What is read from bits is a frame of them, with the count of channels that was asked for.
pub fn read_as_framed()
    ensures { (words : HeaderWords) (channels : ℕ) (bits : List ℕ) (f : Layout) → 1 ≤ channels → channels ≤ 12
        → length bits ≡ 256 → AreBits bits → read_frame words channels bits ≡ Ok f
        → IsFrame f × FrameOf words bits f × (f.channels ≡ channels) }
{}

/// The bits that are sent for a frame are a frame of it.
pub fn sent_as_framed()
    ensures { (words : HeaderWords) (f : Layout) → AreWords words → IsFrame f
        → FrameOf words (frame_bits words f) f }
{}

/// In a stream of frames with alternating words, whatever their payloads, each place at which a header word stands is a
/// multiple of 256 from the first frame.
pub fn header_words_stand_at_frames()
    ensures { (words : HeaderWords) (odd which : Bool) (bits : List ℕ) (p : ℕ) → AreWords words
        → IsStream words odd bits → WordStands words bits p which → p % 256 ≡ 0 }
{}
