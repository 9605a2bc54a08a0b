ghost use Rattle.std.specs.Prelude.{◌≡◌, ◌≤◌, ◌<◌, ◌+◌, ◌++◌, ℕ, List, [], Option, None, IsTrue, length, drop, slice_get};
ghost use Rattle.std.specs.Option.{option_to_list};
ghost use Rattle.ld_base.specs.Piece.{bytes_of};
ghost use Rattle.relay_message.specs.Hunter.{StandsFor};
ghost use Rattle.relay_message.specs.Messages.{added, cells, messages, piece_cells, refusals, told};

use crate::window::Window;
use crate::{Format, MessageFault, Whole};
use ld_base::{Message, Piece};
use std::marker::{Model, PhantomData};

/// What a piece told: the message that ends in it, and the first fault of a place that was tested with it.
#[derive(Clone, Copy, Debug, PartialEq, Eq)]
pub struct HuntedBy<M> {
    pub message: Option<M>,
    pub refused: Option<MessageFault>,
}

/// What a piece told of relay messages.
pub type Hunted = HuntedBy<Message>;

/// Finds the messages of a format in a line of payload that comes in pieces: within each run of bytes without a gap the
/// leftmost stretches that are messages, none overlapping. It keeps less than a message between two pieces.
#[derive(Drop)]
pub struct HunterOf<L: Format> {
    kept: Window,
    format: PhantomData<L>,
}

/// Finds relay messages.
pub type Hunter = HunterOf<Whole>;

impl<L: Format> Model for HunterOf<L> {
    ghost use Rattle.std.specs.Prelude.{ℕ, List, ◌<◌, length};

    ghost Value = { List ℕ };

    ghost view = { λ h. h.kept };

    ghost invariant = { λ h. length h.kept < L.SIZE };
}

impl<L: Format> HunterOf<L> {
    /// A hunter at the start of a line.
    pub fn new() -> HunterOf<L>
        ensures { StandsFor L.layout result [] }
    {
        HunterOf {
            kept: Window::new(),
            format: PhantomData,
        }
    }

    /// Takes the next piece of the line. A gap ends a run, and its bytes are forgotten.
    pub fn push(&mut self, piece: &Piece) -> HuntedBy<L::Message>
        ensures message { (line : List (Option ℕ)) → StandsFor L.layout self.old line
            → messages L.layout (line ++ piece_cells (bytes_of piece.now)) ≡ messages L.layout line ++ option_to_list result.message }
        ensures refused { (line : List (Option ℕ)) → StandsFor L.layout self.old line
            → result.refused ≡ slice_get (added (refusals L.layout) line (piece_cells (bytes_of piece.now))) 0 }
        ensures stands { (line : List (Option ℕ)) → StandsFor L.layout self.old line
            → StandsFor L.layout self.new (line ++ piece_cells (bytes_of piece.now)) }
        ensures few { length self.new < L.SIZE }
    {
        match piece {
            Piece::Bytes(bytes) => {
                if self.kept.is_empty() && is_idle::<L>(bytes) {
                    return nothing();
                }
                self.kept.push(bytes);
                let (hunted, place) = hunt::<L>(self.kept.bytes());
                self.kept.drop_first(place);
                hunted
            }
            Piece::Gap => {
                self.kept.clear();
                nothing()
            }
        }
    }
}

fn nothing<M>() -> HuntedBy<M>
    ensures { result ≡ record { message = None; refused = None } }
{
    HuntedBy {
        message: None,
        refused: None,
    }
}

// Whether no message begins in some bytes.
fn is_idle<L: Format>(bytes: &[u8]) -> bool
    ensures { IsTrue result → (more : List (Option ℕ)) → told L.layout (cells bytes.now ++ more) ≡ told L.layout more }
{
    for byte in bytes {
        if *byte == L::FIRST {
            return false;
        }
    }
    true
}

// Hunts some bytes, of which there is less than two messages. Also tells the first place that has not told anything yet.
fn hunt<L: Format>(bytes: &[u8]) -> (HuntedBy<L::Message>, usize)
    requires { length bytes.now < L.SIZE + L.SIZE }
    ensures within { result.1 ≤ length bytes.now }
    ensures few { length bytes.now < result.1 + L.SIZE }
    ensures message { messages L.layout (cells bytes.now) ≡ option_to_list result.0.message }
    ensures refused { result.0.refused ≡ slice_get (refusals L.layout (cells bytes.now)) 0 }
    ensures next { (more : List (Option ℕ)) → told L.layout (cells bytes.now ++ more)
        ≡ told L.layout (cells bytes.now) ++ told L.layout (cells (drop result.1 bytes.now) ++ more) }
{
    let mut hunted = nothing();
    let mut place = 0;
    while place < bytes.len() {
        if bytes[place] != L::FIRST {
            place += 1;
            continue;
        }
        if bytes.len() - place < L::SIZE {
            break;
        }
        match L::read(&bytes[place..place + L::SIZE]) {
            None => place += 1,
            Some(Err(fault)) => {
                hunted.refused = hunted.refused.or(Some(fault));
                place += 1;
            }
            Some(Ok(message)) => {
                hunted.message = Some(message);
                place += L::SIZE;
            }
        }
    }
    (hunted, place)
}
