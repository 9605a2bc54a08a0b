ghost use Rattle.std.specs.Prelude.{◌≡◌, ◌≤◌, length, take};
ghost use Rattle.ld_base.specs.Piece.{bytes_of};
ghost use Rattle.payload_map.specs.Pieces.{piece_of};

use arrayvec::ArrayVec;
use bit_sync::Got;
use ld_base::Piece;
use std::marker::Model;

/// Takes the payload out of the frames of a line.
#[derive(Clone, Copy, Debug, PartialEq, Eq)]
pub struct Inlet {
    channels: u8,
}

impl Model for Inlet {
    ghost use Rattle.std.specs.Prelude.{ℕ, ◌≤◌};

    ghost Value = { ℕ };

    ghost view = { λ i. i.channels };

    ghost invariant = { λ i. (1 ≤ i.channels) × (i.channels ≤ 12) };

    ghost inverse = { λ n. record { channels = n } };
}

impl Inlet {
    /// An inlet for frames of so many channels, 1 to 12.
    pub fn new(channels: u8) -> Inlet
        requires { (1 ≤ channels) × (channels ≤ 12) }
        ensures { result ≡ channels }
    {
        Inlet { channels }
    }

    /// The piece of a frame: a byte for each channel of a good one, or a gap for a bad one.
    pub fn take(&mut self, got: &Got) -> Piece
        ensures piece { bytes_of result ≡ piece_of self.old got.now }
        ensures same { self.new ≡ self.old }
    {
        match got {
            Got::Good(frame) => Piece::Bytes(first_bytes(&frame.payload(), self.channels)),
            Got::Bad(_) => Piece::Gap,
        }
    }
}

// The first bytes of a payload, that many.
fn first_bytes(payload: &[u8; 12], count: u8) -> ArrayVec<u8, 12>
    requires { count ≤ 12 }
    ensures { result.items ≡ take count payload.now }
{
    let mut bytes = ArrayVec::new();
    let _ = bytes.try_extend_from_slice(&payload[..usize::from(count)]);
    bytes
}
