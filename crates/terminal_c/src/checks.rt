//! Whether a call can be made.

ghost use Rattle.std.specs.Prelude.{◌≡◌, ◌≢◌, ◌≤◌, IsTrue, MatchResult};
ghost use Rattle.ld_base.specs.Bits.{line_bits};
ghost use Rattle.terminal_c.specs.Status.{bits_status, is_peer, peer_status, stamp_status};
ghost use Rattle.terminal_c.specs.declared.status.Status.TheVariants.{Done};

use crate::flat;
use crate::handle::Handle;
use crate::status::Status;
use ld_base::{Chunk, Station, Ticks};

/// The stamp of a call, or why there can't be one.
pub(crate) fn stamp_of(terminal: &Handle, now: u64) -> Result<Ticks, Status>
    ensures { MatchResult result (λ stamp. (stamp ≡ now) × IsTrue terminal.now.full × (stamp_status terminal.now now ≡ Done))
        (λ status. (status ≢ Done) × (stamp_status terminal.now now ≡ status)) }
{
    if !terminal.full {
        return Err(Status::Empty);
    }
    match Ticks::new(now) {
        Some(stamp) => Ok(stamp),
        None => Err(Status::Stamp),
    }
}

/// The stamp of a call about a peer and the peer, or why there can't be one.
pub(crate) fn peer_of(terminal: &Handle, now: u64, peer: u8) -> Result<(Ticks, Station), Status>
    ensures { MatchResult result (λ call. (call.0 ≡ now) × (call.1 ≡ peer) × IsTrue terminal.now.full × (peer ≤ terminal.now.stations) × (peer ≢ terminal.now.me) × (peer_status terminal.now now peer ≡ Done))
        (λ status. (status ≢ Done) × (peer_status terminal.now now peer ≡ status)) }
{
    let stamp = stamp_of(terminal, now)?;
    if !is_peer(terminal, peer) {
        return Err(Status::Peer);
    }
    let Some(station) = Station::new(peer) else {
        unreachable!()
    };
    Ok((stamp, station))
}

/// The stamp, the peer and the bits of a call, or why there can't be one.
pub(crate) fn bits_of(
    terminal: &Handle,
    now: u64,
    peer: u8,
    bits: &flat::Chunk,
) -> Result<(Ticks, Station, Chunk), Status>
    ensures { MatchResult result (λ call. (call.0 ≡ now) × (call.1 ≡ peer) × (call.2 ≡ line_bits bits.now.count bits.now.bytes) × IsTrue terminal.now.full × (peer ≤ terminal.now.stations) × (peer ≢ terminal.now.me) × (bits_status terminal.now now peer bits.now.count ≡ Done))
        (λ status. (status ≢ Done) × (bits_status terminal.now now peer bits.now.count ≡ status)) }
{
    let (stamp, station) = peer_of(terminal, now, peer)?;
    match Chunk::new(bits.count, bits.bytes) {
        Some(chunk) => Ok((stamp, station, chunk)),
        None => Err(Status::Bits),
    }
}

// Whether a station is a peer of the terminal.
fn is_peer(terminal: &Handle, station: u8) -> bool
    ensures { result ≡ is_peer terminal.now station }
{
    1 <= station && station <= 3 && station <= terminal.stations && station != terminal.me
}
