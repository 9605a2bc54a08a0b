//! Chunks on their way.

ghost use Rattle.std.specs.Prelude.{◌≡◌, ◌+◌, ◌<◌, ◌≤◌, [], IsTrue, length, fold, map, is_ok, if◌then◌else◌};
ghost use Rattle.std.specs.List.{AllWithin};
ghost use Rattle.std.specs.List.Sorted.{IsNonDecreasingBy};
ghost use Rattle.std.specs.VecDeque.{deque_capacity, deque_len};
ghost use Rattle.ld_base.specs.Script.{after_due, first_due, next_due, queued};
ghost use Rattle.script_wire.specs.Wires.{due_of};

use ld_base::{Chunk, NoMemory};
use std::alloc::Global;
use std::collections::VecDeque;
use std::marker::Model;

/// Chunks by due tick and then by the order of queueing.
#[derive(Drop)]
pub(crate) struct Queue {
    chunks: VecDeque<(u64, Chunk)>,
}

impl Model for Queue {
    ghost use Rattle.std.specs.Prelude.{List, map};
    ghost use Rattle.std.specs.List.Sorted.{IsNonDecreasingBy};
    ghost use Rattle.ld_base.specs.Script.{Due};
    ghost use Rattle.script_wire.specs.Wires.{due_of};

    ghost Value = { List Due };

    ghost view = { λ q. map due_of q.chunks.items };

    ghost invariant = { λ q. IsNonDecreasingBy (λ chunk. chunk.0) q.chunks.items };
}

impl Queue {
    /// An empty queue.
    pub(crate) fn new(alloc: Global) -> Queue
        ensures { result ≡ [] }
    {
        Queue {
            chunks: VecDeque::new(alloc),
        }
    }

    /// Queues these chunks in turn, each by its due tick. On `NoMemory` none was queued.
    pub(crate) fn add_all(&mut self, chunks: &[(u64, Chunk)]) -> Result<(), NoMemory>
        ensures { self.new ≡ (if is_ok result then fold queued self.old (map due_of chunks.now) else self.old) }
    {
        self.chunks.reserve(chunks.len())?;
        put_all(&mut self.chunks, chunks);
        Ok(())
    }

    /// Takes the first chunk, where it is due.
    pub(crate) fn take(&mut self, at: u64) -> Option<Chunk>
        ensures chunk { result ≡ first_due self.old at }
        ensures left { self.new ≡ after_due self.old at }
    {
        let (due, _) = self.chunks.front()?;
        if *due > at {
            return None;
        }
        let (_, chunk) = self.chunks.pop_front()?;
        Some(chunk)
    }

    /// The least tick from this one on at which a chunk is due.
    pub(crate) fn next_due(&self, at: u64) -> Option<u64>
        ensures { result ≡ next_due self.now at }
    {
        let (due, _) = self.chunks.front()?;
        Some(at.max(*due))
    }
}

// Puts chunks in turn, for which there is room.
fn put_all(all: &mut VecDeque<(u64, Chunk)>, chunks: &[(u64, Chunk)])
    requires rises { IsNonDecreasingBy (λ chunk. chunk.0) all.old.items }
    requires room { deque_len all.old + length chunks.now ≤ deque_capacity all.old }
    ensures put { map due_of all.new.items ≡ fold queued (map due_of all.old.items) (map due_of chunks.now) }
    ensures rises { IsNonDecreasingBy (λ chunk. chunk.0) all.new.items }
{
    for (due, chunk) in chunks {
        put(all, *due, *chunk);
    }
}

// Puts a chunk behind all that aren't due later, where there is room.
fn put(all: &mut VecDeque<(u64, Chunk)>, due: u64, chunk: Chunk)
    requires rises { IsNonDecreasingBy (λ chunk. chunk.0) all.old.items }
    requires room { deque_len all.old < deque_capacity all.old }
    ensures put { map due_of all.new.items ≡ queued (map due_of all.old.items) (record { due = due; bits = chunk }) }
    ensures rises { IsNonDecreasingBy (λ chunk. chunk.0) all.new.items }
    ensures len { deque_len all.new ≡ deque_len all.old + 1 }
    ensures capacity { deque_capacity all.old ≤ deque_capacity all.new }
{
    // Mostly none is due later.
    if is_last(all, due) {
        all.push_back_reserved((due, chunk));
        return;
    }
    let place = all.partition_point(|(tick, _)| *tick <= due);
    if all.insert(place, (due, chunk)).is_err() {
        unreachable!()
    }
}

// Whether no chunk is due later.
fn is_last(all: &VecDeque<(u64, Chunk)>, due: u64) -> bool
    requires { IsNonDecreasingBy (λ chunk. chunk.0) all.now.items }
    ensures { IsTrue result → AllWithin (λ chunk. chunk.0 ≤ due) all.now.items 0 (length all.now.items) }
{
    let Some((last, _)) = all.back() else {
        return true;
    };
    *last <= due
}
