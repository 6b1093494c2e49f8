//! A sink in memory, which fails at chosen calls and past its room.
ghost use Rattle.std.specs.Prelude.{◌≡◌, ◌+◌, ◌-◌, ◌^◌, ◌<◌, ◌≤◌, ◌++◌, min, ℕ, [], None, Some, All, length, take, IfOk, IsOk, vec_capacity};
ghost use Rattle.hub_io.specs.Outside.{Puts};
ghost use Rattle.hub_io.specs.Partial.{partial_at};

use crate::{Failed, Sink};
use std::alloc::{AllocError, Global};

/// A put that is made to fail.
#[derive(Clone, Copy, Debug, PartialEq, Eq)]
pub struct Partial {
    /// The number of the put, counted from 1.
    pub call: u64,
    /// How many bytes of its piece are taken nevertheless, or all where the piece is shorter.
    pub taken: usize,
}

/// A sink in memory, for tests. Contracts know what it has taken.
///
/// Its memory is allocated when it is made. A put past its capacity fails, and the bytes that fit are taken.
#[derive(Drop)]
pub struct MemSink {
    taken: Vec<u8>,
    room: usize,
    failing: Vec<Partial>,
    calls: u64,
    faults: u64,
    ghost within: { length taken.items ≤ room },
    ghost reserved: { room ≤ vec_capacity taken },
}

impl MemSink {
    ghost use Rattle.hub_io.specs.MemSink.{TakesAll};

    /// A sink with a capacity in bytes, on which no put is made to fail.
    pub fn new(alloc: Global, room: usize) -> Result<MemSink, AllocError>
        ensures taken { IfOk result (λ s. ⟦<MemSink as Sink>⟧.taken s ≡ Some []) }
        ensures faults { IfOk result (λ s. ⟦<MemSink as Sink>⟧.faults s ≡ 0) }
        ensures room { IfOk result (λ s. TakesAll s room) }
    {
        MemSink::with_faults(alloc, room, Vec::new(alloc))
    }

    /// A sink with a capacity in bytes, on which these puts fail.
    pub fn with_faults(
        alloc: Global,
        room: usize,
        failing: Vec<Partial>,
    ) -> Result<MemSink, AllocError>
        ensures taken { IfOk result (λ s. ⟦<MemSink as Sink>⟧.taken s ≡ Some []) }
        ensures faults { IfOk result (λ s. ⟦<MemSink as Sink>⟧.faults s ≡ 0) }
        ensures room { All (λ p. p.call ≤ 0) failing.items → IfOk result (λ s. TakesAll s room) }
    {
        Ok(MemSink {
            taken: Vec::with_capacity(alloc, room)?,
            room,
            failing,
            calls: 0,
            faults: 0,
        })
    }

    /// The bytes taken so far.
    pub fn taken(&self) -> &[u8]
        ensures { ⟦<MemSink as Sink>⟧.taken self.now ≡ Some result.now }
    {
        &self.taken
    }

    /// How often the sink has failed.
    pub fn faults(&self) -> u64
        ensures { result ≡ ⟦<MemSink as Sink>⟧.faults self.now }
    {
        self.faults
    }

    // Counts a put, and answers how many bytes are taken of it where it is to fail. Past the last
    // number none is.
    fn failing_put(&mut self) -> Option<usize>
        ensures taken { self.new.taken ≡ self.old.taken }
        ensures same { (self.new.room ≡ self.old.room) × (self.new.failing ≡ self.old.failing) × (self.new.faults ≡ self.old.faults) }
        ensures next { self.new.calls ≡ min (self.old.calls + 1) (2 ^ 64 - 1) }
        ensures listed { self.old.calls < self.new.calls → result ≡ partial_at self.old.failing.items self.new.calls }
        ensures none { All (λ p. p.call ≤ self.old.calls) self.old.failing.items → result ≡ None × All (λ p. p.call ≤ self.new.calls) self.old.failing.items }
    {
        let call = self.calls.checked_add(1)?;
        self.calls = call;
        taken_at(&self.failing, call)
    }

    // Takes a prefix of the piece, as much as fits and at most `most` bytes. Returns its length.
    fn take_front(&mut self, piece: &[u8], most: usize) -> usize
        ensures count { result ≡ min (min (length piece.now) most) (self.old.room - length self.old.taken.items) }
        ensures taken { self.new.taken.items ≡ self.old.taken.items ++ take result piece.now }
        ensures same { (self.new.room ≡ self.old.room) × (self.new.calls ≡ self.old.calls) × (self.new.failing ≡ self.old.failing) × (self.new.faults ≡ self.old.faults) }
    {
        let room = self.room - self.taken.len();
        let count = piece.len().min(most).min(room);
        // It succeeds, since the room was taken when the sink was made.
        let _ = self.taken.extend_from_slice(&piece[..count]);
        count
    }

    // Counts a fault.
    fn fault(&mut self) -> Failed
        ensures taken { self.new.taken ≡ self.old.taken }
        ensures same { (self.new.room ≡ self.old.room) × (self.new.calls ≡ self.old.calls) × (self.new.failing ≡ self.old.failing) }
        ensures once { self.new.faults ≡ min (self.old.faults + 1) (2 ^ 64 - 1) }
        ensures later { self.old.faults ≤ self.new.faults }
    {
        self.faults = self.faults.saturating_add(1);
        Failed
    }
}

impl Sink for MemSink {
    ghost use Rattle.hub_io.specs.MemSink.{TakesAll};

    ghost taken = { λ s. Some s.taken.items };

    ghost faults = { λ s. s.faults };

    fn put(&mut self, piece: &[u8]) -> Result<(), Failed>
        ensures puts { Puts ⟦<MemSink as Sink>⟧.taken ⟦<MemSink as Sink>⟧.faults self.old self.new result piece.now }
        ensures succeeds { TakesAll self.old (length piece.now) → IsOk result }
        ensures room_left { (count : ℕ) → TakesAll self.old (length piece.now + count) → TakesAll self.new count }
    {
        let failing = self.failing_put();
        let count = self.take_front(piece, failing.unwrap_or(piece.len()));
        if failing.is_some() || count < piece.len() {
            return Err(self.fault());
        }
        Ok(())
    }
}

// How many bytes are taken of the put of that number, where it is to fail.
fn taken_at(failing: &[Partial], call: u64) -> Option<usize>
    ensures listed { result ≡ partial_at failing.now call }
    ensures none { (last : ℕ) → last < call → All (λ p. p.call ≤ last) failing.now → result ≡ None }
{
    failing
        .iter()
        .find(|partial| partial.call == call)
        .map(|partial| partial.taken)
}
