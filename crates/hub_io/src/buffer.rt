//! Many small puts joined into few large ones.
ghost use Rattle.std.specs.Prelude.{◌≡◌, ◌+◌, ◌<◌, ◌≤◌, [], ◌++◌, length, OnOk};
ghost use Rattle.hub_io.specs.Outside.{PutsThrough};

use crate::{Failed, Sink};
use std::marker::Model;

// How many bytes wait at most.
const SIZE: usize = 8192;

/// A write buffer of 8192 bytes before a sink, seen as the list of the bytes that wait. It allocates nothing.
///
/// After a failed call nothing is known of what waits.
#[derive(Drop)]
pub struct Buffer {
    bytes: [u8; SIZE],
    count: usize,
}

impl Model for Buffer {
    ghost use Rattle.std.specs.Prelude.{◌≤◌, ℕ, List, take};
    ghost use Rattle.hub_io.specs.declared.buffer.TheConstants.{SIZE};

    ghost Value = { List ℕ };

    ghost view = { λ b. take b.count b.bytes };

    ghost invariant = { λ b. b.count ≤ SIZE };
}

impl Buffer {
    /// An empty buffer.
    pub fn new() -> Buffer
        ensures { result ≡ [] }
    {
        Buffer {
            bytes: [0; SIZE],
            count: 0,
        }
    }

    /// Appends a piece. Where it does not fit, one put empties the buffer first. A piece longer than the buffer goes to
    /// the sink by a put of its own.
    pub fn put<K: Sink>(&mut self, piece: &[u8], sink: &mut K) -> Result<(), Failed>
        ensures { PutsThrough K.taken K.faults sink.old sink.new self.old self.new result piece.now }
    {
        self.make_room(piece.len(), sink)?;
        if piece.len() > SIZE {
            return sink.put(piece);
        }
        self.keep(piece);
        Ok(())
    }

    /// Flushes the buffer to the sink, by one put where anything waits.
    pub fn finish<K: Sink>(&mut self, sink: &mut K) -> Result<(), Failed>
        ensures through { PutsThrough K.taken K.faults sink.old sink.new self.old self.new result [] }
        ensures none_waits { OnOk result (self.new ≡ []) }
    {
        if self.count == 0 {
            return Ok(());
        }
        let done = sink.put(&self.bytes[..self.count]);
        self.count = 0;
        done
    }

    // Where a piece of that many bytes doesn't fit behind what waits, puts what waits.
    fn make_room<K: Sink>(&mut self, count: usize, sink: &mut K) -> Result<(), Failed>
        ensures through { PutsThrough K.taken K.faults sink.old sink.new self.old self.new result [] }
        ensures fits { OnOk result (count ≤ SIZE → length self.new + count ≤ SIZE) }
        ensures too_long { OnOk result (SIZE < count → self.new ≡ []) }
    {
        if count <= SIZE - self.count {
            return Ok(());
        }
        self.finish(sink)
    }

    // Lets a piece wait behind what waits.
    fn keep(&mut self, piece: &[u8])
        requires { length self.old + length piece.now ≤ SIZE }
        ensures { self.new ≡ self.old ++ piece.now }
    {
        let end = self.count + piece.len();
        self.bytes[self.count..end].copy_from_slice(piece);
        self.count = end;
    }
}
