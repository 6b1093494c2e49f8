//! A sink that takes a text into memory.

ghost use Rattle.std.specs.Prelude.{◌≡◌, [], Some};

use hub_io::{Failed, Sink};
use std::alloc::Global;

/// A text that grows by what is put. A put for which memory is wanting fails and is counted.
#[derive(Drop)]
pub(crate) struct MemoryText {
    pub(crate) bytes: Vec<u8>,
    faults: u64,
}

impl MemoryText {
    /// An empty text. It takes no memory.
    pub(crate) fn new(alloc: Global) -> MemoryText
        ensures { ⟦<MemoryText as Sink>⟧.taken result ≡ Some [] }
    {
        MemoryText {
            bytes: Vec::new(alloc),
            faults: 0,
        }
    }
}

impl Sink for MemoryText {
    ghost taken = { λ s. Some s.bytes.items };

    ghost faults = { λ s. s.faults };

    fn put(&mut self, piece: &[u8]) -> Result<(), Failed> {
        if self.bytes.extend_from_slice(piece).is_err() {
            self.faults = self.faults.saturating_add(1);
            return Err(Failed);
        }
        Ok(())
    }
}
