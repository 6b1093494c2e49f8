//! A shelf in memory, which fails at chosen calls.
ghost use Rattle.std.specs.Prelude.{◌≡◌, ◌+◌, ◌-◌, ◌^◌, ◌<◌, ◌≤◌, ◌↔◌, ◌++◌, min, Contains, IsTrue, ℕ, Option, None, Some, [], length, take, drop, All, slice_get, string_bytes, false, IfOk, IfSome};
ghost use Rattle.hub_io.specs.MemShelf.{Finds, held_bytes, left_bytes, most_given, ReadsOn};

use crate::{Failed, Shelf};
use std::alloc::{AllocError, Global};

/// A file in memory.
#[derive(Drop)]
pub struct MemFile {
    /// The name by which `begin` finds it.
    pub name: String,
    /// What is read, from the first byte on.
    pub bytes: Vec<u8>,
}

impl MemFile {
    /// A file of this name with these bytes.
    pub fn new(alloc: Global, name: &str, bytes: &[u8]) -> Result<MemFile, AllocError>
        ensures { IfOk result (λ f. (string_bytes f.name ≡ name.now) × (f.bytes.items ≡ bytes.now)) }
    {
        Ok(MemFile {
            name: name.to_string(alloc)?,
            bytes: bytes.to_vec(alloc)?,
        })
    }
}

// A byte of a file, both by their numbers, counted from 0.
#[derive(Clone, Copy)]
struct ShelfPlace {
    file: usize,
    byte: usize,
}

/// Files in memory, for tests. Of two files with one name the first is read. Contracts know all that it holds, and no
/// names that were begun.
///
/// Calls of `begin` and `read` are counted together from 1, and the calls in a list fail without effect. Besides them,
/// `begin` fails for a name that is not held, and `read` before any `begin`. Reads that give bytes are counted from 1
/// too, and a list bounds their lengths, one after another.
#[derive(Drop)]
pub struct MemShelf {
    files: Vec<MemFile>,
    failing: Vec<u64>,
    lengths: Vec<usize>,
    begun: Option<ShelfPlace>,
    calls: u64,
    gave: usize,
    faults: u64,
}

impl MemShelf {
    /// A shelf on which no call is made to fail.
    pub fn new(alloc: Global, files: Vec<MemFile>) -> MemShelf
        ensures held { ⟦<MemShelf as Shelf>⟧.held result ≡ Some (held_bytes files.items) }
        ensures unbegun { ⟦<MemShelf as Shelf>⟧.left result ≡ None }
        ensures faults { ⟦<MemShelf as Shelf>⟧.faults result ≡ 0 }
        ensures sound { ⟦<MemShelf as Shelf>⟧.sound result }
    {
        MemShelf::with_faults(files, Vec::new(alloc))
    }

    /// A shelf on which the calls of these numbers fail.
    pub fn with_faults(files: Vec<MemFile>, failing: Vec<u64>) -> MemShelf
        ensures held { ⟦<MemShelf as Shelf>⟧.held result ≡ Some (held_bytes files.items) }
        ensures unbegun { ⟦<MemShelf as Shelf>⟧.left result ≡ None }
        ensures faults { ⟦<MemShelf as Shelf>⟧.faults result ≡ 0 }
        ensures sound { All (λ n. n ≤ 0) failing.items → ⟦<MemShelf as Shelf>⟧.sound result }
    {
        let lengths = Vec::new(*files.allocator());
        MemShelf::with_short_reads(files, failing, lengths)
    }

    /// A shelf on which the calls of these numbers fail, and which gives short reads. The first reads that give bytes
    /// give at most these lengths, one after another, and at least one byte.
    pub fn with_short_reads(files: Vec<MemFile>, failing: Vec<u64>, lengths: Vec<usize>) -> MemShelf
        ensures held { ⟦<MemShelf as Shelf>⟧.held result ≡ Some (held_bytes files.items) }
        ensures unbegun { ⟦<MemShelf as Shelf>⟧.left result ≡ None }
        ensures faults { ⟦<MemShelf as Shelf>⟧.faults result ≡ 0 }
        ensures sound { All (λ n. n ≤ 0) failing.items → ⟦<MemShelf as Shelf>⟧.sound result }
    {
        MemShelf {
            files,
            failing,
            lengths,
            begun: None,
            calls: 0,
            gave: 0,
            faults: 0,
        }
    }

    /// How often the shelf has failed.
    pub fn faults(&self) -> u64
        ensures { result ≡ ⟦<MemShelf as Shelf>⟧.faults self.now }
    {
        self.faults
    }

    // Counts a call, and answers whether it is to fail. Past the last number none is.
    fn call_fails(&mut self) -> bool
        ensures counted { self.new ≡ record self.old { calls = self.new.calls } }
        ensures later { self.old.calls ≤ self.new.calls }
        ensures next { self.new.calls ≡ min (self.old.calls + 1) (2 ^ 64 - 1) }
        ensures listed { self.old.calls < self.new.calls → IsTrue result ↔ Contains self.old.failing.items self.new.calls }
        ensures sound { All (λ n. n ≤ self.old.calls) self.old.failing.items → result ≡ false }
    {
        match self.calls.checked_add(1) {
            None => false,
            Some(call) => {
                self.calls = call;
                self.failing.contains(&call)
            }
        }
    }

    // How many bytes the next read gives at most, where it asks for so many.
    fn most(&self, asked: usize) -> usize
        ensures within { result ≤ asked }
        ensures some { 0 < asked → 0 < result }
        ensures listed { result ≡ most_given (slice_get self.now.lengths.items self.now.gave) asked }
    {
        match self.lengths.get(self.gave) {
            Some(length) => (*length).max(1).min(asked),
            None => asked,
        }
    }

    // Counts a fault.
    fn fault(&mut self) -> Failed
        ensures counted { self.new ≡ record self.old { faults = self.new.faults } }
        ensures once { self.new.faults ≡ min (self.old.faults + 1) (2 ^ 64 - 1) }
        ensures later { self.old.faults ≤ self.new.faults }
    {
        self.faults = self.faults.saturating_add(1);
        Failed
    }
}

impl Shelf for MemShelf {
    ghost held = { λ s. Some (held_bytes s.files.items) };

    ghost left = { λ s. left_bytes s.files.items s.begun };

    ghost names = { λ _. None };

    ghost faults = { λ s. s.faults };

    ghost sound = { λ s. All (λ n. n ≤ s.calls) s.failing.items };

    fn begin(&mut self, name: &str) -> Result<(), Failed> {
        if self.call_fails() {
            return Err(self.fault());
        }
        let Some(file) = file_named(&self.files, name) else {
            return Err(self.fault());
        };
        self.begun = Some(ShelfPlace { file, byte: 0 });
        Ok(())
    }

    fn read(&mut self, into: &mut [u8]) -> Result<usize, Failed> {
        if self.call_fails() {
            return Err(self.fault());
        }
        let most = self.most(into.len());
        let Some((place, count)) = read_on(&self.files, self.begun, &mut into[..most]) else {
            return Err(self.fault());
        };
        self.begun = Some(place);
        if count > 0 {
            self.gave = self.gave.saturating_add(1);
        }
        Ok(count)
    }
}

// The number of the first file of that name, which is read from its first byte on.
fn file_named(files: &[MemFile], name: &str) -> Option<usize>
    ensures { Finds files.now name.now result }
{
    files.iter().position(|file| file.name.as_str() == name)
}

// Reads on from a place, and answers the place behind and how much was read: none where nothing was
// begun.
fn read_on(
    files: &[MemFile],
    begun: Option<ShelfPlace>,
    into: &mut [u8],
) -> Option<(ShelfPlace, usize)>
    ensures bound { IfSome result (λ r. r.1 ≤ length into.new) }
    ensures bytes { ReadsOn (left_bytes files.now begun) (λ p. left_bytes files.now (Some p)) result into.new }
{
    let place = begun?;
    let file = files.get(place.file)?;
    let (byte, count) = copy_from(&file.bytes, place.byte, into);
    let behind = ShelfPlace {
        file: place.file,
        byte,
    };
    Some((behind, count))
}

// Copies the bytes from a position on, as many as fit. Returns the position behind them and their number.
fn copy_from(bytes: &[u8], byte: usize, into: &mut [u8]) -> (usize, usize)
    ensures bound { result.1 ≤ length into.new }
    ensures bytes { drop byte bytes.now ≡ take result.1 into.new ++ drop result.0 bytes.now }
    ensures end { result.1 ≡ 0 → 0 < length into.new → drop result.0 bytes.now ≡ [] }
{
    let start = byte.min(bytes.len());
    let count = into.len().min(bytes.len() - start);
    into[..count].copy_from_slice(&bytes[start..start + count]);
    (start + count, count)
}
