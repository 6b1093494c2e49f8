//! A run over memory.

use crate::folder::Folder;
use hub_io::{Gate, MemShelf, MemSink, Partial};
use hub_top::{Status, run};
use std::alloc::{AllocError, Global};
use std::thread::Threads;

// More bytes than any case puts on a stream whose calls fail in turn, and than any other does.
const ROOM: usize = 100_000;

const MUCH_ROOM: usize = 10_000_000;

/// The end of a run: its status, the output of its two streams, and the number of failed calls of the shelf and failed
/// puts.
#[derive(Drop, PartialEq, Eq)]
pub struct Ran {
    pub status: Status,
    pub out: Vec<u8>,
    pub err: Vec<u8>,
    pub failed_reads: u64,
    pub failed_puts: u64,
}

impl Ran {
    /// The number of the status, and what the streams took.
    pub(crate) fn told(&self, alloc: Global) -> Result<String, AllocError> {
        let status = self.status.number();
        let out = String::from_utf8_lossy(alloc, &self.out)?;
        let err = String::from_utf8_lossy(alloc, &self.err)?;
        format!(in alloc; "status {status}\n{out}{err}")
    }

    /// The number of the status, and what a long text says of its size, cost, bound, cuts and nodes.
    pub(crate) fn numbers_told(&self, alloc: Global) -> Result<String, AllocError> {
        let mut told = format!(in alloc; "status {}\n", self.status.number())?;
        let out = String::from_utf8_lossy(alloc, &self.out)?;
        for line in out.lines() {
            if NUMBERS.contains(&line.split(' ').next().unwrap_or("")) {
                told.push_str(line)?;
                told.push_str("\n")?;
            }
        }
        told.push_str(String::from_utf8_lossy(alloc, &self.err)?.as_str())?;
        Ok(told)
    }

    /// Whether one call of the shelf failed, and the run reports that alone.
    pub(crate) fn tells_read(&self) -> bool {
        self.status == Status::Read
            && self.failed_reads == 1
            && self.out.is_empty()
            && self.err.as_slice() == b"hub: read failed\n".as_slice()
    }
}

// The first words of the lines whose number is printed of a long text.
const NUMBERS: [&str; 5] = ["size", "cost", "bound", "cuts", "nodes"];

/// The faults beside a run: which calls of the shelf fail, how few bytes its reads give, which puts fail, and whether
/// its text may be long.
#[derive(Drop)]
pub struct Faults {
    pub reads: Vec<u64>,
    pub lengths: Vec<usize>,
    pub puts_on_out: Vec<Partial>,
    pub puts_on_err: Vec<Partial>,
    pub much_room: bool,
}

impl Faults {
    /// Nothing.
    pub(crate) fn none(alloc: Global) -> Faults {
        Faults {
            reads: Vec::new(alloc),
            lengths: Vec::new(alloc),
            puts_on_out: Vec::new(alloc),
            puts_on_err: Vec::new(alloc),
            much_room: false,
        }
    }
}

/// Runs the words, of which the first is the program's name, over the files, with these faults.
pub(crate) fn run_over<R: Threads + Sync, G: Gate>(
    rt: &R,
    alloc: Global,
    words: &[String],
    folder: &Folder,
    faults: Faults,
    gate: &G,
) -> Result<Ran, AllocError> {
    let files = folder.copied(alloc)?;
    let mut shelf = MemShelf::with_short_reads(files, faults.reads, faults.lengths);
    let room = if faults.much_room { MUCH_ROOM } else { ROOM };
    let mut out = MemSink::with_faults(alloc, room, faults.puts_on_out)?;
    let mut err = MemSink::with_faults(alloc, ROOM, faults.puts_on_err)?;
    let status = run(rt, alloc, words, &mut shelf, &mut out, &mut err, gate);
    Ok(Ran {
        status,
        out: out.taken().to_vec(alloc)?,
        err: err.taken().to_vec(alloc)?,
        failed_reads: shelf.faults(),
        failed_puts: out.faults().saturating_add(err.faults()),
    })
}

/// The words of a line, behind the name of the program.
pub(crate) fn words_of(alloc: Global, line: &str) -> Result<Vec<String>, AllocError> {
    let mut words = Vec::new(alloc);
    words.push(String::from_str(alloc, "hub")?)?;
    for word in line.split_whitespace() {
        words.push(String::from_str(alloc, word)?)?;
    }
    Ok(words)
}
