//! Faults beside a run, and the test that each is reported.

use crate::folder::Folder;
use crate::runs::{Faults, Ran, run_over};
use hub_io::{OpenGate, Partial};
use hub_top::Status;
use std::alloc::{AllocError, Global};
use std::thread::Threads;
use thiserror::Error;

/// Why the end of a run is wrong, or could not be observed.
#[derive(Debug, Drop, Error)]
pub enum Wrong {
    #[error("reads of at most {0} bytes change what the run ends with")]
    Short(usize),
    #[error("the failing call {0} of the shelf is not told")]
    Untold(u64),
    #[error("a failing put is not told, or more was put after it")]
    Put,
    #[error("the words or the files of the case were not read")]
    Unread,
    #[error("out of memory")]
    OutOfMemory,
}

impl From<AllocError> for Wrong {
    fn from(_error: AllocError) -> Wrong {
        Wrong::OutOfMemory
    }
}

// More calls of the shelf than any case makes.
const CALLS: u64 = 40;

// More puts on a stream than any case makes.
const PUTS: u64 = 40;

// More reads than there are ends of files in a run.
const ENDS: usize = 16;

// Where a text has at most so many bytes, a failing put takes each number of bytes in turn.
const SHORT: usize = 700;

// Else it takes these.
const SOME_TAKEN: [usize; 4] = [0, 1, 3, 8191];

/// What the run ends with, once all that may fail beside it was seen.
pub(crate) fn see<R: Threads + Sync>(
    rt: &R,
    alloc: Global,
    words: &[String],
    folder: &Folder,
) -> Result<Ran, Wrong> {
    let ran = run_over(rt, alloc, words, folder, Faults::none(alloc), &OpenGate)?;
    see_short_reads(rt, alloc, words, folder, &ran)?;
    if ran.status != Status::Read {
        see_failing_reads(rt, alloc, words, folder, &ran)?;
    }
    see_failing_puts(rt, alloc, words, folder, &ran)?;
    Ok(ran)
}

fn see_short_reads<R: Threads + Sync>(
    rt: &R,
    alloc: Global,
    words: &[String],
    folder: &Folder,
    wanted: &Ran,
) -> Result<(), Wrong> {
    for length in [1, 2, 7] {
        let mut faults = Faults::none(alloc);
        let reads = folder.bytes().saturating_add(ENDS);
        faults.lengths = vec![in alloc; length; reads]?;
        if run_over(rt, alloc, words, folder, faults, &OpenGate)? != *wanted {
            return Err(Wrong::Short(length));
        }
    }
    Ok(())
}

fn see_failing_reads<R: Threads + Sync>(
    rt: &R,
    alloc: Global,
    words: &[String],
    folder: &Folder,
    wanted: &Ran,
) -> Result<(), Wrong> {
    for call in 1..CALLS {
        let mut faults = Faults::none(alloc);
        // A call behind the failing one would fail too, and be counted.
        faults.reads = [call, call + 1].to_vec(alloc)?;
        let ran = run_over(rt, alloc, words, folder, faults, &OpenGate)?;
        if ran == *wanted {
            return Ok(());
        }
        if !ran.tells_read() {
            return Err(Wrong::Untold(call));
        }
    }
    Err(Wrong::Untold(CALLS))
}

fn see_failing_puts<R: Threads + Sync>(
    rt: &R,
    alloc: Global,
    words: &[String],
    folder: &Folder,
    wanted: &Ran,
) -> Result<(), Wrong> {
    see_puts(rt, alloc, words, folder, wanted, Stream::Out)?;
    see_puts(rt, alloc, words, folder, wanted, Stream::Err)
}

/// One of a run's two streams.
#[derive(Clone, Copy, PartialEq, Eq)]
enum Stream {
    Out,
    Err,
}

impl Stream {
    fn text<'a>(&self, ran: &'a Ran) -> &'a [u8] {
        match self {
            Stream::Out => &ran.out,
            Stream::Err => &ran.err,
        }
    }
}

// Each put on the stream fails in turn, until one is not made any more.
fn see_puts<R: Threads + Sync>(
    rt: &R,
    alloc: Global,
    words: &[String],
    folder: &Folder,
    wanted: &Ran,
    stream: Stream,
) -> Result<(), Wrong> {
    for call in 1..PUTS {
        if !see_put(rt, alloc, words, folder, wanted, stream, call)? {
            return Ok(());
        }
    }
    Err(Wrong::Put)
}

// The put of this number fails, each time with more of its bytes taken. Tells whether it is made at all.
fn see_put<R: Threads + Sync>(
    rt: &R,
    alloc: Global,
    words: &[String],
    folder: &Folder,
    wanted: &Ran,
    stream: Stream,
    call: u64,
) -> Result<bool, Wrong> {
    for taken in takings(alloc, stream.text(wanted).len())? {
        let faults = failing_put(alloc, stream, call, taken)?;
        let ran = run_over(rt, alloc, words, folder, faults, &OpenGate)?;
        if ran == *wanted {
            return Ok(false);
        }
        if !tells_write(&ran, stream, wanted) {
            return Err(Wrong::Put);
        }
    }
    Ok(true)
}

// Whether one put failed, and the stream took a prefix of its text.
fn tells_write(ran: &Ran, stream: Stream, wanted: &Ran) -> bool {
    ran.status == Status::Write
        && ran.failed_puts == 1
        && stream.text(wanted).starts_with(stream.text(ran))
}

// How many bytes a failing put takes, one after the other, where the whole text has so many.
fn takings(alloc: Global, bytes: usize) -> Result<Vec<usize>, AllocError> {
    if bytes > SHORT {
        return SOME_TAKEN.to_vec(alloc);
    }
    let mut takings = Vec::new(alloc);
    for taken in 0..bytes + 1 {
        takings.push(taken)?;
    }
    Ok(takings)
}

// The put of this number fails with so many bytes taken, and so does the next one.
fn failing_put(
    alloc: Global,
    stream: Stream,
    call: u64,
    taken: usize,
) -> Result<Faults, AllocError> {
    let next = Partial {
        call: call.saturating_add(1),
        taken: 1,
    };
    let puts = [Partial { call, taken }, next].to_vec(alloc)?;
    let mut faults = Faults::none(alloc);
    match stream {
        Stream::Out => faults.puts_on_out = puts,
        Stream::Err => faults.puts_on_err = puts,
    }
    Ok(faults)
}
