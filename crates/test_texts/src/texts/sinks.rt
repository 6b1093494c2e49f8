//! Pieces put on a sink, and through a buffer.

use super::pieces::{piece, shown};
use hub_io::{Buffer, Failed, MemSink, Partial, Sink};
use std::alloc::{AllocError, Global};
use test_lines::Wrong;

/// The sink that the words say.
pub(crate) fn sink_of(alloc: Global, words: &[&str]) -> Result<MemSink, Wrong> {
    match words {
        [room] => Ok(MemSink::new(alloc, room.parse()?)?),
        [room, "fails", call, "after", taken] => {
            let failing = failing(alloc, call.parse()?, taken.parse()?)?;
            Ok(MemSink::with_faults(alloc, room.parse()?, failing)?)
        }
        _ => Err(Wrong::NoCase),
    }
}

fn failing(alloc: Global, call: u64, taken: usize) -> Result<Vec<Partial>, AllocError> {
    let mut failing = Vec::new(alloc);
    failing.push(Partial { call, taken })?;
    Ok(failing)
}

/// Tells whether a put was done, and what the sink has taken.
pub(crate) fn tell(
    told: &mut String,
    done: Result<(), Failed>,
    taken: &[u8],
) -> Result<(), AllocError> {
    let taken = shown(*told.allocator(), taken)?;
    match done {
        Ok(()) => write!(told, "ok {taken}, "),
        Err(Failed) => write!(told, "failed {taken}, "),
    }
}

/// Tells how often the sink failed.
pub(crate) fn tell_end(told: &mut String, sink: &MemSink) -> Result<(), AllocError> {
    write!(told, "faults {}", sink.faults())
}

/// Puts each piece, and tells what the sink has then.
pub(crate) fn puts(alloc: Global, sink: &[&str], text: &str) -> Result<String, Wrong> {
    let mut told = String::new(alloc);
    let mut sink = sink_of(alloc, sink)?;
    for word in text.split(' ') {
        let piece = piece(alloc, word)?;
        let done = sink.put(&piece);
        tell(&mut told, done, sink.taken())?;
    }
    tell_end(&mut told, &sink)?;
    Ok(told)
}

/// Puts each piece through one buffer and finishes it twice, and tells what the sink has after each, up to a failure.
pub(crate) fn puts_through_buffer(
    alloc: Global,
    sink: &[&str],
    text: &str,
) -> Result<String, Wrong> {
    let mut told = String::new(alloc);
    let mut sink = sink_of(alloc, sink)?;
    buffer_all(alloc, text, &mut sink, &mut told)?;
    tell_end(&mut told, &sink)?;
    Ok(told)
}

fn buffer_all(
    alloc: Global,
    text: &str,
    sink: &mut MemSink,
    told: &mut String,
) -> Result<(), Wrong> {
    let mut buffer = Buffer::new();
    for word in text.split(' ') {
        let piece = piece(alloc, word)?;
        let done = buffer.put(&piece, sink);
        tell(told, done, sink.taken())?;
        if done.is_err() {
            return Ok(());
        }
    }
    for _ in 0..2 {
        let done = buffer.finish(sink);
        tell(told, done, sink.taken())?;
        if done.is_err() {
            return Ok(());
        }
    }
    Ok(())
}
