//! Cases of texts, and of files and streams in memory. Each case is a line of standard input, printed back with its
//! result.
//!
//! A line is a call with its arguments, a colon, and a text. Calls of `dec_text`:
//!
//! - `decimal PLACES: TOKEN`, the result of `read_decimal`, and `count LEAST MOST: TEXT`, that of `read_count`;
//! - `tokens: BYTES`, the `Tokens` of a file with their positions;
//! - `number: VALUE` and `fixed PLACES: VALUE`, the output of `put_number` and `put_fixed`;
//! - `lines SINK: LINE|LINE..`, each line by `put_line`, and the contents of the sink after it.
//!   `pieces SINK: LINE|LINE..` uses `put_pieces` through one buffer. A line has words, each a text, or `number=N`,
//!   `count=N` or `fixed=N`, the last in 10^-6.
//!
//! Calls of `hub_io`:
//!
//! - `sink SINK: PIECE PIECE..`, each put on a `MemSink`, and the contents of the sink after it.
//!   `buffer SINK: PIECE PIECE..` puts them through a `Buffer`, which is finished twice, but not used after a failure;
//! - `shelf: FILE.. CALL..`, `shelf fails CALLS: ..` and `shelf fails CALLS lengths LENGTHS: ..`, consecutive calls on
//!   a `MemShelf`: `begin:NAME`, `read:COUNT`, `whole:NAME:LIMIT` and `faults`. A file is `NAME=PIECE`;
//! - `reads LIMIT LENGTHS: PIECE`, a file that `read_whole` reads, once for each call of the shelf, with that call
//!   failing;
//! - `gate: WORKER BLOCK`, a worker that passes the `OpenGate`.
//!
//! A `SINK` is its capacity in bytes, or `ROOM fails CALL after TAKEN`, where the put of that number fails once so many
//! bytes are taken. A `PIECE` is a text or `TEXT*COUNT`. In texts `%` and two hexadecimal digits spell a byte. Lists
//! have commas. Calls count from 1, so a list 0 names none. A line that begins with `#` is printed as it is.

mod pieces;
mod reading;
mod shelves;
mod sinks;
mod writing;

use std::alloc::Global;
use std::io;
use test_lines::{Wrong, call_and_text, told};

/// Prints each line with what its call gave.
pub(crate) fn tell(rt: &HostRuntime, cases: &str) -> io::Result<()> {
    for line in cases.lines() {
        let answer = answer(rt.alloc(), line);
        let told = told(rt.alloc(), line, answer)?;
        rt.print(told)?;
    }
    Ok(())
}

fn answer(alloc: Global, line: &str) -> Result<String, Wrong> {
    let (call, text) = call_and_text(line);
    let words: Vec<&str> = call.split(' ').collect(alloc)?;
    match words.as_slice() {
        ["decimal", places] => reading::decimal(alloc, places, text),
        ["count", least, most] => reading::count(alloc, least, most, text),
        ["tokens"] => reading::tokens(alloc, text),
        ["number"] => writing::number(alloc, text),
        ["fixed", places] => writing::fixed(alloc, places, text),
        ["lines", sink @ ..] => writing::lines(alloc, sink, text),
        ["pieces", sink @ ..] => writing::lines_through_buffer(alloc, sink, text),
        ["sink", sink @ ..] => sinks::puts(alloc, sink, text),
        ["buffer", sink @ ..] => sinks::puts_through_buffer(alloc, sink, text),
        ["shelf", faults @ ..] => shelves::calls(alloc, faults, text),
        ["reads", limit, lengths] => shelves::reads(alloc, limit, lengths, text),
        ["gate"] => shelves::passes(alloc, text),
        _ => Err(Wrong::NoCase),
    }
}
