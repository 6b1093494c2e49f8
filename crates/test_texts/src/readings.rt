//! Cases of instance files, made-up instances and command lines. Each case is a line of standard input, printed back
//! with its result.
//!
//! A line is a call with its arguments, and, where the call takes a text, a colon and the text:
//!
//! - `reader READ READ..: FILE`, of `token_reader`: consecutive reads, each `size`, `quantity/PLACES/LIMIT`,
//!   `quantities/COUNT/PLACES/LIMIT`, `index/NODES`, `coordinate`, `ended` or `end`;
//! - `matrix ORDER DIVIDE: FILE`, `rows ORDER DIVIDE: FILE` and `costs NODES: FILE`, of `instance_cab`. The call
//!   `equal-matrix NODES FLOW DISTANCE` reads a file of that size in which all flows are equal, and all distances;
//! - `ap TAIL DIVIDE: FILE`, of `instance_ap`;
//! - `distance DX DY DIVIDE` and `root VALUE`, of `fixed_distance`;
//! - `made-text SEED NODES`, of `hub_make`: the text, or of a long one its length, its checksum Adler-32 and its ends;
//! - `made-instance SEED NODES`, of `hub_make`, and `demo-lines ROOM NODES COST BOUND HUBS SEARCHED`, its lines, put on
//!   a sink with a capacity of ROOM bytes;
//! - `words: WORD WORD..`, of `hub_words`: the command that the arguments are.
//!
//! In files `%` and two hexadecimal digits spell a byte. A line that begins with `#` is printed as it is.

mod demos;
mod distances;
mod files;
mod made;
mod readers;
mod words;

use std::alloc::Global;
use std::io;
use test_lines::{Wrong, call_and_text, told};

/// Prints each line with what its call gave.
pub(crate) fn tell(rt: &HostRuntime, cases: &str) -> io::Result<()> {
    for line in cases.lines() {
        let answer = answer(rt.alloc(), line);
        let told = told(rt.alloc(), line, answer)?;
        rt.print(told)?;
    }
    Ok(())
}

fn answer(alloc: Global, line: &str) -> Result<String, Wrong> {
    let (call, text) = call_and_text(line);
    let words: Vec<&str> = call.split(' ').collect(alloc)?;
    match words.as_slice() {
        ["reader", reads @ ..] => readers::told(alloc, reads, text),
        ["matrix", order, divide] => files::matrix(alloc, order, divide, text),
        ["rows", order, divide] => files::rows(alloc, order, divide, text),
        ["ap", tail, divide] => files::ap(alloc, tail, divide, text),
        ["costs", nodes] => files::costs(alloc, nodes, text),
        ["equal-matrix", nodes, flow, distance] => {
            files::equal_matrix(alloc, nodes, flow, distance)
        }
        ["distance", dx, dy, divide] => distances::distance_told(alloc, dx, dy, divide),
        ["root", value] => distances::root_told(alloc, value),
        ["made-text", seed, nodes] => made::text(alloc, seed, nodes),
        ["made-instance", seed, nodes] => demos::instance(alloc, seed, nodes),
        ["demo-lines", numbers @ ..] => demos::lines(alloc, numbers),
        ["words"] => words::told(alloc, text),
        _ => Err(Wrong::NoCase),
    }
}
