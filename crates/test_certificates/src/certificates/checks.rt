//! Checks of texts.

use super::streams::ended;
use cert_checker::{Ending, Tested, read_tested};
use cert_format::Certificate;
use hub_model::Instance;
use std::alloc::Global;
use std::io;
use std::thread::Threads;

/// How the check of the text ends, and that of its pieces of 7 bytes.
pub fn check<R: Print + Threads + Sync>(
    rt: &R,
    alloc: Global,
    instance: &Instance,
    text: &str,
) -> io::Result<()> {
    let read = read_tested(rt, alloc, instance, Tested::Whole, text.as_bytes())?;
    tell(rt, "  whole", &ending_of(&read))?;
    let pieces: Vec<&[u8]> = text.as_bytes().chunks(7).collect(alloc)?;
    let ending = ended(alloc, instance, &pieces)?;
    tell(rt, "  in pieces", &ending)
}

// How a check ends that was read so.
fn ending_of(read: &Result<Certificate, Ending>) -> Ending {
    match read {
        Ok(certificate) => {
            let bound = certificate.bound();
            let cost = certificate.cost();
            if bound == cost {
                return Ending::Optimal { cost };
            }
            Ending::Bounds { bound, cost }
        }
        Err(ending) => *ending,
    }
}

/// Prints the ending behind a word.
pub fn tell(rt: &impl Print, of: &str, ending: &Ending) -> io::Result<()> {
    match costs(ending) {
        Some((word, bound, cost)) => println!(rt; "{of}: {word}, bound {bound}, cost {cost}"),
        None => {
            let (word, line) = place(ending);
            println!(rt; "{of}: {word} in line {line}")
        }
    }
}

// The bound and the cost that are shown.
fn costs(ending: &Ending) -> Option<(&'static str, u128, u128)> {
    match ending {
        Ending::Optimal { cost } => Some(("optimal", *cost, *cost)),
        Ending::Bounds { bound, cost } => Some(("bounds", *bound, *cost)),
        _ => None,
    }
}

/// What is found, and in which line.
pub fn place(ending: &Ending) -> (&'static str, u64) {
    match ending {
        Ending::No { kind, line } => (kind.name(), *line),
        Ending::BadLine { line } => ("bad", *line),
        Ending::Ended { line } => ("ended", *line),
        _ => ("too long", 0),
    }
}
