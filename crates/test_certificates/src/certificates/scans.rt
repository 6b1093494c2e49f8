//! Texts scanned.

use cert_scan::{Fault, Item, Scan};
use std::io;

/// The items of the text, a line each, and the fault at its end.
pub fn items(rt: &impl Print, text: &str) -> io::Result<()> {
    let mut scan = Scan::new();
    for byte in text.as_bytes() {
        if let Some(item) = scan.step(*byte) {
            println!(rt; "  {item:?}")?;
        }
    }
    tell(rt, scan.finish())
}

/// Prints the fault.
pub fn tell(rt: &impl Print, fault: Option<Fault>) -> io::Result<()> {
    let (word, line) = word_of(fault);
    println!(rt; "  scanned: {word} in line {line}")
}

fn word_of(fault: Option<Fault>) -> (&'static str, u64) {
    match fault {
        Some(Fault::BadLine { line }) => ("bad", line),
        Some(Fault::Ended { line }) => ("ended", line),
        None => ("no fault", 0),
    }
}

/// The fault at the end of the text.
pub fn fault(text: &str) -> Option<Fault> {
    let mut scan = Scan::new();
    let mut rest = text.as_bytes();
    for _ in 0..=text.len() {
        let (taken, item) = scan.run(rest);
        if item.is_none() {
            break;
        }
        rest = &rest[taken..];
    }
    scan.finish()
}
