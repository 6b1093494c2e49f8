//! Cases of certificates: single lines and whole texts, scanned, read, checked and reported.
#![tactic(auto)]

mod certificates;
mod lines;

use std::alloc::Global;
use std::io;
use std::thread::Threads;

fn main(rt: HostRuntime) -> io::Result<()> {
    let cases = io::read_to_string(rt.alloc(), rt.reader())?;
    let cases = cases.as_str();
    for part in cases.strip_prefix("== ").unwrap_or(cases).split("\n== ") {
        let (name, cases) = part.split_once('\n').unwrap_or((part, ""));
        println!(rt; "== {name}")?;
        tell(&rt, rt.alloc(), name, cases)?;
    }
    Ok(())
}

// Prints what the cases of a part give.
fn tell<R: Print + Threads + Sync>(
    rt: &R,
    alloc: Global,
    name: &str,
    cases: &str,
) -> io::Result<()> {
    match name {
        "lines" => lines::tell(rt, alloc, cases),
        "certificates" => certificates::tell(rt, alloc, cases),
        _ => println!(rt; "no such part"),
    }
}
