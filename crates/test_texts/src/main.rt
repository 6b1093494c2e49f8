//! Cases of numbers, files, made instances, arguments and streams.
#![tactic(auto)]

mod machines;
mod readings;
mod texts;

use std::io;

fn main(rt: HostRuntime) -> io::Result<()> {
    let cases = io::read_to_string(rt.alloc(), rt.reader())?;
    let cases = cases.as_str();
    for part in cases.strip_prefix("== ").unwrap_or(cases).split("\n== ") {
        let (name, cases) = part.split_once('\n').unwrap_or((part, ""));
        println!(rt; "== {name}")?;
        tell(&rt, name, cases)?;
    }
    Ok(())
}

// Prints what the cases of a part give.
fn tell(rt: &HostRuntime, name: &str, cases: &str) -> io::Result<()> {
    match name {
        "texts" => texts::tell(rt, cases),
        "readings" => readings::tell(rt, cases),
        "machines" => machines::tell(rt),
        _ => println!(rt; "no such part"),
    }
}
