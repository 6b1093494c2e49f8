//! Cases of instances, duals, cuts, simplex, master, bounds and pool.
#![tactic(auto)]

mod cuts;
mod masters;
mod models;

use std::io;

fn main(rt: HostRuntime) -> io::Result<()> {
    let cases = io::read_to_string(rt.alloc(), rt.reader())?;
    let cases = cases.as_str();
    for part in cases.strip_prefix("== ").unwrap_or(cases).split("\n== ") {
        let (name, cases) = part.split_once('\n').unwrap_or((part, ""));
        println!(rt; "== {name}")?;
        tell(&rt, name, cases)?;
    }
    Ok(())
}

// Prints what the cases of a part give.
fn tell(rt: &HostRuntime, name: &str, cases: &str) -> io::Result<()> {
    match name {
        "models" => models::tell(rt, cases),
        "cuts" => cuts::tell(rt, cases),
        "masters" => masters::tell(rt, cases),
        _ => println!(rt; "no such part"),
    }
}
