//! Cases of `hub_edges`, `unit_duals`, `leg_duals`, `assign_sub`, `dual_cuts`, `pareto_cuts`, `core_cuts` and
//! `value_cuts`. Each case is a line of standard input, printed with its result after it. Comments are printed as they
//! are.
//!
//! The line `instance` of a paragraph makes the instance for its lines. Numbers follow the names `size`, `candidates`,
//! `flows` (10^-6) and `distances` (10^-3). Optional are `fixed` (10^-6), `collect`, `trunk`, `deliver` and `longest`
//! (10^-3).
//!
//! - For an instance: `row from I to J`, and `set_legs` and `first_legs` (of three nodes). With a `row` of values in a
//!   `unit`, and optionally an `offset`: `value_sums`, `value_prices` and `value_dual from I to J`.
//! - For some hubs, `hubs H ..`: `lacking`, `assign`, `order` (by a `point`), `cut` and `core_cut`. With `from I to J`:
//!   the Pareto-optimal dual (`core_dual`), and the minimal dual by its row (`row_dual`), with all commodities of its
//!   origin (`strong_dual`), and by the parts that compute an origin (`separation`).
//! - Without an instance: `unit_duals`, of legs from stop to stop (`trunk`), to the destinations (`last`) and from an
//!   origin (`first`).

mod cores;
mod cuts;
mod edges;
mod legs;
mod origins;
mod sets;
mod texts;
mod units;
mod values;

use hub_model::Instance;
use std::alloc::{AllocError, Global};
use std::io;
use test_lines::{first, instance_line, named_instance};

/// Prints each line with its answer. Each paragraph has lines that ask of its first instance.
pub(crate) fn tell(rt: &HostRuntime, cases: &str) -> io::Result<()> {
    for paragraph in cases.split("\n\n") {
        tell_lines(rt, paragraph, instance_line(paragraph))?;
    }
    Ok(())
}

fn tell_lines(rt: &HostRuntime, paragraph: &str, instance: &str) -> io::Result<()> {
    for line in paragraph.lines() {
        print(rt, instance, line)?;
    }
    Ok(())
}

// Prints the line, with its answer where it asks.
fn print(rt: &HostRuntime, instance: &str, line: &str) -> io::Result<()> {
    if line.starts_with("#") || line.starts_with("instance") {
        return println!(rt; "{line}");
    }
    let answer = answer(rt.alloc(), instance, line)?;
    println!(rt; "{line}: {answer}")
}

fn answer(alloc: Global, instance: &str, line: &str) -> Result<String, AllocError> {
    match first(line) {
        "unit_duals" => units::duals(alloc, line),
        _ => asked(alloc, instance, line),
    }
}

// The answer to the line, for this instance.
fn asked(alloc: Global, instance: &str, line: &str) -> Result<String, AllocError> {
    match named_instance(alloc, instance) {
        Ok(instance) => of_instance(alloc, &instance, line),
        Err(_) => String::from_str(alloc, "no instance"),
    }
}

fn of_instance(alloc: Global, instance: &Instance, line: &str) -> Result<String, AllocError> {
    match first(line) {
        "row" => edges::asked(alloc, instance, line),
        "set_legs" => legs::set_legs(alloc, instance),
        "first_legs" => legs::first_legs(alloc, instance),
        "value_sums" | "value_prices" | "value_dual" => values::asked(alloc, instance, line),
        _ => sets::asked(alloc, instance, line),
    }
}
