//! Cases of single lines of a certificate: duals (`dual_lines`), plans, trees and leaves, and sets of nodes
//! (`cert_lines`).
//!
//! Each case is a line of standard input, printed back, with its results below it. A line that begins with `#` is only
//! printed back, and an empty one is skipped. Nodes count from 0. Costs, prices, values and loads are in 10^-12.
//!
//! - `instance COLLECT TRUNK DELIVER / CANDIDATES / FLOWS / DISTANCES / FIXED COSTS`: the instance for the lines below,
//!   its factors in 10^-3, flows, distances and costs in whole numbers, row by row
//! - `duals I J PRICE NODE VALUE .. / I J PRICE ..`: consecutive duals, and whether each is feasible, also with its
//!   price raised by 1. Before I may come `part PART`, and then `run RUN`, for so many commodities from J on
//! - `plan HUBS / FIRST LAST FIRST LAST ..`: hubs, and a route for each commodity in order, by its first and last hub
//! - `tree LINE LINE ..`: a node to branch on, `-` to end the next branch, or `root` to restart; the free nodes after
//!   each line
//! - `leaf DENOMINATOR / CUTOFF / LINES / WEIGHT TOTAL LOADS / ..`: whether weighted cuts fathom the branch after these
//!   lines of a tree, `root` for none. It is tested at CUTOFF, and at CUTOFF raised by 1. Before a weight may come
//!   `part PART`
//! - `marks SIZE CHANGE CHANGE ..`: a set of nodes below a size, with `+K` added and `-K` removed

mod duals;
mod leaves;
mod marks;
mod numbers;
mod plans;
mod trees;

use hub_model::Instance;
use std::alloc::Global;
use std::io;
use test_lines::instance_of_fields;

/// Prints each line, and below it what its calls gave.
pub(crate) fn tell(rt: &impl Print, alloc: Global, cases: &str) -> io::Result<()> {
    let mut given = String::new(alloc);
    for line in cases.lines() {
        if let Some(numbers) = line.strip_prefix("instance ") {
            given = String::from_str(alloc, numbers)?;
        }
        if !line.is_empty() {
            println!(rt; "{line}")?;
            answer(rt, alloc, given.as_str(), line)?;
        }
    }
    Ok(())
}

// Prints what a line asks for, where an instance is given.
fn answer(rt: &impl Print, alloc: Global, given: &str, line: &str) -> io::Result<()> {
    let (word, rest) = line.split_once(' ').unwrap_or((line, ""));
    match word {
        "#" | "instance" => Ok(()),
        "marks" => marks::changed(rt, alloc, rest),
        _ => of_given(rt, alloc, given, word, rest),
    }
}

fn of_given(rt: &impl Print, alloc: Global, given: &str, word: &str, rest: &str) -> io::Result<()> {
    match instance_of_fields(alloc, given)? {
        Some(instance) => of_instance(rt, alloc, &instance, word, rest),
        None => println!(rt; "  no instance"),
    }
}

fn of_instance(
    rt: &impl Print,
    alloc: Global,
    instance: &Instance,
    word: &str,
    rest: &str,
) -> io::Result<()> {
    match word {
        "duals" => duals::listed(rt, alloc, instance, rest),
        "plan" => plans::whole(rt, alloc, instance, rest),
        "tree" => trees::walked(rt, alloc, instance, rest),
        "leaf" => leaves::closed(rt, alloc, instance, rest),
        _ => println!(rt; "  no such case"),
    }
}
