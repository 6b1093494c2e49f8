//! Cases of `hub_model`, `test_lines` and `test_plain`. Each case is a line of standard input, printed with its result
//! after it. Comments are printed as they are.
//!
//! The first line `instance` of a paragraph makes the instance for its lines. Each such line prints its instance, or
//! why there is none. It has the name of a worked case, `line_of_three` or `three_costs`, or numbers after names:
//! `size`, `flows` (10^-6) and `distances` (10^-3). Optional are `candidates`, `fixed` (10^-6), `listed`, `collect`,
//! `trunk`, `deliver` (10^-3), and `no_self` at the end.
//!
//! - For an instance: `routes` (the costs of all routes), the branches `root`, `open node K` and `close node K`,
//!   `best_plan`, `plan`.
//! - For some hubs, `hubs H ..`: `opening`, `set_cost`, `copy`, `assign`, `cut_rows`, and with `from I to J`
//!   `least_route` and `dual`.
//! - Without an instance: `refusals`, `change TEXT`, `change_certificate`, `copy_leaf` and `copy_numbers`.

mod copies;
mod instances;
mod plain;
mod routes;
mod texts;

use hub_model::Instance;
use instances::instance_of;
use std::alloc::{AllocError, Global};
use std::io;
use test_lines::{first, instance_line};

/// Prints each line with its answer. Each paragraph has lines that ask of its first instance.
pub(crate) fn tell(rt: &HostRuntime, cases: &str) -> io::Result<()> {
    for paragraph in cases.split("\n\n") {
        tell_lines(rt, paragraph, instance_line(paragraph))?;
    }
    Ok(())
}

fn tell_lines(rt: &HostRuntime, paragraph: &str, instance: &str) -> io::Result<()> {
    for line in paragraph.lines() {
        print(rt, instance, line)?;
    }
    Ok(())
}

// Prints the line with its answer.
fn print(rt: &HostRuntime, instance: &str, line: &str) -> io::Result<()> {
    if line.starts_with("#") {
        return println!(rt; "{line}");
    }
    let answer = answer(rt.alloc(), instance, line)?;
    println!(rt; "{line}: {answer}")
}

fn answer(alloc: Global, instance: &str, line: &str) -> Result<String, AllocError> {
    match first(line) {
        "instance" => instances::told(alloc, line),
        "refusals" => texts::refusals(alloc),
        "change" => texts::in_figures(alloc, line),
        "change_certificate" => texts::certificate(alloc),
        "copy_leaf" => copies::leaf(alloc),
        "copy_numbers" => copies::numbers(alloc),
        _ => asked(alloc, instance, line),
    }
}

// The answer to the line, for this instance.
fn asked(alloc: Global, instance: &str, line: &str) -> Result<String, AllocError> {
    match instance_of(alloc, instance) {
        Ok(instance) => of_instance(alloc, &instance, line),
        Err(_) => String::from_str(alloc, "no instance"),
    }
}

fn of_instance(alloc: Global, instance: &Instance, line: &str) -> Result<String, AllocError> {
    match first(line) {
        "routes" => routes::routes(alloc, instance),
        "root" | "open" | "close" => routes::branch(alloc, instance, line),
        "best_plan" => plain::best(alloc, instance),
        "plan" => plain::plan(alloc, instance),
        _ => plain::with_hubs(alloc, instance, line),
    }
}
