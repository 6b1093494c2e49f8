//! Cases of certificates: their texts scanned (`cert_scan`), read and written (`cert_format`), checked whole
//! (`cert_checker`) and as they come (`cert_conditions`), tested as older ones (`cert_checker`, `warm_start`), and
//! reported (`network_report`).
//!
//! Each case is a line of standard input, printed back, with its results below it. A line that begins with `#` and an
//! empty one are only printed back. An `instance` and a `text` are stored. In a text `;` ends a line, and `~` is a
//! carriage return. A TEXT is the name of one, with changes after it, as in `NAME / OLD -> NEW / OLD -> NEW`: the first
//! OLD in it becomes NEW.
//!
//! - `text NAME LINES`: a text, or more of it
//! - `items TEXT`: the items that a scan gives, and its fault
//! - `fault TEXT`: the fault of a scan, and that of a reading
//! - `write CALL COUNT TEXT`: the text read and written again; put number CALL fails, with COUNT bytes of it taken; for
//!   `0 0` none fails
//! - `instance COLLECT TRUNK DELIVER / CANDIDATES / FLOWS / DISTANCES / FIXED COSTS / HUBS LISTED`: the instance for
//!   the lines below. Factors are in 10^-3, the other numbers whole, row by row; HUBS LISTED is optional
//! - `check TEXT`: how the check of the whole text ends, and that of its pieces of 7 bytes
//! - `older TEXT`: the verdict on the text as an older certificate, by its cuts and by its size alone
//! - `values UNIT TEXT`: the dual values for a heuristic, in this unit, from the cuts of the text
//! - `cuts TEXT`: checks of the text cut in two at every position
//! - `taken TEXT`: the items of a scan taken one by one, and the verdict after them
//! - `report CALL COUNT TEXT`: the report, where the certificate holds; CALL and COUNT as above
//! - `reads TEXT`: checks of the text on a shelf, by reads of each length
//! - `held COPIES MOST TEXT`: checks of the text on a shelf, with its one cut COPIES times, by reads of at most MOST
//!   bytes. In one check call 1 of the shelf fails, in the next call 2, and so on up to the last call
//! - `name NAME TEXT`: the check of the file NAME of a shelf, then of the file `g`, which has the text

mod checks;
mod names;
mod olders;
mod reports;
mod scans;
mod shelves;
mod sinks;
mod streams;
mod texts;

use hub_model::Instance;
use names::{instance_in, is_name, text_in};
use std::alloc::Global;
use std::io;
use std::thread::Threads;
use test_lines::instance_of_fields;

/// Prints each line, and below it what its calls gave.
pub(crate) fn tell<R: Print + Threads + Sync>(
    rt: &R,
    alloc: Global,
    cases: &str,
) -> io::Result<()> {
    let mut kept = String::new(alloc);
    for line in cases.lines() {
        if is_name(line) {
            kept.push_str(line)?;
            kept.push_str("\n")?;
        } else {
            answer(rt, alloc, kept.as_str(), line)?;
        }
    }
    Ok(())
}

// Prints what a line asks for.
fn answer<R: Print + Threads + Sync>(
    rt: &R,
    alloc: Global,
    kept: &str,
    line: &str,
) -> io::Result<()> {
    println!(rt; "{line}")?;
    let (word, rest) = line.split_once(' ').unwrap_or((line, ""));
    match word {
        "" | "#" => Ok(()),
        "write" => texts::write(rt, alloc, kept, rest),
        "items" => scans::items(rt, &text_in(alloc, kept, rest)?),
        "fault" => texts::faults(rt, alloc, &text_in(alloc, kept, rest)?),
        _ => of_given(rt, alloc, kept, word, rest),
    }
}

// Prints what a case of the instance that is given asks for.
fn of_given<R: Print + Threads + Sync>(
    rt: &R,
    alloc: Global,
    kept: &str,
    word: &str,
    rest: &str,
) -> io::Result<()> {
    match instance_of_fields(alloc, instance_in(kept))? {
        Some(instance) => of_instance(rt, alloc, &instance, kept, word, rest),
        None => println!(rt; "  no instance"),
    }
}

fn of_instance<R: Print + Threads + Sync>(
    rt: &R,
    alloc: Global,
    instance: &Instance,
    kept: &str,
    word: &str,
    rest: &str,
) -> io::Result<()> {
    match word {
        "check" => checks::check(rt, alloc, instance, &text_in(alloc, kept, rest)?),
        "older" => olders::older(rt, alloc, instance, &text_in(alloc, kept, rest)?),
        "values" => olders::values(rt, alloc, instance, kept, rest),
        "cuts" => streams::cut_anywhere(rt, alloc, instance, &text_in(alloc, kept, rest)?),
        "taken" => streams::taken(rt, alloc, instance, &text_in(alloc, kept, rest)?),
        "report" => reports::report(rt, alloc, instance, kept, rest),
        "reads" => shelves::by_reads(rt, alloc, instance, &text_in(alloc, kept, rest)?),
        "held" => shelves::failing(rt, alloc, instance, kept, rest),
        "name" => shelves::named(rt, alloc, instance, kept, rest),
        _ => println!(rt; "  no such case"),
    }
}
