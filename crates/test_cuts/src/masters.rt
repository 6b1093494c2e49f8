//! Cases of what a search does with its cuts. `frac_rows` and `plain_rows` make pivots and simplex runs, and
//! `frac_master` solves masters. `leaf_bound`, `hub_fixing` and `p_hub` give bounds of branches and their fixings.
//! `cut_pool` stores cuts.
//!
//! Each case is a line of standard input, and its result is printed. A line that begins with `#` is printed as it is,
//! and an empty line is skipped. The fields of a case are separated by `;`. Where a field gives numbers, other words in
//! it are comments. A branch has a sign for each node: `+` open, `-` closed, `?` free, `.` no candidate. The part of a
//! cut is 1, unless its field has the word `part`; then the part comes before the total.
//!
//! - `rows RIGHTS; NUMBERS OF THE VARIABLES, ROW BY ROW; STEP; STEP ..`: each step is `table`, `run`, or
//!   `pivot ROW COLUMN`
//! - `plain OBJECTIVE; CONSTRAINT / CONSTRAINT ..; STEP ..`: a constraint is numbers and a right side, and each step is
//!   `table` or `run`
//! - `first BRANCH; FIXED COSTS; TOTAL AND LOADS OF A CUT; ..`: the master's first tableau
//! - `advise BRANCH; FIXED COSTS; TOTAL AND LOADS OF A CUT; ..`: its weights and point
//! - `advise-by-totals BRANCH; ..`: the same, of loads within their totals
//! - `leaf BRANCH; CUTOFFS; WEIGHTS AND WHAT THEY ARE SHARES OF; FIXED COSTS; TOTAL AND LOADS OF A CUT; ..`: the bound
//!   of the branch, and what it fixes at each cutoff
//! - `counted P; BRANCH; ..`: as `leaf`, for exactly P hubs
//! - `pick P; BRANCH; POINT`: P hubs by the point
//! - `pool STEP; STEP ..`: each step is `reserve COUNT`, `add SET, ORDER, TOTAL, LOADS`, `find SET`, `short`, or `cuts`
//!
//! In the order of reading: `fields` (numbers, branches and cuts of a line), `limits` (numbers and nodes within
//! limits), `tables` (rows), `programs` (plain), `masters`, `weighing` and `leaves` (leaf), `counted` (counted and
//! pick), `pools` (pool).

mod counted;
mod fields;
mod leaves;
mod limits;
mod masters;
mod pools;
mod programs;
mod tables;
mod weighing;

use std::alloc::{AllocError, Global};
use std::io;

/// Prints what each line gives.
pub(crate) fn tell(rt: &HostRuntime, cases: &str) -> io::Result<()> {
    for line in cases.lines() {
        let text = answer(rt.alloc(), line)?;
        print!(rt; "{text}")?;
    }
    Ok(())
}

// What is printed of a line.
fn answer(alloc: Global, line: &str) -> Result<String, AllocError> {
    if line.is_empty() {
        return Ok(String::new(alloc));
    }
    if line.starts_with('#') {
        return format!(in alloc; "{line}\n");
    }
    match line.split_once(' ') {
        Some((word, rest)) => answer_to(alloc, word, rest),
        None => String::from_str(alloc, "no case\n"),
    }
}

fn answer_to(alloc: Global, word: &str, rest: &str) -> Result<String, AllocError> {
    match word {
        "rows" => tables::told(alloc, rest),
        "plain" => programs::told(alloc, rest),
        "first" | "advise" | "advise-by-totals" => masters::told(alloc, word, rest),
        "leaf" => leaves::told(alloc, rest),
        "counted" => counted::told(alloc, rest),
        "pick" => counted::picked(alloc, rest),
        "pool" => pools::told(alloc, rest),
        _ => String::from_str(alloc, "no case\n"),
    }
}
