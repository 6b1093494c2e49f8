//! The commands: from files and options to a verdict (`check`, `report`) or to the finding of a search (`solve`,
//! `resolve`, `optimize`, `demo`).
//!
//! `specs/` in the order of reading: `VerdictStatuses`, `Lines` (the line of a verdict), `Checks` (the results of
//! `check` and `report`); `Methods` (the arguments of a search), `Searches` (the results of a search of an instance, by
//! a rule or by none), `Older` (the older certificate), `Instances` (the same for the files of an instance),
//! `Statuses`.
#![tactic(auto)]

mod checking;
mod closing;
mod preparing;
mod reading;
mod reporting;
mod searching;
mod solving;
mod status;
mod verdict_lines;

pub use checking::check;
pub use reporting::report;
pub use searching::demonstrate;
pub use solving::{Solved, solve};
pub use status::Status;
pub use verdict_lines::{put_ending, status_of_ending};
