//! The top call `run`: arguments, files and outputs to a status. It carries the headline as a clause.
//!
//! `specs/` in the order of reading: `Commands` (which file is missing), `Named` (which files are named), `Texts`
//! (what is printed). Then `Answers` (what each command prints with each status), `Outcomes` (the possible outcomes of
//! a run), `Meanings` (what each status says). Last `Completeness` (the status where nothing fails), `Headline`,
//! `Theorems`. The commands themselves are in `hub_commands`.
#![tactic(auto)]

mod answers;
mod laws;
mod outcomes;
mod texts;
mod top;

pub use hub_commands::Status;
pub use laws::{
    bounded_is_bounds, one_blame, one_cost, one_text, optimized_is_optimal, solved_is_optimal,
    stopped_is_bounds,
};
pub use top::run;
