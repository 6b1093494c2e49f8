//! The instance that a command names, read from its files, or the fault of one of them.
//!
//! `specs/` in the order of reading: `Sources` (what the files of a source give), `Halts` (why a command has no answer), `Shelves`
//! (what a call does to the shelf), `Named` (which files it begins). [`read_instance`] is the call that each command begins with.
#![tactic(auto)]

mod costs;
mod files;
mod halts;
mod instances;

pub use halts::{Blamed, Halt};
pub use instances::read_instance;
