//! The arguments of the command line, as clap parses them, to a request.
//!
//! [`asked`] gives the [`Command`] that the words are. It has the [`Source`] of its instance: a layout, a file, the
//! instance options and a costs file. Or it has the [`Making`] of it: a seed and a number of nodes. It also has the
//! [`Search`] that is to solve the instance. [`How`] says by which rule or by none: `solve`, `resolve` and `optimize`
//! differ in nothing else.
//!
//! `specs/Words.antt` defines which words are a command. Clap finds no fault in them for the command of
//! `specs/Hub.antt`, their values have the forms of `specs/Values.antt`, and their options are lawful together. Files
//! are only named here; none is read.
#![tactic(auto)]

// What is answered.
mod requests;

// The parse, the values that it found, and what they make together.
mod asking;
mod candidates;
mod hows;
mod limits;
mod makings;
mod parsing;
mod searches;
mod settings;
mod solvings;
mod sources;
mod values;

pub use asking::asked;
pub use requests::{Command, How, Layout, Making, Search, SearchRule, Solving, Source};
