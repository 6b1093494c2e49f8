//! The trait by which `optimize` asks a heuristic for dual values, hub sets and a branching candidate. Nothing of it is
//! trusted.
//!
//! A search passes its node to [`Advice`], lets it improve its dual values while that pays, and makes the result exact:
//! the Benders cut from the dual values, and the cost of a hub set. It also takes the candidate to branch on. A bad
//! heuristic costs time alone. A place is the index of a candidate, from 0; costs are in 10^-12.
#![tactic(auto)]

mod asking;
mod sides;

pub use asking::Advice;
pub use sides::Side;
