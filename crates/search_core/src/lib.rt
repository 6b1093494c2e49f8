//! What all searches share: the task, the lines of the tree, and the bounds of leaves.
//!
//! [`Task`] says what is searched and how many nodes the tree may have, and [`Start`] with what a search begins beside its
//! own cuts. [`add_line`] adds a line to a tree within the limit of a certificate, and [`whole_leaf`] is the leaf of one
//! cut. [`rounded_up`] is the bound of a leaf that a stop left, and [`lesser`] takes the least of such bounds. Costs are in
//! 10^-12 and weights in 10^-6; nodes are `u32`, counted from 0, cuts from 1.
#![tactic(auto)]

mod amounts;
mod lines;
mod starts;
mod tasks;

pub use amounts::{WHOLE_WEIGHT, lesser, rounded_up};
pub use lines::{add_line, whole_leaf};
pub use starts::Start;
pub use tasks::Task;
