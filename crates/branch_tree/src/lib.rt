//! Branch and bound by a fixed rule, the search of `solve` and `resolve`, with the certificate of what it finds.
//!
//! [`search`] walks the tree depth first, the open child first. At a node it solves the master up to three times, each time
//! separating a hub set; then the node is fathomed by its bound, candidates are fixed, or it branches. With a limit of
//! nodes it stops where two more are not allowed, and each pending node becomes a leaf. `Found` has the plan with its cost,
//! the bound, and the cuts and the tree that prove it. [`search_from`] begins with imported cuts and tries given hubs
//! first.
//!
//! Each function does the step of its name in `search_spec`: it reaches the state of that step, and adds the lines of its
//! tree in preorder. What holds of the finding is proved of the definition. Costs are in 10^-12 and weights in 10^-6; nodes
//! are `u32`, counted from 0, cuts from 1.
#![tactic(auto)]

mod again;
mod laws;
mod leaves;
mod lines;
mod rounds;
mod searching;
mod separating;
mod walk;
mod walking;
mod weighing;

pub use again::search_from;
pub use laws::{again_is_proved, search_is_proved, unlimited_is_first, without_core_cuts};
pub use searching::search;
