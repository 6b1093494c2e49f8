//! The assignment subproblem: the least route of each commodity through a hub set, and the cost of the set.
//!
//! Lengths are found by unit of flow, and each is multiplied by its flow at the end. `assignments` finds the best last
//! hub for each first hub and destination once, so that each route takes one pass over the first hubs: n * n * h steps
//! for n nodes and h hubs. `set_costs` gives the cost alone and takes no memory: it keeps the least lengths from one
//! origin to the last hubs. Costs are in 10^-12.
//!
//! Where the length of routes is limited, each commodity has its least route by itself, of those that are allowed
//! (`limited`). `serving` tells the first commodity that hubs have no route for.
#![tactic(auto)]

mod assignments;
mod limited;
mod serving;
mod set_costs;

pub use assignments::{Assignment, assign};
pub use serving::lacking;
pub use set_costs::{cost_of_set, set_cost};
