//! A plain, slow reference program for the definitions, by enumeration.
//!
//! Each function answers just what a definition of `hub_spec` says, by loops over all cases: all routes through
//! given hubs, all pairs of hubs of a dual, all sets of candidates. Faster bodies are compared with it. Costs
//! are in 10^-12: they are summed as `u128`. Nodes are `u32`, counted from 0.
//!
//! The modules build on one another in this order: `assignments` (what a hub set costs, with all its routes), `serving`
//! (the commodities that have no route), `plans` (what is a plan), and `best_plans` (an optimal plan). Then come `ways`
//! (hub edges), `duals` (the value that each candidate outside has at least, in its turn) and `set_cuts`.
#![tactic(auto)]

mod assignments;
mod best_plans;
mod duals;
mod plans;
mod serving;
mod set_cuts;
mod ways;

pub use assignments::{Assignment, assign, set_cost};
pub use best_plans::best_plan;
pub use duals::minimal_dual;
pub use plans::{is_hub_set, is_plan};
pub use serving::{lacking, serves};
pub use set_cuts::set_cut_rows;
