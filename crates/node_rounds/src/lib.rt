//! Branch and bound by rounds, the search of `solve --rule 2`: the first eight pending nodes are evaluated side by side.
//!
//! A pending node ([`Pending`]) has its branch, its weights and how often it waited. [`turn`] evaluates it by the pool and
//! the incumbent's cost as they are when a round begins, with an [`Outcome`]: a line that ends the node, a hub set to
//! separate, or a split. [`turns`] evaluates the nodes of a round by workers side by side. Outcomes are applied one by one
//! in preorder. [`search_rounds`] goes on until no node is pending or two more are not allowed.
//!
//! Where an evaluation is long, the workers meet for each round. Where it is short, each worker runs the whole search and
//! sends its evaluations to the others.
//!
//! Evaluations and rounds are those of `rounds_spec`, which knows no workers: the finding is the same for every number of
//! workers, schedule and gate. Costs are in 10^-12 and weights in 10^-6; nodes are `u32`, counted from 0, cuts from 1.
//!
//! In the order of reading: `outcomes`, `turning` (one node), `rounds` (the nodes of a round), `fronts`, `splitting` and
//! `taking` (outcomes applied), `left` (what is left of the tree), `posts`, `draws`, `searchers` and `turners` (workers),
//! `searching` (the whole search).
#![tactic(auto)]

mod closing;
mod draws;
mod fronts;
mod left;
mod outcomes;
mod posts;
mod rounds;
mod searchers;
mod searching;
mod splitting;
mod taking;
mod turners;
mod turning;

pub use outcomes::{Outcome, Pending};
pub use rounds::turns;
pub use searching::search_rounds;
pub use turning::turn;
