//! Tests the plan and the tree of a certificate line by line, with no route and one path of the tree in memory.
//!
//! - [`NodeMarks`] is a set of nodes with membership in constant time. Its clauses speak of `marked`, the ascending list of
//!   the nodes that are marked.
//! - [`PlanSums`] takes the hubs, then the routes in the order of commodities. It tells whether there are as many hubs as
//!   are wanted and whether a node is among them, and adds up what the plan costs.
//! - [`TreePath`] keeps what is still to be filled: the way from the root to the next branch, of at most as many steps
//!   as there are candidates. A line branches on a free node or fills the branch, in constant time on the average. What
//!   may end the branch without weights is tested there: no hub is left, a commodity has no route, or the wanted hubs
//!   have no room.
//! - [`LeafSums`] adds up a leaf, whose weights come one after another, and tells whether its bound reaches a cutoff.
//!   A weight counts as often as it has the part of its cut; [`is_multiple`] tells whether nothing of it is left. Where
//!   a number of hubs is wanted, as many free nodes count as are missing, those with the least gains.
//!
//! Once they are made, no call takes memory. Costs, totals, loads and fixed costs are in 10^-12, weights in shares of a
//! leaf's denominator; bounds are in 10^-12, times the denominator.
#![tactic(auto)]

mod blocks;
mod gains;
mod laws;
mod marks;
mod paths;
mod plan_laws;
mod plan_sums;
mod sums;
mod trails;

pub use laws::{sums_begin, sums_bound_leaf, sums_go_on};
pub use marks::NodeMarks;
pub use paths::TreePath;
pub use plan_laws::{plan_begins, plan_costs, plan_has_hub, plan_has_route};
pub use plan_sums::{PlanSums, is_candidate};
pub use sums::{LeafSums, is_multiple};
