//! The bound of a node of the tree under weights on its cuts (Lagrangean bound of the master).
//!
//! A [`Weighting`] borrows each cut's total, its loads by node and its part, and the fixed costs of the nodes, in
//! 10^-12. Its weights are shares of a denominator D. A weight counts as often as it has its cut's part. The gain of a
//! node is D times its fixed cost, less its weighted loads. The bound of a branch is the weighted sum of the totals,
//! with the gain of each node inside and the negative gains of free nodes. Bounds and gains are in 10^-12, times D. A
//! branch is fathomed at a cutoff t where its bound is above D * (t - 1): then none of its plans costs less than t.
//!
//! A free candidate is fixed to a [`Side`] where the child on its other side is fathomed; `hub_fixing` and `p_hub` find
//! it.
//!
//! Weights are in the order of the cuts, and missing ones count as 0. The limits of loads and fixed costs are required
//! only for the branch's own nodes. No call takes memory.
#![tactic(auto)]

mod bounds;
mod gains;
mod laws;
mod sides;
mod weighing;
mod weightings;

pub use bounds::{bound, bound_by, closes, threshold};
pub use gains::{gain, sum_of_gains, write_gains, write_gains_and_base};
pub use laws::{leaf_has_this_bound, pairs_are_a_mix};
pub use sides::Side;
pub use weightings::Weighting;
