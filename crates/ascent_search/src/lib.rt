//! Branch and bound on exact Benders cuts made from heuristic dual values, the search of `optimize`.
//!
//! [`optimize`] walks the tree depth first, the open child first. At a node a heuristic (`search_advice`) improves
//! hub sets and dual values. The Benders cut from the values (`value_cuts`) is exact whatever they are. Near the
//! optimum of the linear relaxation one such cut fathoms the node at the incumbent's cost; else the search branches.
//! A branch with one hub set left ends on the Benders cut from that set, which is tight there. A branch with no
//! wanted hub set left ends without a cut (`ends`). With a limit on nodes the search stops where two more are not
//! allowed, and each pending branch becomes a leaf.
//!
//! With exactly p hubs, bounds are those of `p_hub`. With `--max-length` no infeasible set becomes the incumbent; a
//! cut's prices are low enough for all allowed routes. [`optimize_within`] stops within a gap of the cost: leaves are
//! fathomed at the cost less the gap, and the bound is the least bound of the leaves.
//!
//! The contracts: a certificate that holds, with least routes; its cost is at most that of the first incumbent; its
//! bound is the best that its own tree proves. Each step keeps `Progressing` of the specs: the lines lead from the root
//! to the pending branches (`search_spec::walks`). In the order of reading: `task` (`SearchTask`), `progress` (`TreeProgress`),
//! `bench` (`Bench`, the workspace of exact computations), `walk` (`Walk`), `walker` (`Walker`), `optimizing`. Costs
//! are in 10^-12; nodes are `u32`, counted from 0, cuts from 1.
#![tactic(auto)]

mod advising;
mod bench;
mod bounds;
mod ends;
mod guide;
mod keeping;
mod laws;
mod leaves;
mod optimizing;
mod pricing;
mod progress;
mod task;
mod values;
mod walk;
mod walker;
mod walking;

pub use laws::all_candidates_serve;
pub use optimizing::{optimize, optimize_within};
pub use task::SearchTask;
