//! The cut pool of a search: stored cuts with their numbers, hub sets, totals and loads, and what a search found with
//! them.
//!
//! A [`KeptCut`] holds what the duals of a cut can be computed from again: dual values of the candidates, or a hub set
//! with an order of the others. Or it holds a Pareto-optimal cut with its mark, or an imported cut, with all of their
//! duals. A [`CutStore`] has them side by side with their sums, and [`KeptCuts`] numbers them from 1. A [`Pool`] also
//! finds the cut of a hub set, by search in an index, and has at most one for each set. Once memory is reserved, it
//! adds a cut for certain. It gives the sums of which bounds and masters are made, whole or for one unit of a cut's
//! part. A [`Found`] is a plan with the cuts and the tree that bound the cost of every plan from below.
//!
//! In the order of reading: `packed` (values without their zeros), `kept` with `laws`, `store`, `unit_columns`,
//! `short_loads`, `stated_sums`, `set_cuts` and `places` (the index), `pool`, `found`. Costs are in 10^-12; nodes are
//! `u32`, counted from 0.
#![tactic(auto)]

mod cut_sums;
mod found;
mod kept;
mod laws;
mod packed;
mod places;
mod pool;
mod set_cuts;
mod short_loads;
mod stated_sums;
mod store;
mod unit_columns;

pub use cut_sums::CutSums;
pub use found::Found;
pub use kept::{KeptCut, KeptCuts};
pub use laws::{
    kept_cut_is_cut, kept_cut_is_first, kept_cut_is_in_range, kept_mark_is_mark, kept_part_is_part,
};
pub use packed::PackedValues;
pub use pool::{Pool, Refused};
pub use short_loads::ShortLoads;
pub use store::CutStore;
