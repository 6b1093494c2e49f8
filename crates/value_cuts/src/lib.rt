//! The Benders cut of any dual values, made feasible: each price is lowered to what allowed routes permit, by one
//! worker or several.
//!
//! A heuristic may propose any dual values for each commodity. Here the price of each commodity is lowered to what its
//! values permit on allowed routes. So its dual is feasible by construction. The duals of all commodities are a Benders
//! cut of the instance, within its sums (`laws`). Nothing of the heuristic's proposal is trusted. Workers side by side
//! set the prices that one worker sets, whatever their number and however their threads run.
//!
//! Values are those of `cut_model`: a row of small numbers for each commodity, over the tables of `leg_duals`. In the
//! order of reading: `pricing` (the prices) and `allowed` (the same where the length of routes is limited); then
//! `origins`, `rows` and `workers` (a row of prices for each origin, by a worker pool); then `offsets` (what is added
//! for the first commodity), `sums` (total and loads of the cut) and `duals` (its duals, borrowed one by one). A place
//! is the number of a candidate in their order, from 0. Lengths and values by unit of flow are in 10^-6, costs in
//! 10^-12.
#![tactic(auto)]

mod allowed;
mod duals;
mod laws;
mod offsets;
mod origins;
mod pricing;
mod rows;
mod sums;
mod workers;

pub use cut_model::Values;
pub use duals::DualScratch;
pub use laws::{
    no_greater_price, value_cut_is_cut, value_cut_is_first, value_cut_is_in_range,
    value_dual_is_dual,
};
pub use leg_duals::CandidateLegs;
pub use pricing::{ListedRow, PriceScratch, price, set_origin_prices, set_prices};
pub use sums::{cut_sums, sums_of};
pub use workers::set_prices_by_workers;
