//! Separation of a hub set's Benders cut by several workers, one origin at a time.
//!
//! What depends on the set and the order alone is computed once and shared. Then the origins are the blocks of a job of
//! the worker pool, and each worker draws one at a time.
//!
//! - `separate` returns the Benders cut from the set over the order, with all of its duals.
//! - `separate_sums` returns the sums of this cut alone, as a search asks for it. A worker then keeps an origin's sums
//!   and none of its duals, so memory does not grow by the duals of a cut.
//!
//! Both are the same whatever the number of workers, their schedule and the gate. Costs are in 10^-12. Nodes are `u32`,
//! counted from 0.
//!
//! In the order of reading: `origin_duals` (the duals of one origin), `origins` (what these add to the sums), and
//! `workers` (the work of one worker, and how many are worth their start). Then come `joining` and `adding` (the duals
//! and the sums of all origins), `separating` (the whole), and `crews` (the same as a `Separator`).
#![tactic(auto)]

mod adding;
mod crews;
mod joining;
mod origin_duals;
mod origins;
mod separating;
mod workers;

pub use crews::Crew;
pub use origins::OriginSums;
pub use separating::{separate, separate_sums};
pub use workers::{work, work_on_sums, workers_for};
