//! Block-coordinate dual ascent: passes that improve the dual of one commodity after another, at penalties of the hubs.
//!
//! Each place, the index of a candidate from 0, has a penalty (its price) between 0 (closed) and full (open). The
//! penalty rises with the load of the place, the sum of its values weighted by the flows. Where the load is the fixed
//! cost, the penalty is that of the end of the pass before. A commodity gets the dual that is best at the penalties
//! (`dual_flow`). Where the whole step would go too far, that dual is mixed with the old one. Loads and penalties
//! follow at once.
//!
//! A commodity whose step gains little is left out of the next passes, with exponential back-off. An origin starts from
//! the loads that all origins before it left, except the last few. So workers can do some origins side by side, and the
//! result is the same for every number of workers.
//!
//! Nothing here is exact or trusted. What is proved is that each call ends without a fault, and that lists keep their
//! lengths.
//!
//! In the order of reading: `waits` (back-off), `sums` (total and loads of
//! all duals, and their bound), `state` (all duals). Then `steps` (a mix of old values and new) and `origins` (the duals
//! of one origin). Last `schedule` (the order of the origins), `passes` and `sharing` (a pass by one worker, or by
//! several), `trials` (what a trial pass of strong branching changes).
#![tactic(auto)]

mod origins;
mod passes;
mod schedule;
mod sharing;
mod state;
mod steps;
mod sums;
mod trials;
mod waits;

pub use origins::OriginTerms;
pub use passes::PassSpace;
pub use state::{Snapshot, State, Turned};
pub use sums::Sums;
pub use trials::{Trial, listed};
pub use waits::{Gain, NO_GAIN, Quote};
