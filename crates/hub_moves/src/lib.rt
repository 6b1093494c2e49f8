//! Local search over hub sets: opens, closes or swaps a hub while that costs less, over the shortest routes of a set.
//!
//! Nothing here is exact or trusted: what is proved is that each call ends without a fault. A place is the index of a
//! candidate, from 0. Where `--max-length` limits routes, a route that is too long counts as `FAR`.
//!
//! In the order of reading: `routes` (shortest routes over a set), `openings` (the cost of a set with one more hub),
//! `moves` (the local search), `sets` (the best sets of a node), `tight` (the dual of a commodity that is tight at a set).
#![tactic(auto)]

mod moves;
mod openings;
mod routes;
mod sets;
mod tight;

pub use moves::{Ground, LocalSearch};
pub use routes::{Detours, SetRoutes, ShortRoute};
pub use sets::Sets;
pub use tight::{begin_tight, is_tight};
