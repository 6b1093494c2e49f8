//! The Benders cut of a hub set: minimal duals of all commodities, strengthened in the order of a point, with their
//! sums.
//!
//! All commodities of an origin are computed together, by unit of flow (`unit_duals`). What depends only on the set
//! and the order is computed once (`set_tables`). A `Separation` has all that an origin's duals depend on.
//! `OriginScratch` is the workspace for them, one for each worker. `sums` adds them up, and `DualBuffer` holds one of
//! them as a certificate's line has it. `Scratch` has one of each, for a single thread: for one commodity
//! (`strong_dual_in`), or for all commodities of one origin after another. `orders` has the order of the candidates
//! outside a set by a point. Costs are in 10^-12, lengths by unit of flow in 10^-6. Nodes are `u32`, counted from 0.
#![tactic(auto)]

mod buffers;
mod flows;
mod orders;
mod origins;
mod scratches;
mod separations;
mod set_cuts;
mod set_tables;
mod strong_duals;
mod sums;

pub use buffers::DualBuffer;
pub use orders::order_of;
pub use origins::OriginScratch;
pub use scratches::Scratch;
pub use separations::Separation;
pub use set_cuts::{cut_of, cut_sums};
pub use set_tables::SetTables;
pub use strong_duals::{strong_dual, strong_dual_in};
