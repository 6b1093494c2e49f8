//! The hub edges of one commodity, ascending by cost, without those that no least route needs.
//!
//! A commodity is routed by one hub, or by two in the cheaper direction. An edge that costs at least as much as one of its
//! hubs alone is not needed. An `EdgeRow` has the others, ascending by cost, so the least cost by any hub set is that of
//! the first entry inside the set. With a longest route some hubs and edges are not allowed. Costs are `i128` in 10^-12;
//! nodes are `u32`, counted from 0.
//!
//! In the order of reading: `rows` (the type), `entries` (its list), `picking` (the first entry inside a set).
#![tactic(auto)]

mod entries;
mod picking;
mod rows;

pub use rows::{EdgeRow, row_is_one};
