//! The minimal duals of all commodities of one origin, per unit of flow, for a hub set and an order of the other
//! candidates.
//!
//! It knows no instance: lengths come in as tables of legs between stops, the places of an order and then the hubs.
//! In the order of reading: `legs` (the tables that come in), `hops` (the shortest routes by hubs alone, for an
//! assignment). Then `tables` (what is computed once for a cut), made by `filling` and `nearby`: least lengths by a
//! hub, and for each place and each earlier place the list of the destinations that are near. Last `duals` (what is
//! computed for one origin: prices by `lengths`, then the values of all places for all destinations by `turns`).
//!
//! `lowering` makes least lengths by a hub, over `stretches` of a list. It takes the nearest hub first, and then only
//! those hubs that are near enough to be of use.
//!
//! Two places ask nothing of each other for a destination where the way by both is no shorter than a way by hubs,
//! which asks already. So the values of a place are raised along near lists alone (`raising`), and only where the way
//! from the origin to the second place by the first is shorter than all others.
#![tactic(auto)]

mod duals;
mod filling;
mod hops;
mod lanes;
mod legs;
mod lengths;
mod lowering;
mod nearby;
mod raising;
mod stretches;
mod tables;
mod turns;

pub use duals::UnitDuals;
pub use hops::{Hops, HubRoute};
pub use legs::{Legs, row};
pub use tables::Tables;
