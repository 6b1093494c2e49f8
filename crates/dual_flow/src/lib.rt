//! The best dual of one commodity at given penalties of the hubs (its price less the penalties of its values is
//! greatest), as the dual of a minimum-cost flow.
//!
//! Penalties of hubs follow from their loads (`ramps`). The penalties (prices of places) are the capacities of a small network (`network`), and the lengths of routes its
//! arc costs. Shortest augmenting paths (`ways`) solve it; `best` takes price and values from its potentials. Nothing
//! here is exact or trusted: what is proved is that each call ends without a fault.
#![tactic(auto)]

mod best;
mod network;
mod ramps;
mod ways;

pub use best::{BestDual, Priced};
pub use network::FULL_PRICE;
pub use ramps::{NO_RAMP, NO_TURN, Ramp, Slope, Turn, balanced, is_enough, set_order, set_prices};
