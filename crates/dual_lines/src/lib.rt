//! Tests the duals of a certificate for feasibility, one line at a time.
//!
//! A certificate lists for a run of commodities a price and values of nodes; they are a feasible dual where no route that
//! is allowed by way of candidates costs, times the part of the cut, less than the price, with the values of its hubs
//! added. `lines` has the dual that is listed for a run, and tells whether it holds of each commodity, to which `commodity_lines`
//! turns. The instance's legs are those of `leg_duals`, made once; a place is the number of a candidate in their
//! order, from 0, and `places` writes and clears what a dual lists by place.
//!
//! `units` tests by unit of flow, in 64 bits, with the price rounded up and the values rounded down: for each first hub
//! that collection and the nearest end leave open it visits all last hubs in one loop, several at a time. What this does
//! not show to be covered, `amounts` decides in the numbers that are listed. A unit of flow counts as often as the part
//! says. Costs are in 10^-12, lengths by unit of flow in 10^-6. Only `amounts` passes over routes that are not allowed.
//!
//! `stated` makes the last test alone of a dual that a cut states, for threads to call side by side.
#![tactic(auto)]

mod amounts;
mod commodity_lines;
mod lines;
mod places;
mod stated;
mod units;

pub use lines::DualLine;
pub use stated::is_dual;
