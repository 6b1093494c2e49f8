//! An instance in 32 bits for the heuristics of `optimize`: lengths of legs, flows and fixed costs in coarse units, as
//! tables over all candidates or over some of them.
//!
//! Nothing here is exact or trusted, and no contract says what a number is. A place is the index of a candidate, from
//! 0. Where `--max-length` limits routes, a route that is too long counts as `FAR`, so both kinds of instances share
//! one code.
//!
//! In the order of reading: `rows` (vectors and tables, with the inner loops that take most of the time), `units`
//! (the units of lengths and flows), `tables` (the legs over some places), `lengths` (the instance), `commodity` (the
//! routes of a commodity). Last `asked` (the values that routes require of places at a price), `workers` (how many
//! threads share the work).
#![tactic(auto)]

mod asked;
mod commodity;
mod lengths;
mod rows;
mod tables;
mod units;
mod workers;

pub use asked::PlaceValues;
pub use commodity::{CommodityLengths, Ends, HubRoutes};
pub use lengths::Lengths;
pub use rows::{
    FAR, NONE, add, at, copy, fill, gather, least_sum, lower, lower_reduced, marked, put, raise,
    row, row_mut, set_sums, short, small,
};
pub use tables::{LegTables, LengthTables, Table};
pub use workers::PassWorkers;
