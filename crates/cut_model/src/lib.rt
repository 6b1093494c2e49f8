//! The explicit cuts of a certificate, held in little memory, the mark that proves a cut Pareto-optimal, and dual
//! values.
//!
//! A [`StatedCut`] is seen as the definitions' cut: its part, and one dual for each commodity in order. It holds a run
//! of equal duals once, in 32 bytes, and each value that a dual lists in 16. Its totals and loads are those of the
//! whole cut. A [`Mark`] has the hubs of a cut and a proof for each of its duals. A [`MarkedCut`] is a cut with its
//! mark. Other crates check the proofs. [`Values`] are borrowed: a row of small numbers for each commodity, its dual
//! values. The price of the commodity is lowered to what they permit on allowed routes. So the Benders cut from any dual
//! values is a cut of the instance.
//!
//! In the order of reading: `values` (a node with its value), `duals` (a borrowed dual), `runs` (runs of commodities
//! with one dual), `sums`, `cuts`; then `dual_proofs`, `marks`, `marked`; then `value_rows`. Nodes are `u32`, counted
//! from 0. Prices and values are in 10^-12, those by unit of flow in 10^-6.
#![tactic(auto)]

mod cuts;
mod dual_proofs;
mod duals;
mod marked;
mod marks;
mod runs;
mod sums;
mod value_rows;
mod values;

pub use cuts::StatedCut;
pub use dual_proofs::DualProof;
pub use duals::StatedDual;
pub use marked::MarkedCut;
pub use marks::Mark;
pub use value_rows::Values;
