//! Tests the proof that a dual is Pareto-optimal, line by line, without memory.
//!
//! A marked cut lists with each dual its proof: turns, a scale, and ways. [`ProofLine`] takes the ways one after another
//! and keeps sums alone; at the end it decides. `lengths` has costs per unit of flow, since costs times numbers of ways do
//! not fit 128 bits; `amounts` divides prices and values by the flow.
#![tactic(auto)]

mod amounts;
mod laws;
mod lengths;
mod lines;

pub use laws::{proof_begins, proof_decides, proof_has_way};
pub use lines::ProofLine;
