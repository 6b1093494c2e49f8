//! Computes the duals of a stored cut again, one at a time, as a certificate lists them.
//!
//! A search stores of each cut what determines its duals: a hub set with an order, or values of the candidates. Of a
//! Pareto-optimal or imported cut it stores the duals themselves, packed (`cut_model`). A [`DualLender`] has all memory from
//! the start. It computes the duals of any stored cut of its instance, an origin at a time, gives one after another, and can
//! hold a second one beside it. Costs are in 10^-12.
//!
//! In order: `value_rooms` (duals by values), `held_duals` (a copy of one, or an unpacked one), `lenders` (duals of any
//! stored cut).
#![tactic(auto)]

mod held_duals;
mod lenders;
mod value_rooms;

pub use lenders::DualLender;
