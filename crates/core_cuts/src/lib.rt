//! Pareto-optimal cuts of a hub set (Magnanti and Wong 1981): for each commodity a dual from an exact linear program,
//! with its proof.
//!
//! They are read off the last tableau of a linear program, whose constraints are those of a dual's price and values
//! by unit of flow. The tableau's rows are combinations of the first rows, and its basic solution solves them
//! (`runs`). Whether the tableau is optimal is tested, not trusted.
//!
//! The modules build on one another in this order. `edges` and `ways` have the ways of a commodity, and what they
//! cost. `tables` and `problems` have the tableau before the first pivot. `ratios` has the basic solution of the last
//! tableau, `least_parts` the part that makes it whole. `unit_prices` has price and values by unit of flow, times the
//! part; `readings` has these of a tableau. `taken_ways` and `table_proofs` have what proves the dual. `core_duals`
//! has the dual of one commodity.
//!
//! For a cut, `mirrors` finds the dual of a commodity, and that of its way back where one linear program gives both.
//! `ahead` has the duals that are known before their commodity comes in order, `found_duals` those of all
//! commodities. `common_parts` has the least part that they have in common. `brought_duals` has one of them with that
//! part, `brought_cuts` all of them, within the limits of a certificate. `found_cuts` has the cut of a hub set. The
//! functions below are empty: the contract of each is a theorem on what is found.
#![tactic(auto)]

mod ahead;
mod brought_cuts;
mod brought_duals;
mod common_parts;
mod core_duals;
mod edges;
mod found_cuts;
mod found_duals;
mod least_parts;
mod mirrors;
mod problems;
mod ratios;
mod readings;
mod runs;
mod table_proofs;
mod tables;
mod taken_ways;
mod unit_prices;
mod ways;

ghost use Rattle.core_cuts.specs.Theorems.{FoundIsCore, FoundIsOne, FoundOrNot, FoundIsFunction, FoundInOrder, CoredIsCore, CoredIsFunction, CoredServes};

pub use core_duals::{CoreDual, core_dual};
pub use found_cuts::core_cut;
pub use runs::{
    balanced_is_core, best_is_balanced, best_is_cover, core_is_narrow, ordered_covers,
    reading_is_core, run_combines,
};

/// A found dual is feasible, and Pareto-optimal by its proof.
pub fn found_is_core()
    ensures { FoundIsCore }
{}

/// A found dual is unique.
pub fn found_is_one()
    ensures { FoundIsOne }
{}

/// A dual that is found is not also declared not found.
pub fn found_or_not()
    ensures { FoundOrNot }
{}

/// The found dual is a function of the instance, the hubs and the commodity.
pub fn found_is_function()
    ensures { FoundIsFunction }
{}

/// The edges of a found proof are in the order of a certificate's line.
pub fn found_in_order()
    ensures { FoundInOrder }
{}

/// The cut found for a hub set is Pareto-optimal by its mark.
pub fn cored_is_core()
    ensures { CoredIsCore }
{}

/// The cut found for a hub set is a function of the instance and the hubs.
pub fn cored_is_function()
    ensures { CoredIsFunction }
{}

/// The cut found for a hub set is within the ranges of a certificate, and tight at the hubs.
pub fn cored_serves()
    ensures { CoredServes }
{}
