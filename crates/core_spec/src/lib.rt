//! Domination between Benders cuts, and Pareto-optimal cuts (Magnanti and Wong 1981), as definitions.
//!
//! A cut bounds the routing cost of a set of open candidates from below: by its total less its loads, over its part.
//! It dominates another cut if its bound is no less for any set and greater for some. A Pareto-optimal cut comes with a
//! proof for each commodity, and no cut that is tight at the same hubs dominates it. The definitions stand in `specs/`, in
//! the order of reading: `Domination`, `CoreCuts`, `Theorems`. There is no code: each function is empty, and its contract is
//! a theorem. Costs are in 10^-12; nodes count from 0.
#![tactic(auto)]

ghost use Rattle.core_spec.specs.Theorems.{CoreIsTight, CoreIsUndominated, CoreIsScaled};

/// A Pareto-optimal cut is tight: at its hubs it equals their routing cost.
pub fn core_is_tight()
    ensures { CoreIsTight }
{}

/// No cut that is tight at the hubs of a Pareto-optimal cut dominates it.
pub fn core_is_undominated()
    ensures { CoreIsUndominated }
{}

/// A Pareto-optimal dual scaled to a greater part is Pareto-optimal by the same proof.
pub fn core_is_scaled()
    ensures { CoreIsScaled }
{}
