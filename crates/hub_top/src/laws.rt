//! Laws of whole runs: the verdict on what `solve` and `optimize` write, one text for each search, one fault for each
//! input.

ghost use Rattle.hub_top.specs.Theorems.{BoundedIsBounds, OneCost, OneText, OptimizedIsOptimal, SolvedIsOptimal, StoppedIsBounds};
ghost use Rattle.hub_sources.specs.Theorems.{OneBlame};

/// A text of at most 2^30 bytes that solves an instance has exactly one verdict: `optimal`, with its cost.
pub fn solved_is_optimal()
    ensures { SolvedIsOptimal }
{}

/// A text of at most 2^30 bytes with which a search stops early has exactly one verdict: `bounds`, with its bound and
/// cost.
pub fn stopped_is_bounds()
    ensures { StoppedIsBounds }
{}

/// A text of at most 2^30 bytes that optimizes an instance has exactly one verdict: `optimal`, with its cost.
pub fn optimized_is_optimal()
    ensures { OptimizedIsOptimal }
{}

/// A text of at most 2^30 bytes in which `optimize` leaves a bound below the cost has exactly one verdict: `bounds`,
/// with its bound and cost.
pub fn bounded_is_bounds()
    ensures { BoundedIsBounds }
{}

/// Instance, version, node limit and method determine the text, whatever the workers.
pub fn one_text()
    ensures { OneText }
{}

/// All texts that solve one instance print the same cost: those of `solve` by each rule and kind of cuts, of `resolve`,
/// and of `optimize`.
pub fn one_cost()
    ensures { OneCost }
{}

/// The same files have at most one fault, of one file.
pub fn one_blame()
    ensures { OneBlame }
{}
