//! What the last tableau of a run shows of the first: its rows are combinations of the first rows, and its basic
//! solution solves them. There is no code: each function is empty, and its contract is a theorem.

ghost use Rattle.core_cuts.specs.RunTheorems.{RunCombines, BestIsCover, BestIsBalanced, BalancedIsCore, OrderedCovers, CoreIsNarrow, ReadingIsCore};

/// Each row of the last tableau is a combination of the rows before the first pivot.
pub fn run_combines()
    ensures { RunCombines }
{}

/// The objective row of an optimal tableau of the core problem has a cover.
pub fn best_is_cover()
    ensures { BestIsCover }
{}

/// The basic solution of that tableau is feasible, and balanced by the cover.
pub fn best_is_balanced()
    ensures { BestIsBalanced }
{}

/// A tight dual that is balanced by a cover is Pareto-optimal by it.
pub fn balanced_is_core()
    ensures { BalancedIsCore }
{}

/// A cover stays one with its edges in the order of a proof line.
pub fn ordered_covers()
    ensures { OrderedCovers }
{}

/// The numbers of a commodity's core problem are within the limit of a tableau.
pub fn core_is_narrow()
    ensures { CoreIsNarrow }
{}

/// The dual read off an optimal tableau is Pareto-optimal if it is tight.
pub fn reading_is_core()
    ensures { ReadingIsCore }
{}
