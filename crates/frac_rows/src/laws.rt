//! Laws of tableaux and simplex runs.

ghost use Rattle.frac_rows.specs.Theorems.{GreatestDivisor, FirstIsTable, LeavingIsLeast, LeastLeaves, SameSolutions, SolutionsStay, RightsStay, BasisStays, ObjectiveStays};
ghost use Rattle.frac_rows.specs.Theorems.{BestIsBest, SomeBasicSolution, BasicSolves, LastIsAdmissible, LastIsOptimal};

/// The divisor of a row is the greatest common divisor of its numbers.
pub fn greatest_divisor()
    ensures { GreatestDivisor }
{}

/// The other laws hold for the tableau before the first pivot.
pub fn first_is_table()
    ensures { FirstIsTable }
{}

/// The leaving row has the least ratio of right side to number; ties go to the least basic column.
pub fn leaving_is_least()
    ensures { LeavingIsLeast }
{}

/// Where no two constraint rows share a basic column, the row with the least ratio is unique, and it leaves.
pub fn least_leaves()
    ensures { LeastLeaves }
{}

/// A pivot changes no solution.
pub fn same_solutions()
    ensures { SameSolutions }
{}

/// A run changes no solution: its last tableau has the solutions of its first.
pub fn solutions_stay()
    ensures { SolutionsStay }
{}

/// Right sides that are not negative stay so through a run.
pub fn rights_stay()
    ensures { RightsStay }
{}

/// Through a run each constraint row has a positive number in its basic column, where the other rows have 0.
pub fn basis_stays()
    ensures { BasisStays }
{}

/// Through a run the column of v has a positive number in the objective row, and 0 in the others.
pub fn objective_stays()
    ensures { ObjectiveStays }
{}

/// Where a run ends optimal, no feasible solution has a greater objective than the last tableau shows.
pub fn best_is_best()
    ensures { BestIsBest }
{}

/// A tableau with such a basis has a basic solution.
pub fn some_basic_solution()
    ensures { SomeBasicSolution }
{}

/// A basic solution solves the tableau.
pub fn basic_solves()
    ensures { BasicSolves }
{}

/// However a run ends, the basic solution of its last tableau is feasible for its first.
pub fn last_is_admissible()
    ensures { LastIsAdmissible }
{}

/// Where a run ends optimal, that basic solution is optimal.
pub fn last_is_optimal()
    ensures { LastIsOptimal }
{}
