//! Exact, fraction-free simplex: tableaux of whole numbers, pivots, and runs by Bland's rule.
//!
//! [`Rows`] is a table: a row for each constraint and last the objective row; a column for each variable, then for
//! the slack of each constraint, then for the objective's value v, and last the right side. Each constraint row has a
//! basic column, at first its slack. A row stands for an equation times a whole number above 0, so nothing is ever
//! rounded: a pivot takes from each other row what the pivot's row has there, and divides it by the greatest divisor
//! of its numbers.
//!
//! [`Rows::run`] pivots by a rule of its own: the first column that improves v enters, the least ratio leaves. It
//! ends with [`Ended`] best, too wide, or after [`MOST_PIVOTS`]. No number of a table is above [`WIDEST`] in size.
//! The laws state what a run's last table says of the solutions of the first.
//!
//! Of a row only the numbers behind those of the variables are kept; the others follow from the columns of the
//! variables, which must be small. Where they may be wide, `plain_rows` makes the same runs. Memory is allocated at
//! the start alone. The crate knows no hubs.
#![tactic(auto)]

mod choices;
mod columns;
mod divisors;
mod ended;
mod entering;
mod entries;
mod follows;
mod kept_rows;
mod laws;
mod limits;
mod moves;
mod multipliers;
mod parts;
mod pricing;
mod products;
mod rough_rows;
mod starts;
mod steps;
mod tables;
mod whole_rows;
mod widths;

pub use ended::{Ended, Wide};
pub use kept_rows::Rows;
pub use laws::{
    basic_solves, basis_stays, best_is_best, first_is_table, greatest_divisor, last_is_admissible,
    last_is_optimal, least_leaves, leaving_is_least, objective_stays, rights_stay, same_solutions,
    solutions_stay, some_basic_solution,
};
pub use limits::{MOST_PIVOTS, WIDEST};
