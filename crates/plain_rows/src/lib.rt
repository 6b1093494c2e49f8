//! The same exact simplex for few variables with wide numbers.
//!
//! It makes the runs of `frac_rows`, on tables whose numbers of the variables need not be small. Of each row it keeps the numbers
//! of the columns outside the basis, which are as many as the variables, where that crate keeps those of the slacks.
#![tactic(auto)]

mod choosing;
mod divisors;
mod eliminating;
mod entries;
mod given;
mod multipliers;
mod parts;
mod pivots;
mod plain_rows;
mod starts;

pub use plain_rows::PlainRows;
