//! Reads instance files in the layouts `cab-matrix` and `cab-rows`, and costs files.
//!
//! A file in the matrix layout holds the number of nodes n, then n * n flows and n * n distances row by row, and
//! nothing more; an option says which of the two matrices is first. A file in the row layout holds n, and then a row
//! of two nodes, a flow and a distance for each pair of nodes, in any order. [`read_matrix`] and [`read_rows`] give the
//! parts of the instance, or the first fault in the order of tokens; [`read_costs`] gives the fixed costs of a costs
//! file.
#![tactic(auto)]

// The files as a whole.
mod costs;
mod matrix_layout;
mod row_layout;

// A list of numbers, what they are to be, and distances divided.
mod distances;
mod kinds;
mod lists;

// A row, and what rows say of their commodities.
mod pairs;
mod rows;

// What a file gives.
mod contents;

pub use costs::read_costs;
pub use matrix_layout::read_matrix;
pub use row_layout::read_rows;
