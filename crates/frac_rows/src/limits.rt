//! The limits of tableaux and runs.

/// The greatest absolute value of a number in a tableau.
pub const WIDEST: u64 = 1 << 62;

/// The most pivots of a run.
pub const MOST_PIVOTS: u32 = 2000;
