//! How a simplex run ends.

/// How a simplex run ended.
#[derive(Clone, Copy, Debug, PartialEq, Eq)]
pub enum Ended {
    /// The tableau is optimal: the objective row has no negative number in a column.
    Best,
    /// The limit on pivots was reached.
    Turns,
    /// No row can leave the basis, or the next tableau would have a number above the limit.
    Wide,
}

/// The tableau after a pivot would have a number above the limit.
#[derive(Clone, Copy, Debug, PartialEq, Eq)]
pub struct Wide;
