//! Whole rows.

/// A whole row: what is kept of it, and the columns that the numbers of the variables follow from.
#[derive(Clone, Copy)]
pub(crate) struct WholeRow<'a> {
    /// The numbers of the variables, row by row.
    pub(crate) numbers: &'a [i32],
    /// For each row the greatest size of its numbers.
    pub(crate) tops: &'a [u64],
    pub(crate) variables: usize,
    pub(crate) row: &'a [i64],
}
