//! The columns of the variables, from which a whole row follows.

ghost use Rattle.std.specs.Prelude.{◌≡◌, ℕ, ◌+◌, ◌-◌, ◌*◌, ◌^◌, ◌<◌, ◌≤◌, false, length, List, map, ℤ, unsigned_abs, All, IsTrue, IfOk};
ghost use Rattle.std.specs.List.{position};
ghost use Rattle.frac_rows.specs.Rows.{number, first_negative, is_wide_row, AreNarrow};
ghost use Rattle.frac_rows.specs.Stored.{dot, columns_of, extended, Matrix, IsMatrix};
ghost use Rattle.frac_rows.specs.RoughRows.{AreSummed};

use crate::limits::WIDEST;
use crate::pricing::first_negative_of;
use crate::products::{size_product, sum_64};
use crate::widths::is_wide_of;
use std::marker::Model;

/// The numbers of the variables, row by row; for each row the greatest size of its numbers; and how far rough sums are
/// at most off, if there are such.
#[derive(Drop)]
pub(crate) struct Columns {
    numbers: Vec<i32>,
    tops: Vec<u64>,
    margin: Option<i32>,
    variables: usize,
    height: usize,
}

impl Model for Columns {
    ghost use Rattle.frac_rows.specs.Stored.{Matrix, columns_of};
    ghost use Rattle.frac_rows.specs.RoughRows.{AreSummed};

    ghost Value = { Matrix };

    ghost view = { λ s. record { height = s.height; columns = columns_of s.height s.variables s.numbers.items } };

    ghost invariant = { λ s. AreSummed s.height s.variables s.numbers.items s.tops.items s.margin };
}

impl Columns {
    /// These columns, which are taken as they are.
    pub(crate) fn new(
        numbers: Vec<i32>,
        tops: Vec<u64>,
        margin: Option<i32>,
        variables: usize,
        height: usize,
    ) -> Columns
        requires { AreSummed height variables numbers.items tops.items margin }
        ensures { result ≡ record { height = height; columns = columns_of height variables numbers.items } }
    {
        Columns {
            numbers,
            tops,
            margin,
            variables,
            height,
        }
    }

    /// How many rows there are, the objective row among them.
    pub(crate) fn height(&self) -> usize
        ensures value { result ≡ self.now.height }
        ensures limits { IsMatrix self.now }
    {
        self.height
    }

    pub(crate) fn variables(&self) -> usize
        ensures { result ≡ length self.now.columns }
    {
        self.variables
    }

    /// The number of the whole row in the column.
    pub(crate) fn entry(&self, row: &[i64], column: usize) -> i64
        requires long { length row.now ≡ self.now.height + 1 }
        requires narrow { AreNarrow (extended self.now.columns row.now) }
        requires within { column < length self.now.columns + self.now.height + 1 }
        ensures { result ≡ number (extended self.now.columns row.now) column }
    {
        entry_of(&self.numbers, self.variables, row, column)
    }

    /// The least column before v with a number below 0 in the whole row.
    pub(crate) fn first_negative(&self, row: &[i64]) -> Option<usize>
        requires long { length row.now ≡ self.now.height + 1 }
        requires narrow { AreNarrow (extended self.now.columns row.now) }
        ensures { result ≡ first_negative (extended self.now.columns row.now) }
    {
        first_negative_of(&self.numbers, &self.tops, self.margin, self.variables, row)
    }

    /// Returns whether no number of a whole row before those that are kept is too great, if no size of these is above
    /// this one. `false` leaves it open.
    pub(crate) fn stays_within(&self, most: u64) -> bool
        ensures { IsTrue result → (row : List ℤ) → All (λ x. unsigned_abs x ≤ most) row
            → is_wide_row (map (dot row) self.now.columns) ≡ false }
    {
        let Some(margin) = self.margin else {
            return false;
        };
        size_product(i64::from(margin), most) <= u128::from(WIDEST)
    }

    /// Whether a number of the whole row before those that are kept is too great.
    pub(crate) fn is_wide(&self, row: &[i64]) -> bool
        requires long { length row.now ≡ self.now.height + 1 }
        requires narrow { AreNarrow row.now }
        ensures { result ≡ is_wide_row (map (dot row.now) self.now.columns) }
    {
        is_wide_of(&self.numbers, &self.tops, self.margin, self.variables, row)
    }
}

/// The number in the column: a sum of products for a variable, and else one of the row's own.
pub(crate) fn entry_of(numbers: &[i32], variables: usize, row: &[i64], column: usize) -> i64
    requires some { 1 ≤ length row.now }
    requires long { length numbers.now ≡ (length row.now - 1) * variables }
    requires narrow { AreNarrow (extended (columns_of (length row.now - 1) variables numbers.now) row.now) }
    requires within { column < variables + length row.now }
    ensures { result ≡ number (extended (columns_of (length row.now - 1) variables numbers.now) row.now) column }
{
    if column < variables {
        return sum_64(numbers, variables, row, column);
    }
    row[column - variables]
}
