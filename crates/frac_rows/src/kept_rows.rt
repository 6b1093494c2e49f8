//! The tableau of a linear program, with its pivots and simplex runs.

ghost use Rattle.std.specs.Prelude.{◌≡◌, ◌+◌, ◌*◌, ◌^◌, ◌<◌, ◌≤◌, ◌<ℤ◌, pos, true, false, length, slice_index, unsigned_abs, All, IfOk, OnOk, OnErr, OnSome, IfSome, IsNone};
ghost use Rattle.frac_rows.specs.Rows.{widest, number, row_at, objective, after_pivot, is_wide, entering, IsTable};
ghost use Rattle.frac_rows.specs.Runs.{step, goes, ends, ended_by, run};
ghost use Rattle.frac_rows.specs.Starts.{start};
ghost use Rattle.frac_rows.specs.Stored.{columns_of};

use crate::columns::Columns;
use crate::entering::{Entering, Pivot, write_entering};
use crate::limits::MOST_PIVOTS;
use crate::rough_rows::margin_of;
use crate::starts::{first_rows, slacks, tops_of};
use crate::{Ended, Wide, entries, moves};
use std::alloc::{AllocError, Global};
use std::marker::Model;

/// A tableau. Of each row it stores a multiple of the numbers behind the variables. The rest follows from the columns.
#[derive(Drop)]
pub struct Rows {
    columns: Columns,
    numbers: Vec<i64>,
    spare: Vec<i64>,
    entering: Vec<i64>,
    basis: Vec<u32>,
    denominator: u64,
}

impl Model for Rows {
    ghost use Rattle.frac_rows.specs.Rows.{Table};
    ghost use Rattle.frac_rows.specs.Stored.{table_of, IsRoomy};

    ghost Value = { Table };

    ghost view = { λ s. table_of s.columns s.numbers.items s.basis.items };

    ghost invariant = { λ s. IsRoomy s.columns s.numbers.items s.spare.items s.entering.items s.basis.items };
}

impl Rows {
    /// The tableau before the first pivot. The numbers of the variables come row by row: a row for each constraint, and
    /// last what v loses by each.
    pub fn start(
        alloc: Global,
        numbers: Vec<i32>,
        variables: usize,
        rights: &[i64],
    ) -> Result<Rows, AllocError>
        requires long { length numbers.items ≡ (length rights.now + 1) * variables }
        requires rights_limit { All (λ x. unsigned_abs x ≤ widest) rights.now }
        requires few { variables + length rights.now + 1 < 2 ^ 32 }
        ensures { IfOk result (λ t. t ≡ start (columns_of (length rights.now + 1) variables numbers.items) rights.now) }
    {
        let height = rights.len() + 1;
        let tops = tops_of(alloc, &numbers, variables, height)?;
        let margin = margin_of(&tops);
        let kept = first_rows(alloc, rights)?;
        let spare = kept.to_vec(alloc)?;
        let entering = vec![in alloc; 0; height]?;
        let basis = slacks(alloc, variables, rights.len())?;
        Ok(Rows {
            columns: Columns::new(numbers, tops, margin, variables, height),
            numbers: kept,
            spare,
            entering,
            basis,
            denominator: 1,
        })
    }

    /// The number of constraint rows.
    pub fn constraints(&self) -> usize
        ensures value { result ≡ length self.now.basis }
        ensures table { IsTable self.now }
    {
        self.basis.len()
    }

    /// The number of columns, including those of v and of the right side.
    pub fn columns(&self) -> usize
        ensures value { result ≡ length (objective self.now) }
        ensures table { IsTable self.now }
    {
        self.columns.variables() + self.columns.height() + 1
    }

    /// The number in this row and column. The objective row comes after those of the constraints.
    pub fn entry(&self, row: usize, column: usize) -> i64
        requires row { row ≤ length self.now.basis }
        requires column { column < length (objective self.now) }
        ensures { result ≡ number (row_at self.now row) column }
    {
        entries::entry(&self.columns, &self.numbers, row, column)
    }

    /// The basic column of the constraint row.
    pub fn basic(&self, row: usize) -> u32
        requires { row < length self.now.basis }
        ensures { result ≡ slice_index self.now.basis row }
    {
        self.basis[row]
    }

    /// Pivots on the row and the column. It fails, without a change, where the next tableau would have a number above
    /// the limit.
    pub fn pivot(&mut self, row: usize, column: usize) -> Result<(), Wide>
        requires row { row < length self.old.basis }
        requires column { column + 2 < length (objective self.old) }
        requires above { pos 0 <ℤ number (row_at self.old row) column }
        ensures ok { OnOk result (self.new ≡ after_pivot self.old row column) }
        ensures ok_narrow { OnOk result (is_wide self.new ≡ false) }
        ensures err { OnErr result (is_wide (after_pivot self.old row column) ≡ true) }
        ensures err_same { OnErr result (self.new ≡ self.old) }
    {
        write_entering(&self.columns, &self.numbers, column, &mut self.entering);
        let numbers = &self.entering;
        let entering = Entering { column, numbers };
        self.denominator = moves::pivot_on(
            &self.columns,
            &mut self.numbers,
            &mut self.spare,
            &mut self.basis,
            &Pivot { entering, row },
            self.denominator,
        )?;
        Ok(())
    }

    /// Runs the simplex by Bland's rule (Bland 1977) until the tableau is optimal, no pivot can be made, or the limit
    /// on pivots is reached. It returns which of these it was, and the number of pivots made.
    pub fn run(&mut self) -> (Ended, u32)
        ensures { run self.old ≡ record { table = self.new; ended = result.0; pivots = result.1 } }
    {
        for made in 0..MOST_PIVOTS {
            if let Some(ended) = self.step() {
                return (ended, made);
            }
        }
        (self.ending(), MOST_PIVOTS)
    }

    // One step of a run: how it ends, if it does.
    fn step(&mut self) -> Option<Ended>
        ensures goes { IsNone result → step self.old ≡ goes self.new }
        ensures ends { IfSome result (λ e. step self.old ≡ ends e) }
        ensures same { OnSome result (self.new ≡ self.old) }
    {
        let (ended, denominator) = moves::advance(
            &self.columns,
            &mut self.numbers,
            &mut self.spare,
            &mut self.entering,
            &mut self.basis,
            self.denominator,
        );
        self.denominator = denominator;
        ended
    }

    // How a run ends where no further pivot is allowed.
    fn ending(&self) -> Ended
        ensures { result ≡ ended_by (entering self.now) }
    {
        moves::ending(&self.columns, &self.numbers)
    }
}
