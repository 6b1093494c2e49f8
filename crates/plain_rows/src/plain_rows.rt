//! The tableau of a small linear program, with its simplex runs.

ghost use Rattle.std.specs.Prelude.{◌≡◌, ◌+◌, ◌*◌, ◌^◌, ◌<◌, ◌≤◌, length, map, slice_index, unsigned_abs, IfOk, OnSome, IfSome, IsNone};
ghost use Rattle.frac_rows.specs.Rows.{widest, number, row_at, objective, entering, IsTable, AreNarrow};
ghost use Rattle.frac_rows.specs.Runs.{step, goes, ends, ended_by, run};
ghost use Rattle.frac_rows.specs.Starts.{start};
ghost use Rattle.frac_rows.specs.Stored.{columns_of};
ghost use Rattle.plain_rows.specs.Plain.{plain_table, IsProgram};

use crate::entries::{owner_of, write_spread};
use crate::given::{given_numbers, rights_of};
use crate::parts::part;
use crate::starts::{first_rows, numbered};
use crate::{entries, pivots};
use frac_rows::{Ended, MOST_PIVOTS};
use std::alloc::{AllocError, Global};
use std::marker::Model;

/// A tableau of whole numbers of at most 2^62 in absolute value. Of each row it stores the numbers of the nonbasic
/// columns, the right side, and the number in the row's own basic column.
#[derive(Drop)]
pub struct PlainRows {
    // The rows of the constraints and last the objective row, one after another.
    numbers: Vec<i64>,
    // Room for those of the next table.
    spare: Vec<i64>,
    // Room for what a pivot takes from the rows.
    base: Vec<i64>,
    // The columns outside the basis.
    outside: Vec<u32>,
    basis: Vec<u32>,
}

impl Model for PlainRows {
    ghost use Rattle.frac_rows.specs.Rows.{Table};
    ghost use Rattle.plain_rows.specs.Flat.{table_of, IsRoomy};

    ghost Value = { Table };

    ghost view = { λ s. table_of s.outside.items s.numbers.items s.basis.items };

    ghost invariant = { λ s. IsRoomy s.outside.items s.numbers.items s.spare.items s.base.items s.basis.items };
}

impl PlainRows {
    /// The tableau of a linear program before the first pivot. Each constraint has the numbers of the variables and
    /// then its right side. The objective, which is maximised, has those of the variables alone. Each constraint gets a
    /// slack, in order, and the slacks are basic.
    pub fn new(
        alloc: Global,
        constraints: &[Vec<i128>],
        objective: &[i128],
    ) -> Result<PlainRows, AllocError>
        requires { IsProgram (map (λ v. v.items) constraints.now) objective.now }
        ensures { IfOk result (λ t. t ≡ plain_table (map (λ v. v.items) constraints.now) objective.now) }
    {
        let given = given_numbers(alloc, constraints, objective)?;
        let rights = rights_of(alloc, constraints, objective.len())?;
        PlainRows::start(alloc, &given, objective.len(), &rights)
    }

    /// The tableau before the first pivot, from numbers row by row: a row for each constraint, and last what v loses by
    /// each variable.
    pub fn start(
        alloc: Global,
        given: &[i64],
        variables: usize,
        rights: &[i64],
    ) -> Result<PlainRows, AllocError>
        requires long { length given.now ≡ (length rights.now + 1) * variables }
        requires given_limit { AreNarrow given.now }
        requires rights_limit { AreNarrow rights.now }
        requires few { variables + length rights.now + 2 < 2 ^ 32 }
        ensures { IfOk result (λ t. t ≡ start (columns_of (length rights.now + 1) variables given.now) rights.now) }
    {
        let numbers = first_rows(alloc, given, variables, rights)?;
        let spare = numbers.to_vec(alloc)?;
        let base = vec![in alloc; 0; variables + 2]?;
        let outside = numbered(alloc, 0, variables)?;
        let basis = numbered(alloc, variables, rights.len())?;
        Ok(PlainRows {
            numbers,
            spare,
            base,
            outside,
            basis,
        })
    }

    /// The number of constraint rows.
    pub fn constraints(&self) -> usize
        ensures value { result ≡ length self.now.basis }
        ensures table { IsTable self.now }
    {
        self.basis.len()
    }

    /// The number of columns, including those of v and of the right side.
    pub fn columns(&self) -> usize
        ensures value { result ≡ length (objective self.now) }
        ensures table { IsTable self.now }
    {
        self.outside.len() + self.basis.len() + 2
    }

    /// The number in this row and column. The objective row comes after those of the constraints.
    pub fn entry(&self, row: usize, column: usize) -> i128
        requires row { row ≤ length self.now.basis }
        requires column { column < length (objective self.now) }
        ensures { result ≡ number (row_at self.now row) column }
    {
        i128::from(self.number(row, column))
    }

    /// The number in this row and column, which fits 64 bits.
    pub fn number(&self, row: usize, column: usize) -> i64
        requires row { row ≤ length self.now.basis }
        requires column { column < length (objective self.now) }
        ensures value { result ≡ number (row_at self.now row) column }
        ensures size { unsigned_abs result ≤ widest }
    {
        let kept = part(&self.numbers, self.outside.len() + 2, row);
        let v = self.outside.len() + self.basis.len();
        entries::number(
            &self.outside,
            kept,
            owner_of(&self.basis, v, row),
            v,
            column,
        )
    }

    /// The numbers of the row in all columns.
    pub fn row(&self, alloc: Global, row: usize) -> Result<Vec<i64>, AllocError>
        requires { row ≤ length self.now.basis }
        ensures { IfOk result (λ numbers. numbers.items ≡ row_at self.now row) }
    {
        let kept = part(&self.numbers, self.outside.len() + 2, row);
        let v = self.outside.len() + self.basis.len();
        let mut numbers = vec![in alloc; 0; v + 2]?;
        write_spread(
            &self.outside,
            kept,
            owner_of(&self.basis, v, row),
            v,
            &mut numbers,
        );
        Ok(numbers)
    }

    /// The basic column of the constraint row.
    pub fn basic(&self, row: usize) -> u32
        requires { row < length self.now.basis }
        ensures { result ≡ slice_index self.now.basis row }
    {
        self.basis[row]
    }

    /// Runs the simplex by Bland's rule (Bland 1977) until the tableau is optimal, no pivot can be made, or the limit
    /// on pivots is reached. It returns which of these it was, and the number of pivots made. It allocates nothing.
    pub fn run(&mut self) -> (Ended, u32)
        ensures { run self.old ≡ record { table = self.new; ended = result.0; pivots = result.1 } }
    {
        for made in 0..MOST_PIVOTS {
            if let Some(ended) = self.step() {
                return (ended, made);
            }
        }
        (self.ending(), MOST_PIVOTS)
    }

    // One step of a run: how it ends, if it does.
    fn step(&mut self) -> Option<Ended>
        ensures goes { IsNone result → step self.old ≡ goes self.new }
        ensures ends { IfSome result (λ e. step self.old ≡ ends e) }
        ensures same { OnSome result (self.new ≡ self.old) }
    {
        pivots::advance(
            &mut self.numbers,
            &mut self.spare,
            &mut self.base,
            &mut self.outside,
            &mut self.basis,
        )
    }

    // How a run ends where no further pivot is allowed.
    fn ending(&self) -> Ended
        ensures { result ≡ ended_by (entering self.now) }
    {
        pivots::ending(&self.numbers, &self.outside, &self.basis)
    }
}
