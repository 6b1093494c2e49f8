//! A linear program in its usual form, laid out as a tableau.

ghost use Rattle.std.specs.Prelude.{◌≡◌, ◌+◌, ◌*◌, ◌<◌, ◌≤◌, length, map, unsigned_abs, All, IfOk};
ghost use Rattle.frac_rows.specs.Rows.{widest, number, right_side, AreNarrow};
ghost use Rattle.plain_rows.specs.Plain.{column_of, IsConstraint, IsProgram, AreGiven, IsGivenRow};

use std::alloc::{AllocError, Global};

/// The numbers of the variables, row by row: a row for each constraint, and last what v loses by each.
pub(crate) fn given_numbers(
    alloc: Global,
    constraints: &[Vec<i128>],
    objective: &[i128],
) -> Result<Vec<i64>, AllocError>
    requires { IsProgram (map (λ v. v.items) constraints.now) objective.now }
    ensures long { IfOk result (λ given. length given.items ≡ (length constraints.now + 1) * length objective.now) }
    ensures rows { IfOk result (λ given.
        AreGiven (map (λ v. v.items) constraints.now) objective.now (length constraints.now + 1) given.items) }
{
    let height = constraints.len() + 1;
    let mut given = vec![in alloc; 0; height * objective.len()]?;
    write_rows(constraints, objective, &mut given);
    Ok(given)
}

fn write_rows(constraints: &[Vec<i128>], objective: &[i128], given: &mut [i64])
    requires program { IsProgram (map (λ v. v.items) constraints.now) objective.now }
    requires long { length given.old ≡ (length constraints.now + 1) * length objective.now }
    ensures long { length given.new ≡ length given.old }
    ensures rows { AreGiven (map (λ v. v.items) constraints.now) objective.now (length constraints.now + 1) given.new }
{
    let width = objective.len();
    for i in 0..constraints.len() + 1 {
        let out = &mut given[i * width..i * width + width];
        write_row(constraints, objective, i, out);
    }
}

// Writes the row `i`; the objective row is behind those of the constraints.
fn write_row(constraints: &[Vec<i128>], objective: &[i128], i: usize, out: &mut [i64])
    requires program { IsProgram (map (λ v. v.items) constraints.now) objective.now }
    requires row { i ≤ length constraints.now }
    requires room { length out.old ≡ length objective.now }
    ensures { IsGivenRow (map (λ v. v.items) constraints.now) objective.now i out.new }
{
    for k in 0..out.len() {
        out[k] = variable_number(constraints, objective, i, k);
    }
}

// The number of the variable `k` in the row `i`: what v loses by it, in the objective row.
fn variable_number(constraints: &[Vec<i128>], objective: &[i128], i: usize, k: usize) -> i64
    requires program { IsProgram (map (λ v. v.items) constraints.now) objective.now }
    requires row { i ≤ length constraints.now }
    requires column { k < length objective.now }
    ensures value { result ≡ number (column_of (map (λ v. v.items) constraints.now) objective.now k) i }
    ensures size { unsigned_abs result ≤ widest }
{
    if i < constraints.len() {
        return narrow_number(&constraints[i], k);
    }
    -narrow_number(objective, k)
}

/// The right sides of the constraints.
pub(crate) fn rights_of(
    alloc: Global,
    constraints: &[Vec<i128>],
    variables: usize,
) -> Result<Vec<i64>, AllocError>
    requires { All (IsConstraint variables) (map (λ v. v.items) constraints.now) }
    ensures { IfOk result (λ rights. rights.items ≡ map right_side (map (λ v. v.items) constraints.now)) }
{
    let mut rights = Vec::with_capacity(alloc, constraints.len())?;
    for i in 0..constraints.len() {
        rights.push(right_of(constraints, variables, i))?;
    }
    Ok(rights)
}

// The right side of the constraint `i`.
fn right_of(constraints: &[Vec<i128>], variables: usize, i: usize) -> i64
    requires each { All (IsConstraint variables) (map (λ v. v.items) constraints.now) }
    requires row { i < length constraints.now }
    ensures { result ≡ number (map right_side (map (λ v. v.items) constraints.now)) i }
{
    narrow_number(&constraints[i], variables)
}

// The number at the place `k`, which is within the limit of a table.
fn narrow_number(row: &[i128], k: usize) -> i64
    requires narrow { AreNarrow row.now }
    requires place { k < length row.now }
    ensures value { result ≡ number row.now k }
    ensures size { unsigned_abs result ≤ widest }
{
    row[k] as i64
}
