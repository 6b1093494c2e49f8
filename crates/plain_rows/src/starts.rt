//! The rows before the first pivot.

ghost use Rattle.std.specs.Prelude.{◌≡◌, ◌+◌, ◌*◌, ◌^◌, ◌<◌, ◌≤◌, ◌∷◌, ◌++◌, [], length, pos, IfOk};
ghost use Rattle.std.specs.List.{range_with_len};
ghost use Rattle.frac_rows.specs.Rows.{number};
ghost use Rattle.plain_rows.specs.Flat.{AreFirst};

use crate::parts::part;
use std::alloc::{AllocError, Global};

/// The kept numbers of all rows, one row after another. The numbers of the variables are given row by row.
pub(crate) fn first_rows(
    alloc: Global,
    given: &[i64],
    variables: usize,
    rights: &[i64],
) -> Result<Vec<i64>, AllocError>
    requires long { length given.now ≡ (length rights.now + 1) * variables }
    requires few { variables + length rights.now + 2 < 2 ^ 32 }
    ensures long { IfOk result (λ numbers. length numbers.items ≡ (length rights.now + 1) * (variables + 2)) }
    ensures rows { IfOk result (λ numbers. AreFirst variables given.now rights.now (length rights.now + 1) numbers.items) }
{
    let height = rights.len() + 1;
    let mut numbers = vec![in alloc; 0; height * (variables + 2)]?;
    write_rows(given, variables, rights, &mut numbers);
    Ok(numbers)
}

fn write_rows(given: &[i64], variables: usize, rights: &[i64], numbers: &mut [i64])
    requires long { length given.now ≡ (length rights.now + 1) * variables }
    requires room { length numbers.old ≡ (length rights.now + 1) * (variables + 2) }
    ensures long { length numbers.new ≡ length numbers.old }
    ensures rows { AreFirst variables given.now rights.now (length rights.now + 1) numbers.new }
{
    let width = variables + 2;
    for i in 0..rights.len() + 1 {
        let out = &mut numbers[i * width..i * width + width];
        write_row(part(given, variables, i), first_right(rights, i), out);
    }
}

// Writes the numbers of the variables, the right side, and 1 for the row's own column.
fn write_row(row: &[i64], right: i64, out: &mut [i64])
    requires room { length out.old ≡ length row.now + 2 }
    ensures { out.new ≡ row.now ++ right ∷ pos 1 ∷ [] }
{
    for k in 0..row.len() {
        out[k] = row[k];
    }
    out[row.len()] = right;
    out[row.len() + 1] = 1;
}

// The right side of the row `i`; the objective row has 0.
fn first_right(rights: &[i64], i: usize) -> i64
    requires { i ≤ length rights.now }
    ensures { result ≡ number rights.now i }
{
    if i < rights.len() {
        return rights[i];
    }
    0
}

/// So many numbers from this one on.
pub(crate) fn numbered(alloc: Global, first: usize, count: usize) -> Result<Vec<u32>, AllocError>
    requires { first + count < 2 ^ 32 }
    ensures { IfOk result (λ list. list.items ≡ range_with_len first count) }
{
    let mut list = Vec::with_capacity(alloc, count)?;
    for i in 0..count {
        list.push((first + i) as u32)?;
    }
    Ok(list)
}
