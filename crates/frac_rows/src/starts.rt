//! The stored part of the tableau before the first pivot.

ghost use Rattle.std.specs.Prelude.{◌≡◌, ℕ, ◌+◌, ◌*◌, ◌^◌, ◌<◌, ◌≤◌, length, unsigned_abs, All, IfOk};
ghost use Rattle.std.specs.List.{range_with_len};
ghost use Rattle.frac_rows.specs.Rows.{number};
ghost use Rattle.frac_rows.specs.Starts.{own_numbers};
ghost use Rattle.frac_rows.specs.Stored.{AreTops, AreFirst};

use crate::parts::row_at;
use std::alloc::{AllocError, Global};

/// For each row the greatest size of its numbers, where the numbers of the variables stand row by row.
pub(crate) fn tops_of(
    alloc: Global,
    numbers: &[i32],
    variables: usize,
    height: usize,
) -> Result<Vec<u64>, AllocError>
    requires long { length numbers.now ≡ height * variables }
    requires few { height < 2 ^ 32 }
    ensures tops { IfOk result (λ tops. AreTops height variables numbers.now tops.items) }
    ensures limit { IfOk result (λ tops. All (λ t. t ≤ 2 ^ 32) tops.items) }
{
    let mut tops = Vec::with_capacity(alloc, height)?;
    for k in 0..height {
        tops.push(top_of(row_at(numbers, variables, k)))?;
    }
    Ok(tops)
}

// The greatest size of the numbers; 0 where there are none. It is that of the least or the greatest of them, which are
// found faster than the sizes.
fn top_of(row: &[i32]) -> u64
    ensures limit { result ≤ 2 ^ 32 }
    ensures above { All (λ x. unsigned_abs x ≤ result) row.now }
    ensures least { (b : ℕ) → All (λ x. unsigned_abs x ≤ b) row.now → result ≤ b }
{
    let mut low = 0i32;
    let mut high = 0i32;
    for x in row {
        low = low.min(*x);
        high = high.max(*x);
    }
    u64::from(low.unsigned_abs().max(high.unsigned_abs()))
}

/// The numbers of all rows behind the variables: a unit of the slacks and v, and the right side.
pub(crate) fn first_rows(alloc: Global, rights: &[i64]) -> Result<Vec<i64>, AllocError>
    requires { length rights.now + 1 < 2 ^ 32 }
    ensures long { IfOk result
        (λ numbers. length numbers.items ≡ (length rights.now + 1) * (length rights.now + 2)) }
    ensures rows { IfOk result (λ numbers. AreFirst rights.now (length rights.now + 1) numbers.items) }
{
    let height = rights.len() + 1;
    let mut numbers = vec![in alloc; 0; height * (height + 1)]?;
    write_rows(rights, &mut numbers);
    Ok(numbers)
}

fn write_rows(rights: &[i64], numbers: &mut [i64])
    requires long { length numbers.old ≡ (length rights.now + 1) * (length rights.now + 2) }
    ensures { AreFirst rights.now (length rights.now + 1) numbers.new }
{
    let width = rights.len() + 2;
    for i in 0..width - 1 {
        write_row(rights, i, &mut numbers[i * width..i * width + width]);
    }
}

fn write_row(rights: &[i64], i: usize, out: &mut [i64])
    requires { length out.old ≡ length rights.now + 2 }
    ensures { out.new ≡ own_numbers rights.now i }
{
    for k in 0..out.len() {
        out[k] = own_number(rights, i, k);
    }
}

fn own_number(rights: &[i64], i: usize, k: usize) -> i64
    requires { k ≤ length rights.now + 1 }
    ensures { result ≡ number (own_numbers rights.now i) k }
{
    if k > rights.len() {
        return right_side(rights, i);
    }
    if k == i {
        return 1;
    }
    0
}

// The right side of the row; the objective row has none.
fn right_side(rights: &[i64], i: usize) -> i64
    ensures { result ≡ number rights.now i }
{
    if i < rights.len() {
        return rights[i];
    }
    0
}

/// The columns of the slacks.
pub(crate) fn slacks(alloc: Global, variables: usize, count: usize) -> Result<Vec<u32>, AllocError>
    requires { variables + count < 2 ^ 32 }
    ensures { IfOk result (λ basis. basis.items ≡ range_with_len variables count) }
{
    let mut basis = Vec::with_capacity(alloc, count)?;
    for i in 0..count {
        basis.push((variables + i) as u32)?;
    }
    Ok(basis)
}
