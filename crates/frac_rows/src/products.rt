//! Sums of products of a row's numbers with those of a column.

ghost use Rattle.std.specs.Prelude.{◌≡◌, ◌<◌, ◌≤◌, ◌-◌, ◌^◌, ◌*◌, ◌+ℤ◌, ◌*ℤ◌, length, min, unsigned_abs};
ghost use Rattle.std.specs.Int.{w64, w128, int_wrap};
ghost use Rattle.frac_rows.specs.Stored.{reach};
ghost use Rattle.frac_rows.specs.RoughRows.{number_of};

/// The row's number for the variable `j`, as far as it fits: the sum of the products of the row and the variable's
/// column. The numbers of the variables stand row by row.
pub(crate) fn sum_64(numbers: &[i32], variables: usize, row: &[i64], j: usize) -> i64
    requires some { 1 ≤ length row.now }
    requires long { length numbers.now ≡ (length row.now - 1) * variables }
    requires within { j < variables }
    ensures { result ≡ int_wrap w64 (number_of variables numbers.now row.now j) }
{
    let mut sum = 0;
    for k in 0..row.len() - 1 {
        sum = wrapped_64(sum, row[k], i64::from(numbers[k * variables + j]));
    }
    sum
}

fn wrapped_64(sum: i64, a: i64, b: i64) -> i64
    ensures { result ≡ int_wrap w64 (sum +ℤ a *ℤ b) }
{
    sum.wrapping_add(a.wrapping_mul(b))
}

/// The same in twice the bits, for a row that may have a number beyond the limit.
pub(crate) fn sum_128(numbers: &[i32], variables: usize, row: &[i64], j: usize) -> i128
    requires some { 1 ≤ length row.now }
    requires long { length numbers.now ≡ (length row.now - 1) * variables }
    requires within { j < variables }
    ensures { result ≡ int_wrap w128 (number_of variables numbers.now row.now j) }
{
    let mut sum = 0;
    for k in 0..row.len() - 1 {
        sum = wrapped_128(sum, row[k], i64::from(numbers[k * variables + j]));
    }
    sum
}

fn wrapped_128(sum: i128, a: i64, b: i64) -> i128
    ensures { result ≡ int_wrap w128 (sum +ℤ a *ℤ b) }
{
    sum.wrapping_add(i128::from(a).wrapping_mul(i128::from(b)))
}

/// What the sum of the products of the row and a column is at most in size, where the column's sizes are at most these.
pub(crate) fn reach(row: &[i64], tops: &[u64]) -> u128
    requires { length tops.now ≤ length row.now }
    ensures { result ≡ min (2 ^ 128 - 1) (reach row.now tops.now) }
{
    let mut sum = 0u128;
    for k in 0..tops.len() {
        sum = sum.saturating_add(size_product(row[k], tops[k]));
    }
    sum
}

pub(crate) fn size_product(x: i64, top: u64) -> u128
    ensures { result ≡ unsigned_abs x * top }
{
    u128::from(x.unsigned_abs()) * u128::from(top)
}
