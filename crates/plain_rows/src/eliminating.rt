//! One row after a pivot, divided by its greatest common divisor.

ghost use Rattle.std.specs.Prelude.{◌≡◌, ◌≤◌, ◌^◌, true, length, unsigned_abs, OnOk, OnErr};
ghost use Rattle.frac_rows.specs.Divisors.{gcd, divisor_of, reduced};
ghost use Rattle.frac_rows.specs.Rows.{eliminated, is_wide_row, AreNarrow};
ghost use Rattle.plain_rows.specs.Flat.{IsReduced};

use crate::divisors::{gcd_128, quotient};
use crate::multipliers::RowMultipliers;
use frac_rows::{WIDEST, Wide};

/// Makes of the row what it becomes, divided by its greatest common divisor, unless a number of it would be beyond the limit.
pub(crate) fn reduce(turn: RowMultipliers, base: &[i64], row: &mut [i64]) -> Result<(), Wide>
    requires as_long { length base.now ≡ length row.old }
    requires narrow { AreNarrow row.old }
    requires narrow_base { AreNarrow base.now }
    ensures long { length row.new ≡ length row.old }
    ensures row { OnOk result (row.new ≡ reduced (eliminated turn.own row.old turn.base base.now)) }
    ensures kept { OnOk result (IsReduced row.new) }
    ensures wide { OnErr result (is_wide_row (reduced (eliminated turn.own row.old turn.base base.now)) ≡ true) }
{
    let divisor = common_divisor(turn, row, base);
    if divisor == 1 {
        return eliminate(turn, base, row);
    }
    for k in 0..row.len() {
        let number = quotient(turn.cross(row[k], base[k]), divisor);
        if number.unsigned_abs() > u128::from(WIDEST) {
            return Err(Wide);
        }
        row[k] = number as i64;
    }
    Ok(())
}

// The same where nothing is to be divided.
fn eliminate(turn: RowMultipliers, base: &[i64], row: &mut [i64]) -> Result<(), Wide>
    requires as_long { length base.now ≡ length row.old }
    requires narrow { AreNarrow row.old }
    requires narrow_base { AreNarrow base.now }
    ensures long { length row.new ≡ length row.old }
    ensures row { OnOk result (row.new ≡ eliminated turn.own row.old turn.base base.now) }
    ensures kept { OnOk result (AreNarrow row.new) }
    ensures wide { OnErr result (is_wide_row (eliminated turn.own row.old turn.base base.now) ≡ true) }
{
    for k in 0..row.len() {
        row[k] = turn.narrow_cross(row[k], base[k])?;
    }
    Ok(())
}

// The greatest common divisor of what the row becomes.
fn common_divisor(turn: RowMultipliers, row: &[i64], base: &[i64]) -> u128
    requires as_long { length base.now ≡ length row.now }
    requires narrow { AreNarrow row.now }
    requires narrow_base { AreNarrow base.now }
    ensures value { result ≡ divisor_of (eliminated turn.own row.now turn.base base.now) }
    ensures size { result ≤ 2 ^ 125 }
{
    let mut divisor = 0;
    for k in (0..row.len()).rev() {
        if divisor == 1 {
            return divisor;
        }
        divisor = joined(divisor, turn.cross(row[k], base[k]));
    }
    divisor
}

// The greatest common divisor of this one and a number. Most numbers are 0, and leave it as it is.
fn joined(divisor: u128, z: i128) -> u128
    ensures { result ≡ gcd (unsigned_abs z) divisor }
{
    if z == 0 {
        return divisor;
    }
    gcd_128(z.unsigned_abs(), divisor)
}
