//! One row after a pivot, divided by a known divisor or by its greatest common divisor.

ghost use Rattle.std.specs.Prelude.{◌≡◌, ◌≤◌, ◌^◌, ◌*ℤ◌, ◌-ℤ◌, length, pos, not, unsigned_abs, All, IsTrue, OnSome, IfSome};
ghost use Rattle.frac_rows.specs.Divisors.{gcd, divisor_of, quotient, reduced};
ghost use Rattle.frac_rows.specs.Rows.{widest, eliminated, is_wide_row, AreNarrow};
ghost use Rattle.frac_rows.specs.Steps.{IsDivided};

use crate::divisors::{Divisor, gcd_128};
use crate::limits::WIDEST;
use crate::multipliers::Multipliers;

/// Writes what the row becomes, divided by a number that may divide it. Returns a size that no quotient exceeds.
/// Returns `None` if the number does not divide all of the row, or a quotient is beyond the limit.
pub(crate) fn divide_by(
    by: &Divisor,
    turn: Multipliers,
    row: &[i64],
    base: &[i64],
    out: &mut [i64],
) -> Option<u64>
    requires as_long { length base.now ≡ length row.now }
    requires room { length out.old ≡ length row.now }
    requires narrow { AreNarrow row.now }
    requires narrow_base { AreNarrow base.now }
    ensures divided { OnSome result (IsDivided by.now.number (eliminated turn.own row.now turn.base base.now) out.new) }
    ensures size { IfSome result (λ most. All (λ x. unsigned_abs x ≤ most) out.new) }
{
    let mut most = 0u64;
    for k in 0..row.len() {
        let quotient = exact_quotient(by, turn, row[k], base[k])?;
        most = most.max(quotient.unsigned_abs());
        out[k] = quotient;
    }
    Some(most)
}

// The number that gives what `x` becomes times the divisor. Most numbers of large tables are 0 where those of the base
// row are 0 too, and stay so.
fn exact_quotient(by: &Divisor, turn: Multipliers, x: i64, y: i64) -> Option<i64>
    requires x_limit { unsigned_abs x ≤ widest }
    requires y_limit { unsigned_abs y ≤ widest }
    ensures value { IfSome result (λ q. pos by.now.number *ℤ q ≡ turn.own *ℤ x -ℤ turn.base *ℤ y) }
    ensures size { IfSome result (λ q. unsigned_abs q ≤ widest) }
{
    if x == 0 && y == 0 {
        return Some(0);
    }
    by.exact(turn.cross(x, y))
}

/// Writes what the row becomes, divided by its greatest common divisor, and tells whether all of it is within the
/// limit.
pub(crate) fn reduce(turn: Multipliers, row: &[i64], base: &[i64], out: &mut [i64]) -> bool
    requires as_long { length base.now ≡ length row.now }
    requires room { length out.old ≡ length row.now }
    requires narrow { AreNarrow row.now }
    requires narrow_base { AreNarrow base.now }
    ensures row { IsTrue result → out.new ≡ reduced (eliminated turn.own row.now turn.base base.now) }
    ensures within { result ≡ not (is_wide_row (reduced (eliminated turn.own row.now turn.base base.now))) }
{
    let common = common_divisor(turn, row, base);
    for k in 0..row.len() {
        let number = quotient_by(common, turn.cross(row[k], base[k]));
        if number.unsigned_abs() > u128::from(WIDEST) {
            return false;
        }
        out[k] = number as i64;
    }
    true
}

// A common divisor, and the same as one to divide by, where it is known as such.
#[derive(Clone, Copy)]
struct Common {
    number: u128,
    by: Option<Divisor>,
}

// The greatest common divisor of what the row becomes.
fn common_divisor(turn: Multipliers, row: &[i64], base: &[i64]) -> Common
    requires as_long { length base.now ≡ length row.now }
    requires narrow { AreNarrow row.now }
    requires narrow_base { AreNarrow base.now }
    ensures value { result.number ≡ divisor_of (eliminated turn.own row.now turn.base base.now) }
    ensures size { result.number ≤ 2 ^ 125 }
    ensures by { IfSome result.by (λ by. by.number ≡ result.number) }
{
    let mut common = Common {
        number: 0,
        by: None,
    };
    for k in (0..row.len()).rev() {
        if common.number == 1 {
            return common;
        }
        common = joined(common, turn.cross(row[k], base[k]));
    }
    common
}

// The greatest common divisor of this one and a number, which mostly is a multiple of it.
fn joined(common: Common, z: i128) -> Common
    requires { IfSome common.by (λ by. by.number ≡ common.number) }
    ensures value { result.number ≡ gcd (unsigned_abs z) common.number }
    ensures by { IfSome result.by (λ by. by.number ≡ result.number) }
{
    if is_multiple(common, z) {
        return common;
    }
    common_of(gcd_128(z.unsigned_abs(), common.number))
}

// Returns whether the number is a multiple of the common divisor; `false` leaves it open.
fn is_multiple(common: Common, z: i128) -> bool
    requires { IfSome common.by (λ by. by.number ≡ common.number) }
    ensures { IsTrue result → gcd (unsigned_abs z) common.number ≡ common.number }
{
    match common.by {
        Some(by) => by.exact(z).is_some(),
        None => false,
    }
}

fn common_of(number: u128) -> Common
    ensures value { result.number ≡ number }
    ensures by { IfSome result.by (λ by. by.number ≡ result.number) }
{
    Common {
        number,
        by: divisor_by(number),
    }
}

// The number as one to divide by, unless it is 0 or too great.
fn divisor_by(number: u128) -> Option<Divisor>
    ensures { IfSome result (λ by. by.number ≡ number) }
{
    if number > u128::from(WIDEST) {
        return None;
    }
    Divisor::new(number as u64)
}

// The number divided by the common divisor of it and others.
fn quotient_by(common: Common, z: i128) -> i128
    requires by { IfSome common.by (λ by. by.number ≡ common.number) }
    requires z_limit { unsigned_abs z ≤ 2 ^ 125 }
    requires divisor_limit { common.number ≤ 2 ^ 125 }
    ensures value { result ≡ quotient z common.number }
    ensures size { unsigned_abs result ≤ unsigned_abs z }
{
    match exact(common, z) {
        Some(quotient) => i128::from(quotient),
        None => quotient(z, common.number),
    }
}

// The quotient, where the inverse of the divisor gives it.
fn exact(common: Common, z: i128) -> Option<i64>
    requires { IfSome common.by (λ by. by.number ≡ common.number) }
    ensures { IfSome result (λ q. q ≡ quotient z common.number) }
{
    let by = common.by?;
    by.exact(z)
}

/// The number divided by a divisor of it, which may be 0.
pub(crate) fn quotient(z: i128, divisor: u128) -> i128
    requires z_limit { unsigned_abs z ≤ 2 ^ 125 }
    requires divisor_limit { divisor ≤ 2 ^ 125 }
    ensures value { result ≡ quotient z divisor }
    ensures size { unsigned_abs result ≤ unsigned_abs z }
{
    if divisor == 0 {
        return 0;
    }
    z / divisor as i128
}
