//! The elimination of one number by a pivot.

ghost use Rattle.std.specs.Prelude.{◌≡◌, ◌<◌, ◌≤◌, ◌^◌, ◌-ℤ◌, ◌*ℤ◌, true, unsigned_abs, IfOk, OnErr};
ghost use Rattle.frac_rows.specs.Rows.{widest};

use frac_rows::{WIDEST, Wide};

/// What a row is multiplied by, and what the base row is multiplied by before it is taken from it.
#[derive(Clone, Copy)]
pub(crate) struct RowMultipliers {
    pub(crate) own: i64,
    pub(crate) base: i64,
    ghost own_limit: { unsigned_abs own ≤ widest },
    ghost base_limit: { unsigned_abs base ≤ widest },
}

impl RowMultipliers {
    /// What the number `x` becomes where the base row has `y`.
    pub(crate) fn cross(self, x: i64, y: i64) -> i128
        requires x_limit { unsigned_abs x ≤ widest }
        requires y_limit { unsigned_abs y ≤ widest }
        ensures value { result ≡ self.own *ℤ x -ℤ self.base *ℤ y }
        ensures size { unsigned_abs result ≤ 2 ^ 125 }
    {
        product(self.own, x) - product(self.base, y)
    }

    /// The same, unless it is beyond the limit. Where the numbers are small it takes less time.
    #[inline(always)]
    pub(crate) fn narrow_cross(self, x: i64, y: i64) -> Result<i64, Wide>
        requires x_limit { unsigned_abs x ≤ widest }
        requires y_limit { unsigned_abs y ≤ widest }
        ensures value { IfOk result (λ z. z ≡ self.own *ℤ x -ℤ self.base *ℤ y) }
        ensures size { IfOk result (λ z. unsigned_abs z ≤ widest) }
        ensures wide { OnErr result (widest < unsigned_abs (self.own *ℤ x -ℤ self.base *ℤ y)) }
    {
        if is_small(self.own) && is_small(self.base) && is_small(x) && is_small(y) {
            return Ok(small_product(self.own, x) - small_product(self.base, y));
        }
        let z = self.cross(x, y);
        if z.unsigned_abs() > u128::from(WIDEST) {
            return Err(Wide);
        }
        Ok(z as i64)
    }
}

// The most that a small number is in size: the product of two fits 64 bits, and so does the difference of two products.
const SMALL: i64 = 1 << 30;

#[inline(always)]
fn is_small(z: i64) -> bool
    ensures { result ≡ true → unsigned_abs z ≤ 2 ^ 30 }
{
    -SMALL <= z && z <= SMALL
}

// The product of two small numbers.
#[inline(always)]
fn small_product(a: i64, b: i64) -> i64
    requires a_limit { unsigned_abs a ≤ 2 ^ 30 }
    requires b_limit { unsigned_abs b ≤ 2 ^ 30 }
    ensures value { result ≡ a *ℤ b }
    ensures size { unsigned_abs result ≤ 2 ^ 60 }
{
    a * b
}

/// The product of two numbers within the limit of a table.
pub(crate) fn product(a: i64, b: i64) -> i128
    requires a_limit { unsigned_abs a ≤ widest }
    requires b_limit { unsigned_abs b ≤ widest }
    ensures value { result ≡ a *ℤ b }
    ensures size { unsigned_abs result ≤ 2 ^ 124 }
{
    i128::from(a) * i128::from(b)
}
