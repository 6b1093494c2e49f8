//! The elimination of one number by a pivot.

ghost use Rattle.std.specs.Prelude.{◌≡◌, ◌≤◌, ◌^◌, ◌-ℤ◌, ◌*ℤ◌, unsigned_abs};
ghost use Rattle.frac_rows.specs.Rows.{widest};

/// What a row is multiplied by, and what the base row is multiplied by before it is taken from it.
#[derive(Clone, Copy)]
pub(crate) struct Multipliers {
    pub(crate) own: i64,
    pub(crate) base: i64,
    ghost own_limit: { unsigned_abs own ≤ widest },
    ghost base_limit: { unsigned_abs base ≤ widest },
}

impl Multipliers {
    /// What the number `x` becomes where the base row has `y`.
    pub(crate) fn cross(self, x: i64, y: i64) -> i128
        requires x_limit { unsigned_abs x ≤ widest }
        requires y_limit { unsigned_abs y ≤ widest }
        ensures value { result ≡ self.own *ℤ x -ℤ self.base *ℤ y }
        ensures size { unsigned_abs result ≤ 2 ^ 125 }
    {
        product(self.own, x) - product(self.base, y)
    }
}

/// The product of two numbers within the limit of a table.
pub(crate) fn product(a: i64, b: i64) -> i128
    requires a_limit { unsigned_abs a ≤ widest }
    requires b_limit { unsigned_abs b ≤ widest }
    ensures value { result ≡ a *ℤ b }
    ensures size { unsigned_abs result ≤ 2 ^ 124 }
{
    i128::from(a) * i128::from(b)
}
